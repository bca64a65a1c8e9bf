// An airport, as replies give it.
#![tactic(auto, unfolding(serde_json::proofs::OnLiterals::serde_json_on_literals))]

ghost use Rattle.std.specs.Prelude.{◌≡◌, ◌++◌, OnOk};
ghost use Rattle.serde_json.specs.Data.{string};
ghost use Rattle.serde_json.specs.Written.{compact_text};
ghost use Rattle.apron_dates.specs.Dates.{IsFirstDay};
ghost use Rattle.desk_words.specs.AirportObjects.{airport_data, date_text, frontage_data, letter_data, pair_data, stand_row_data, type_row_data};

use crate::json_text::{Json, push_number};
use crate::push_object;
use apron_base::{Letter, Memory, letter_of};
use apron_dates::Date;
use apron_rules::{AirportParts, Frontage, PairRow, StandRow, TypeRow};

/// The airport of a plan of this version.
pub(crate) fn push_airport(
    bytes: &mut Vec<u8>,
    airport: &AirportParts,
    version: u32,
) -> Result<(), Memory>
    requires first { IsFirstDay airport.now.first }
    ensures text { OnOk result
        (bytes.new.items ≡ bytes.old.items ++ compact_text (airport_data airport.now version)) }
{
    push_object!(bytes, &(), {
        "days": airport.days,
        "first_day": airport.first,
        "frontages": airport.frontages,
        "pairs": airport.pairs,
        "stands": airport.stands,
        "station": airport.station,
        "taxi_in": airport.taxi_in,
        "tow": airport.tow,
        "types": airport.types,
        "version": version,
    })
}

/// YYYY-MM-DD. The year has four digits.
impl<At> Json<At> for Date {
    ghost json = { λ _ date. string (date_text date) };

    ghost can_push = { λ _ date. IsFirstDay date };

    fn push(&self, bytes: &mut Vec<u8>, _at: &At) -> Result<(), Memory> {
        bytes.push(b'"')?;
        push_number(bytes, self.year)?;
        bytes.push(b'-')?;
        push_number(bytes, self.month / 10)?;
        push_number(bytes, self.month % 10)?;
        bytes.push(b'-')?;
        push_number(bytes, self.day / 10)?;
        push_number(bytes, self.day % 10)?;
        bytes.push(b'"')?;
        Ok(())
    }
}

impl<At> Json<At> for Letter {
    ghost json = { λ _ letter. letter_data letter };

    fn push(&self, bytes: &mut Vec<u8>, at: &At) -> Result<(), Memory> {
        match self {
            Letter::A => "A".push(bytes, at),
            Letter::B => "B".push(bytes, at),
            Letter::C => "C".push(bytes, at),
            Letter::D => "D".push(bytes, at),
            Letter::E => "E".push(bytes, at),
            Letter::F => "F".push(bytes, at),
        }
    }
}

impl<At> Json<At> for Frontage {
    ghost json = { λ _ frontage. frontage_data frontage };

    fn push(&self, bytes: &mut Vec<u8>, at: &At) -> Result<(), Memory> {
        push_object!(bytes, at, { "name": self.name, "objects": self.objects })
    }
}

impl<At> Json<At> for PairRow {
    ghost json = { λ _ pair. pair_data pair };

    fn push(&self, bytes: &mut Vec<u8>, at: &At) -> Result<(), Memory> {
        push_object!(bytes, at, { "a": self.a, "b": self.b, "la": self.la, "lb": self.lb })
    }
}

impl<At> Json<At> for StandRow {
    ghost json = { λ _ stand. stand_row_data stand };

    fn push(&self, bytes: &mut Vec<u8>, at: &At) -> Result<(), Memory> {
        push_object!(bytes, at, {
            "buffer": self.buffer,
            "centre": self.centre,
            "frontage": self.frontage,
            "half_of": self.half_of,
            "letter": self.letter,
            "name": self.name,
        })
    }
}

impl<At> Json<At> for TypeRow {
    ghost json = { λ _ kind. type_row_data kind };

    fn push(&self, bytes: &mut Vec<u8>, at: &At) -> Result<(), Memory> {
        push_object!(bytes, at, {
            "fold": self.fold,
            "least": self.least,
            "letter": letter_of(self.span),
            "name": self.name,
            "parked": self.parked,
            "span": self.span,
        })
    }
}
