// A visit, as replies give it.
#![tactic(auto, unfolding(serde_json::proofs::OnLiterals::serde_json_on_literals))]

ghost use Rattle.std.specs.Prelude.{◌≡◌, ◌++◌, true, All, OnOk};
ghost use Rattle.serde_json.specs.Data.{string};
ghost use Rattle.serde_json.specs.Written.{compact_text, members_text};
ghost use Rattle.mvt_grammar.specs.Canonical.{flight_text};
ghost use Rattle.mvt_grammar.specs.Readable.{IsFlight};
ghost use Rattle.visit_book.specs.Places.{stand_of};
ghost use Rattle.visit_book.specs.NewVisits.{HasFlight, IsNewVisit, new_of};
ghost use Rattle.desk_words.specs.JsonText.{is_plain};
ghost use Rattle.desk_words.specs.VisitObjects.{bump_data, bump_of, day_data, key_data, last_members, stay_data, state_word, visit_data};

use crate::json_text::Json;
use crate::members::{End, Member, Members};
use crate::push_object;
use apron_base::{Listed, Memory, StandNo};
use apron_rules::AirportParts;
use mvt_grammar::{Flight, push_flight};
use visit_book::{Bump, End as VisitEnd, Key, Part, Place, Visit, is_actual};

/// The visits of a day of a plan of this version.
pub(crate) fn push_day(
    bytes: &mut Vec<u8>,
    airport: &AirportParts,
    visits: &Listed<Visit>,
    version: u32,
) -> Result<(), Memory>
    requires new { All (λ visit. IsNewVisit (new_of visit)) visits.now }
    ensures text { OnOk result
        (bytes.new.items
        ≡ bytes.old.items ++ compact_text (day_data airport.now visits.now version)) }
{
    push_object!(bytes, airport, { "version": version, "visits": *visits })
}

/// A visit among others.
impl Json<AirportParts> for Visit {
    ghost use Rattle.std.specs.Prelude.{None};

    ghost json = { λ airport visit. visit_data airport None visit };

    ghost can_push = { λ _ visit. IsNewVisit (new_of visit) };

    fn push(&self, bytes: &mut Vec<u8>, airport: &AirportParts) -> Result<(), Memory> {
        push_visit(bytes, airport, self, None)
    }
}

/// A visit. If it stands alone the plan's version is given, and is among its members.
pub(crate) fn push_visit(
    bytes: &mut Vec<u8>,
    airport: &AirportParts,
    visit: &Visit,
    version: Option<u32>,
) -> Result<(), Memory>
    requires new { IsNewVisit (new_of visit.now) }
    ensures text { OnOk result
        (bytes.new.items
        ≡ bytes.old.items ++ compact_text (visit_data airport.now version visit.now)) }
{
    push_object!(bytes, airport, {
        "arr": visit.arr,
        "class": visit.class,
        "dep": visit.dep,
        "edited": visit.edited,
        "name": visit.name,
        "off": visit.off,
        "on": visit.on,
        "parts": visit.parts.as_slice(),
        "state": state_word(visit),
        "type": visit.kind,
        ..LastMembers(visit, version)
    })
}

// What comes after a visit's type: the version, if one is given, and the visit's number.
#[derive(Drop)]
struct LastMembers<'a>(&'a Visit, Option<u32>);

impl<At> Members<At> for LastMembers<'_> {
    ghost text = { λ _ last. members_text true (last_members last.1 last.0.now) };

    fn push(&self, bytes: &mut Vec<u8>, at: &At) -> Result<(), Memory> {
        let number = Member(",\"visit\":", &self.0.number, End);
        match self.1 {
            Some(version) => Member(",\"version\":", &version, number).push(bytes, at),
            None => number.push(bytes, at),
        }
    }
}

fn state_word(visit: &Visit) -> &'static str
    ensures text { result.now ≡ state_word visit.now.end visit.now.on_block }
    ensures plain { is_plain result.now ≡ true }
{
    match visit.end {
        VisitEnd::Cancelled => "cancelled",
        VisitEnd::Gone => "gone",
        VisitEnd::Live if visit.on_block => "onblock",
        VisitEnd::Live => "expected",
    }
}

impl<At> Json<At> for Key {
    ghost json = { λ _ key. key_data key };

    ghost can_push = { λ _ key. HasFlight key };

    fn push(&self, bytes: &mut Vec<u8>, at: &At) -> Result<(), Memory> {
        push_object!(bytes, at, { "day": self.day, "flight": self.flight })
    }
}

impl<At> Json<At> for Flight {
    ghost json = { λ _ flight. string (flight_text flight) };

    ghost can_push = { λ _ flight. IsFlight flight };

    fn push(&self, bytes: &mut Vec<u8>, _at: &At) -> Result<(), Memory> {
        bytes.push(b'"')?;
        push_flight(bytes, self)?;
        bytes.push(b'"')?;
        Ok(())
    }
}

impl Json<AirportParts> for Part {
    ghost json = { λ airport part. stay_data airport part };

    fn push(&self, bytes: &mut Vec<u8>, airport: &AirportParts) -> Result<(), Memory> {
        push_object!(bytes, airport, {
            "actual": is_actual(&self.place),
            "bump": bump_of(self.place),
            "from": self.from,
            "stand": stand_of(self.place),
            "to": self.to,
        })
    }
}

pub(crate) fn bump_of(place: Place) -> Option<Bump>
    ensures is { result ≡ bump_of place }
{
    match place {
        Place::Unplaced(bump) => bump,
        Place::Planned(_) | Place::Actual(_) => None,
    }
}

pub(crate) fn stand_of(place: Place) -> Option<StandNo>
    ensures is { result ≡ stand_of place }
{
    match place {
        Place::Unplaced(_) => None,
        Place::Planned(stand) | Place::Actual(stand) => Some(stand),
    }
}

impl Json<AirportParts> for Bump {
    ghost json = { λ airport bump. bump_data airport bump };

    fn push(&self, bytes: &mut Vec<u8>, airport: &AirportParts) -> Result<(), Memory> {
        push_object!(bytes, airport, {
            "blocker": self.blocker,
            "entry": self.entry,
            "minute": self.minute,
            "rule": self.rule,
            "stand": self.stand,
        })
    }
}
