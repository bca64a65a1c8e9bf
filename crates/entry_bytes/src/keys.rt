// The keys of visits as bytes.
ghost use Rattle.std.specs.Prelude.{◌≡◌, ◌++◌, IfSome, OnOk, IsTrue, ◌↔◌};
ghost use Rattle.std.specs.List.{flat_map};
ghost use Rattle.apron_base.specs.Histories.{Every};
ghost use Rattle.mvt_grammar.specs.Bytes.{is_capital};
ghost use Rattle.mvt_grammar.specs.Flights.{is_airline};
ghost use Rattle.entry_bytes.specs.Gives.{GivesReading};
ghost use Rattle.entry_bytes.specs.Fields.{Fits, field_bytes};
ghost use Rattle.entry_bytes.specs.Keys.{key_fields, optional_key_fields};
ghost use Rattle.entry_bytes.specs.Parsing.{is_suffix_byte, parse_key, parse_optional_key, suffix_of};
ghost use Rattle.entry_bytes.specs.Readings.{byte, such_that, text};

use crate::faults::ReadFault;
use crate::reader::{Reader, in_form};
use crate::writing::{push_name, push_u8, push_u16};
use apron_base::{Memory, Name};
use apron_rules::Airport;
use mvt_grammar::{Flight, is_flight};
use visit_book::Key;

fn push_key(out: &mut Vec<u8>, key: &Key) -> Result<(), Memory>
    ensures text { OnOk result
        (out.new.items ≡ out.old.items ++ flat_map field_bytes (key_fields key.now)) }
    ensures fits { OnOk result (Every Fits (key_fields key.now)) }
{
    push_name(out, &key.flight.airline)?;
    push_u16(out, key.flight.number)?;
    push_u8(out, key.flight.suffix.unwrap_or(0))?;
    push_u8(out, key.day)
}

pub(crate) fn push_optional_key(out: &mut Vec<u8>, key: &Option<Key>) -> Result<(), Memory>
    ensures text { OnOk result
        (out.new.items ≡ out.old.items ++ flat_map field_bytes (optional_key_fields key.now)) }
    ensures fits { OnOk result (Every Fits (optional_key_fields key.now)) }
{
    match key {
        None => push_u8(out, 0),
        Some(key) => {
            push_u8(out, 1)?;
            push_key(out, key)
        }
    }
}

// The airline is tested as an airline only: the other parts of a flight have their forms already.
fn is_airline(airline: Name) -> bool
    ensures is { result ≡ is_airline airline }
{
    is_flight(&Flight {
        airline,
        number: 0,
        suffix: None,
    })
}

fn airline_at(reader: &mut Reader<'_>) -> Result<Name, ReadFault>
    ensures is { GivesReading result reader.new (such_that is_airline text reader.old) }
{
    let at = reader.at();
    let text = reader.text()?;
    match Name::new(text) {
        Some(airline) if is_airline(airline) => Ok(airline),
        _ => Err(ReadFault::BadField(at)),
    }
}

fn suffix_at(reader: &mut Reader<'_>) -> Result<u8, ReadFault>
    ensures is { GivesReading result reader.new (such_that is_suffix_byte byte reader.old) }
{
    let at = reader.at();
    let suffix = reader.byte()?;
    in_form(at, suffix == 0 || suffix.is_ascii_uppercase())?;
    Ok(suffix)
}

#[tactic(auto, unfolding(crate::specs::Parsing::parse_key))]
fn parse_key(reader: &mut Reader<'_>, airport: &Airport) -> Result<Key, ReadFault>
    ensures is { GivesReading result reader.new (parse_key airport.now reader.old) }
{
    let airline = airline_at(reader)?;
    let at = reader.at();
    let number = reader.u16()?;
    in_form(at, number < 10_000)?;
    let suffix = suffix_at(reader)?;
    let at = reader.at();
    let day = reader.byte()?;
    in_form(at, u32::from(day) <= airport.parts().days)?;
    let flight = Flight {
        airline,
        number,
        suffix: suffix_of(suffix),
    };
    Ok(Key { flight, day })
}

fn suffix_of(byte: u8) -> Option<u8>
    ensures is { result ≡ suffix_of byte }
{
    if byte == 0 { None } else { Some(byte) }
}

#[tactic(auto, unfolding(crate::specs::Parsing::parse_optional_key))]
pub(crate) fn parse_optional_key(
    reader: &mut Reader<'_>,
    airport: &Airport,
) -> Result<Option<Key>, ReadFault>
    ensures is { GivesReading result reader.new (parse_optional_key airport.now reader.old) }
{
    let at = reader.at();
    match reader.byte()? {
        0 => Ok(None),
        1 => Ok(Some(parse_key(reader, airport)?)),
        _ => Err(ReadFault::BadField(at)),
    }
}
