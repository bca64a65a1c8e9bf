// The form of a record of a season file.
ghost use Rattle.std.specs.Prelude.{◌≡◌, ◌≤◌, ◌<◌, ◌+◌, IfSome, length};
ghost use Rattle.csv.specs.Records.{fields_of};
ghost use Rattle.visit_book.specs.NewVisits.{HasFlight, IsNewVisitOf};
ghost use Rattle.visit_book.specs.WellFormed.{greatest_class};
ghost use Rattle.season_files.specs.Fields.{class_in, heads_flights, heads_visit, is_field, is_header, key_in, name_in, number_in, type_in, visit_in, visit_of_record};
ghost use Rattle.season_files.specs.Records.{if_name, key_named, key_with, number_named, small_named, type_named};

use apron_base::{Name, TypeNo, number_of};
use apron_rules::Airport;
use csv::ByteRecord;
use mvt_grammar::read_flight;
use visit_book::{Key, NewVisit, is_in_time};

/// How many fields a record has.
pub(crate) const COLUMNS: usize = 9;

/// The most digits of a number.
pub(crate) const MAX_NUMBER_DIGITS: usize = 9;

/// The greatest class of a visit.
const GREATEST_CLASS: u8 = 9;

/// Whether a record is the header.
#[tactic(auto, unfolding(crate::specs::Fields::is_header))]
pub(crate) fn is_header(row: &ByteRecord) -> bool
    ensures is { result ≡ is_header (fields_of row.now) }
{
    row.len() == COLUMNS && heads_visit(row) && heads_flights(row)
}

// Whether the first fields name what every visit has.
fn heads_visit(row: &ByteRecord) -> bool
    ensures is { result ≡ heads_visit (fields_of row.now) }
{
    is_field(row, 0, b"name")
        && is_field(row, 1, b"type")
        && is_field(row, 2, b"class")
        && is_field(row, 3, b"on")
        && is_field(row, 4, b"off")
}

// Whether the fields after these name the flights.
fn heads_flights(row: &ByteRecord) -> bool
    ensures is { result ≡ heads_flights (fields_of row.now) }
{
    is_field(row, 5, b"arr")
        && is_field(row, 6, b"arrday")
        && is_field(row, 7, b"dep")
        && is_field(row, 8, b"depday")
}

fn is_field(row: &ByteRecord, i: usize, word: &[u8]) -> bool
    ensures is { result ≡ is_field (fields_of row.now) i word.now }
{
    match row.get(i) {
        Some(field) => field == word,
        None => false,
    }
}

/// The visit that a record gives at the airport, if it gives one.
pub(crate) fn visit_of_record(airport: &Airport, row: &ByteRecord) -> Option<NewVisit>
    ensures value { result ≡ visit_of_record airport.now (fields_of row.now) }
    ensures new { IfSome result (IsNewVisitOf airport.now) }
{
    if row.len() == COLUMNS {
        visit_in(airport, row)
    } else {
        None
    }
}

#[tactic(auto, unfolding(crate::specs::Fields::visit_in))]
fn visit_in(airport: &Airport, row: &ByteRecord) -> Option<NewVisit>
    ensures value { result ≡ visit_in airport.now (fields_of row.now) }
    ensures new { IfSome result (IsNewVisitOf airport.now) }
{
    let name = name_in(row, 0)?;
    let kind = type_in(airport, row, 1)?;
    let class = class_in(row, 2)?;
    let on = number_in(row, 3)?;
    let off = number_in(row, 4)?;
    let arr = key_in(row, 5)?;
    let dep = key_in(row, 7)?;
    let new = NewVisit {
        name,
        kind,
        class,
        on,
        off,
        arr,
        dep,
    };
    if is_in_time(airport, &new) {
        Some(new)
    } else {
        None
    }
}

fn name_in(row: &ByteRecord, i: usize) -> Option<Name>
    ensures value { result ≡ name_in (fields_of row.now) i }
{
    if_name(row.get(i)?)
}

fn if_name(text: &[u8]) -> Option<Name>
    ensures value { result ≡ if_name text.now }
{
    Name::new(text)
}

fn type_in(airport: &Airport, row: &ByteRecord, i: usize) -> Option<TypeNo>
    ensures value { result ≡ type_in airport.now (fields_of row.now) i }
    ensures inside { IfSome result (λ kind. kind.0 < length airport.now.types) }
{
    type_named(airport, row.get(i)?)
}

fn type_named(airport: &Airport, text: &[u8]) -> Option<TypeNo>
    ensures value { result ≡ type_named airport.now text.now }
    ensures inside { IfSome result (λ kind. kind.0 < length airport.now.types) }
{
    match if_name(text) {
        Some(name) => airport.type_of(&name),
        None => None,
    }
}

fn class_in(row: &ByteRecord, i: usize) -> Option<u8>
    ensures value { result ≡ class_in (fields_of row.now) i }
    ensures class { IfSome result (λ class. class ≤ greatest_class) }
{
    if_small(row.get(i)?, GREATEST_CLASS)
}

fn number_in(row: &ByteRecord, i: usize) -> Option<u32>
    ensures value { result ≡ number_in (fields_of row.now) i }
{
    number(row.get(i)?)
}

fn number(text: &[u8]) -> Option<u32>
    ensures value { result ≡ number_named text.now }
{
    match number_of(text, MAX_NUMBER_DIGITS) {
        Some(number) => Some(number as u32),
        None => None,
    }
}

fn if_small(text: &[u8], most: u8) -> Option<u8>
    ensures value { result ≡ small_named most text.now }
    ensures most { IfSome result (λ number. number ≤ most) }
{
    match number(text) {
        Some(number) if number <= u32::from(most) => Some(number as u8),
        _ => None,
    }
}

// The key of the two fields from this place on: `Some(None)` if both are empty.
#[tactic(auto, unfolding(crate::specs::Fields::key_in))]
fn key_in(row: &ByteRecord, i: usize) -> Option<Option<Key>>
    requires place { i < COLUMNS }
    ensures value { result ≡ key_in (fields_of row.now) i }
    ensures flight { IfSome result (λ key. IfSome key HasFlight) }
{
    let flight = row.get(i)?;
    let day = row.get(i + 1)?;
    key_named(flight, day)
}

fn key_named(flight: &[u8], day: &[u8]) -> Option<Option<Key>>
    ensures value { result ≡ key_named flight.now day.now }
    ensures flight { IfSome result (λ key. IfSome key HasFlight) }
{
    if !flight.is_empty() {
        return Some(Some(key_with(flight, day)?));
    }
    if day.is_empty() { Some(None) } else { None }
}

fn key_with(flight: &[u8], day: &[u8]) -> Option<Key>
    ensures value { result ≡ key_with flight.now day.now }
    ensures flight { IfSome result HasFlight }
{
    let flight = read_flight(flight)?;
    let day = if_small(day, u8::MAX)?;
    Some(Key { flight, day })
}
