// The text of visits, written record by record.
ghost use Rattle.std.specs.Prelude.{◌≡◌, ◌++◌, ◌<◌, Some, IfOk, IfSome, OnOk, All, length};
ghost use Rattle.std.specs.Io.KnownBytes.{Appends};
ghost use Rattle.visit_book.specs.NewVisits.{HasFlight, IsNewVisitOf, new_of};
ghost use Rattle.season_files.specs.CsvWriting.{IsWriting, written_bytes};
ghost use Rattle.season_files.specs.Texts.{columns, day_field, flight_field, is_uncancelled, line, name_of_type, season_of, season_text, visit_line};

use crate::csv_writing::{start_writing, write_row};
use apron_base::{Listed, Memory, TypeNo};
use apron_rules::Airport;
use csv::Writer;
use itoa::Buffer;
use mvt_grammar::push_flight;
use std::alloc::Global;
use visit_book::{End, Key, NewVisit, Visit, new_of};

// A writer that has written the header.
fn write_header(alloc: Global) -> Result<Writer<Vec<u8>>, Memory>
    ensures header { IfOk result
        (λ wtr. IsWriting wtr × (written_bytes wtr ≡ Some (line columns))) }
{
    let mut wtr = start_writing(alloc);
    write_row(
        &mut wtr,
        &[
            b"name", b"type", b"class", b"on", b"off", b"arr", b"arrday", b"dep", b"depday",
        ],
    )?;
    Ok(wtr)
}

// The text of the flight of a key, empty if there is none.
fn flight_field(alloc: Global, key: &Option<Key>) -> Result<Vec<u8>, Memory>
    requires flight { IfSome key.now HasFlight }
    ensures text { IfOk result (λ text. text.items ≡ flight_field key.now) }
{
    let mut text = Vec::new(alloc);
    if let Some(key) = key {
        push_flight(&mut text, &key.flight)?;
    }
    Ok(text)
}

// The day of a key in digits, nothing if there is none.
fn day_field<'a>(buffer: &'a mut Buffer, key: &Option<Key>) -> &'a [u8]
    ensures text { result.now ≡ day_field key.now }
{
    match key {
        Some(key) => buffer.format(key.day).as_bytes(),
        None => b"",
    }
}

// Writes the record of a visit.
fn write_visit(
    alloc: Global,
    wtr: &mut Writer<Vec<u8>>,
    airport: &Airport,
    new: &NewVisit,
) -> Result<(), Memory>
    requires new { IsNewVisitOf airport.now new.now }
    ensures line { OnOk result
        (IsWriting wtr.old
        → IsWriting wtr.new
        × Appends (written_bytes wtr.old) (written_bytes wtr.new)
        (visit_line airport.now new.now)) }
{
    let kind = airport.parts().types.as_slice()[new.kind.0 as usize].name;
    let arr = flight_field(alloc, &new.arr)?;
    let dep = flight_field(alloc, &new.dep)?;
    let mut class = Buffer::new();
    let mut on = Buffer::new();
    let mut off = Buffer::new();
    let mut arr_day = Buffer::new();
    let mut dep_day = Buffer::new();
    write_row(
        wtr,
        &[
            new.name.bytes(),
            kind.bytes(),
            class.format(new.class).as_bytes(),
            on.format(new.on).as_bytes(),
            off.format(new.off).as_bytes(),
            arr.as_slice(),
            day_field(&mut arr_day, &new.arr),
            dep.as_slice(),
            day_field(&mut dep_day, &new.dep),
        ],
    )
}

// Whether the visit isn't cancelled.
fn is_uncancelled(visit: &Visit) -> bool
    ensures is { result ≡ is_uncancelled visit.now }
{
    !matches!(visit.end, End::Cancelled)
}

/// The season file of the data that these visits of the airport were added with, in their order,
/// without the cancelled ones. Its lines end with LF. `Err` if there is no memory.
pub fn write_season(
    alloc: Global,
    airport: &Airport,
    visits: &[Visit],
) -> Result<Listed<u8>, Memory>
    requires new { All (λ visit. IsNewVisitOf airport.now (new_of visit)) visits.now }
    ensures text { IfOk result (λ text. text ≡ season_text airport.now (season_of visits.now)) }
{
    let mut wtr = write_header(alloc)?;
    for visit in visits {
        if is_uncancelled(visit) {
            write_visit(alloc, &mut wtr, airport, &new_of(visit))?;
        }
    }
    match wtr.into_inner() {
        Ok(text) => Ok(Listed::from_vec(text)),
        Err(_) => Err(Memory),
    }
}
