// The visits of a text, read record by record.
ghost use Rattle.std.specs.Prelude.{◌≡◌, ℕ, List, Some, OnOk, IfOk, IfErr, ◌<◌, ◌+◌, ◌^◌, length, All};
ghost use Rattle.csv.specs.declared.parser.State.{State};
ghost use Rattle.visit_book.specs.NewVisits.{IsNewVisitOf};
ghost use Rattle.csv_records.specs.Reading.{IsReading};
ghost use Rattle.season_files.specs.Seasons.{ReadsSeason, RefusesSeason, season_in, season_left, visits_left};

use crate::faults::SeasonFault;
use crate::records::{is_header, visit_of_record};
use apron_base::Listed;
use apron_rules::Airport;
use csv::{ByteRecord, Reader};
use csv_records::{read_row, start};
use std::alloc::Global;
use visit_book::{Key, NewVisit};

// Reads the first record, which is the header.
fn read_season_header(
    airport: &Airport,
    rdr: &mut Reader<&[u8]>,
    row: &mut ByteRecord,
) -> Result<(), SeasonFault>
    ensures ok { OnOk result
        ((turns : ℕ) (s : State) (left : List ℕ)
        → IsReading (λ b. Some b.now) rdr.old s left
        → (t : State)
        × (rest : List ℕ)
        × IsReading (λ b. Some b.now) rdr.new t rest
        × (season_left airport.now (turns + 1) s left
        ≡ visits_left airport.now 2 turns t rest)) }
    ensures err { IfErr result (λ e. (turns : ℕ) (s : State) (left : List ℕ)
        → IsReading (λ b. Some b.now) rdr.old s left
        → RefusesSeason e (season_left airport.now (turns + 1) s left)) }
{
    if !read_row(rdr, row)? {
        return Err(SeasonFault::BadRow(1));
    }
    if is_header(row) {
        Ok(())
    } else {
        Err(SeasonFault::BadRow(1))
    }
}

// Reads the records after the header, at most `turns` of them.
fn read_visits(
    alloc: Global,
    airport: &Airport,
    rdr: &mut Reader<&[u8]>,
    row: &mut ByteRecord,
    turns: usize,
) -> Result<Listed<NewVisit>, SeasonFault>
    requires few { turns < 2 ^ 31 }
    ensures value { (s : State) (left : List ℕ)
        → IsReading (λ b. Some b.now) rdr.old s left
        → ReadsSeason result (visits_left airport.now 2 turns s left) }
    ensures new { IfOk result (All (IsNewVisitOf airport.now)) }
{
    let mut visits = Listed::new(alloc);
    for k in 0..turns {
        if !read_row(rdr, row)? {
            return Ok(visits);
        }
        let Some(new) = visit_of_record(airport, row) else {
            return Err(SeasonFault::BadRow(k as u32 + 2));
        };
        // This names the type of a field of what is pushed; the proof of the push needs it.
        let _named: Option<Key> = new.arr;
        if visits.push(new).is_err() {
            return Err(SeasonFault::Memory);
        }
    }
    Ok(visits)
}

/// The visits of a season file for the airport, in order of its records. Minutes are from 00:00 UTC
/// of the airport's first day. Days are counted from 1, which is that day. `BadRow` gives the
/// number of the first record that is refused, counted from 1 with the header: the header is
/// missing, or the record does not have nine fields, or a field has another form, or its type is
/// not of the airport, or its times are not valid there.
pub fn read_season(
    alloc: Global,
    airport: &Airport,
    text: &[u8],
) -> Result<Listed<NewVisit>, SeasonFault>
    requires few { length text.now < 2 ^ 31 }
    ensures read { ReadsSeason result (season_in airport.now text.now) }
    ensures new { IfOk result (All (IsNewVisitOf airport.now)) }
{
    let mut rdr = start(alloc, text);
    let mut row = ByteRecord::new(alloc);
    read_season_header(airport, &mut rdr, &mut row)?;
    read_visits(alloc, airport, &mut rdr, &mut row, text.len())
}
