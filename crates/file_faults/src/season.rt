// What is wrong in a season file, and with what the plan has its visits.

use crate::columns::{Column, is_within, number, wrong_count, wrong_field, wrong_header};
use crate::complaint::{Complaint, FileLine, Shown, Wanted};
use crate::records::{FoundRecord, record_at, record_named};
use apron_base::{Memory, Name};
use apron_rules::Airport;
use mvt_grammar::read_flight;
use std::alloc::Global;
use std::fmt;

/// How many fields a record has.
const COLUMNS: usize = 9;

const HEADER: &str = "name,type,class,on,off,arr,arrday,dep,depday";

/// What is wrong with the record of this number, from 1 with the header, of the season file of this
/// name and text at an airport. `None` if its form is right.
pub fn season_fault(
    alloc: Global,
    airport: &Airport,
    file: &str,
    text: &[u8],
    number: u64,
) -> Result<Complaint, Memory> {
    let found = record_at(alloc, text, number)?;
    if number == 1 {
        return wrong_header(alloc, file, found, HEADER);
    }
    let Some(record) = found else {
        return Ok(None);
    };
    if record.row.len() != COLUMNS {
        return wrong_count(alloc, file, &record, COLUMNS);
    }
    match wrong_column(airport, &record) {
        Some(column) => wrong_field(alloc, file, &record, column),
        None => Ok(None),
    }
}

// The places of the columns.
const TYPE: usize = 1;

const ON: usize = 3;

const OFF: usize = 4;

// The first column whose field is wrong.
fn wrong_column(airport: &Airport, record: &FoundRecord) -> Option<Column> {
    wrong_front(airport, record)
        .or_else(|| wrong_minutes(airport, record))
        .or_else(|| wrong_flight(airport, record, 5, "arr", "arrday"))
        .or_else(|| wrong_flight(airport, record, 7, "dep", "depday"))
}

// The name, the type or the class, if it is wrong.
fn wrong_front(airport: &Airport, record: &FoundRecord) -> Option<Column> {
    if Name::new(record.field(0)).is_none() {
        let wanted = Wanted::Form("a name of 1 to 12 capitals, digits or dashes");
        return Some(column(0, "name", wanted));
    }
    if least_of(airport, record).is_none() {
        return Some(column(TYPE, "type", Wanted::Form("a type of the type file")));
    }
    if is_within(record.field(2), 0, 9) {
        None
    } else {
        Some(column(2, "class", Wanted::Number("a class", 0, 9)))
    }
}

// The least minutes of the record's type, if it has one of the airport's.
fn least_of(airport: &Airport, record: &FoundRecord) -> Option<u32> {
    let name = Name::new(record.field(TYPE))?;
    let kind = airport.type_of(&name)?;
    let row = airport.parts().types.as_slice().get(usize::from(kind.0))?;
    Some(row.least)
}

// The minute on block or off block, if it is wrong.
fn wrong_minutes(airport: &Airport, record: &FoundRecord) -> Option<Column> {
    let end = airport.minutes();
    let Some(on) = number(record.field(ON)).filter(|on| *on < end) else {
        let wanted = Wanted::Number("a minute of the plan", 0, end.saturating_sub(1));
        return Some(column(ON, "on", wanted));
    };
    let least = least_of(airport, record).unwrap_or(0);
    let first = on.saturating_add(least);
    if is_within(record.field(OFF), first, end) {
        None
    } else {
        Some(column(OFF, "off", Wanted::Number("a minute", first, end)))
    }
}

// The flight in this column, or the day in the next one, if it is wrong.
fn wrong_flight(
    airport: &Airport,
    record: &FoundRecord,
    place: usize,
    name: &'static str,
    day: &'static str,
) -> Option<Column> {
    let days = airport.parts().days;
    let flight = record.field(place);
    let given = record.field(place.saturating_add(1));
    let is_day = is_within(given, 0, days);
    if !flight.is_empty() && read_flight(flight).is_none() {
        return Some(column(place, name, Wanted::Form("a flight as LH123, or empty")));
    }
    if flight.is_empty() && !given.is_empty() {
        let wanted = Wanted::Form("empty, as a record without this flight has it");
        return Some(column(place.saturating_add(1), day, wanted));
    }
    if flight.is_empty() || is_day {
        None
    } else {
        let wanted = Wanted::Number("a day of the plan or the one before", 0, days);
        Some(column(place.saturating_add(1), day, wanted))
    }
}

fn column(place: usize, name: &'static str, wanted: Wanted) -> Column {
    Column {
        place,
        name,
        wanted,
    }
}

/// With what the plan has the visit of the record of this number, which is refused since it has
/// other data: `kept` is the season file of the plan.
pub fn season_row_there(
    alloc: Global,
    file: &str,
    text: &[u8],
    number: u64,
    kept: &[u8],
) -> Result<Complaint, Memory> {
    let Some(record) = record_at(alloc, text, number)? else {
        return Ok(None);
    };
    let at = FileLine {
        file,
        line: record.line,
    };
    let name = Shown(record.field(0));
    let Some(there) = record_named(alloc, kept, record.field(0), 0)? else {
        return Ok(Some(format!(in alloc;
            "{at}: name: '{name}' is there, and cancelled; it was added with other data"
        )?));
    };
    let data = DataOf(&there);
    Ok(Some(format!(in alloc; "{at}: {name} is there with {data}")?))
}

// What a record has behind the name.
#[derive(Clone, Copy)]
struct DataOf<'a>(&'a FoundRecord);

impl fmt::Display for DataOf<'_> {
    fn fmt<W: fmt::Write>(&self, f: &mut fmt::Formatter<W>) -> fmt::Result {
        let record = self.0;
        let kind = Shown(record.field(TYPE));
        let class = Shown(record.field(2));
        write!(f, "{kind}, class {class}, ")?;
        let on = Shown(record.field(ON));
        let off = Shown(record.field(OFF));
        write!(f, "{on} to {off}, ")?;
        let arr = FlightOf(record, 5);
        let dep = FlightOf(record, 7);
        write!(f, "arrival {arr}, departure {dep}")
    }
}

// The flight in this column of a record, with its day in the next one.
#[derive(Clone, Copy)]
struct FlightOf<'a>(&'a FoundRecord, usize);

impl fmt::Display for FlightOf<'_> {
    fn fmt<W: fmt::Write>(&self, f: &mut fmt::Formatter<W>) -> fmt::Result {
        let flight = self.0.field(self.1);
        if flight.is_empty() {
            return f.write_str("none");
        }
        let day = Shown(self.0.field(self.1.saturating_add(1)));
        let flight = Shown(flight);
        write!(f, "{flight} on day {day}")
    }
}
