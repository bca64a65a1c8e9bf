// Which dates a season file is read as.

use crate::columns::number;
use apron_base::Memory;
use apron_dates::plan_date;
use apron_rules::Airport;
use csv::ByteRecord;
use csv_records::{read_row, start};
use std::alloc::Global;
use std::fmt;

/// The dates from the first visit of a season file to its last one, at an airport, as `4 to 10 July
/// 2026`, or `4 July 2026`. `None` if it has no visit.
pub fn dates_of_season(
    alloc: Global,
    airport: &Airport,
    text: &[u8],
) -> Result<Option<String>, Memory> {
    let Some((first, last)) = days_in(alloc, text)? else {
        return Ok(None);
    };
    let first = day_at(airport, first);
    let last = day_at(airport, last);
    if first == last {
        return Ok(Some(format!(in alloc; "{last}")?));
    }
    if first.month == last.month && first.year == last.year {
        let day = first.day;
        return Ok(Some(format!(in alloc; "{day} to {last}")?));
    }
    Ok(Some(format!(in alloc; "{first} to {last}")?))
}

// A day of the calendar, and how it is written.
#[derive(Clone, Copy, PartialEq, Eq)]
struct CalendarDay {
    year: i16,
    month: i8,
    day: i8,
}

// The date of a day of the plan, from 0; that of its last day for a later one.
fn day_at(airport: &Airport, day: u32) -> CalendarDay {
    let parts = airport.parts();
    let date = plan_date(parts.first, day.saturating_add(1).min(parts.days));
    CalendarDay {
        year: date.year(),
        month: date.month(),
        day: date.day(),
    }
}

impl fmt::Display for CalendarDay {
    fn fmt<W: fmt::Write>(&self, f: &mut fmt::Formatter<W>) -> fmt::Result {
        let CalendarDay { year, month, day } = *self;
        let place = usize::try_from(month).unwrap_or(0);
        let month = MONTHS.get(place).copied().unwrap_or("");
        write!(f, "{day} {month} {year}")
    }
}

// The months by their numbers, of which the first is 1.
const MONTHS: [&str; 13] = [
    "",
    "January",
    "February",
    "March",
    "April",
    "May",
    "June",
    "July",
    "August",
    "September",
    "October",
    "November",
    "December",
];

// The first day of the plan and the last one, from 0, on which visits of a season file are.
fn days_in(alloc: Global, text: &[u8]) -> Result<Option<(u32, u32)>, Memory> {
    let mut reader = start(alloc, text);
    let mut row = ByteRecord::new(alloc);
    let mut days = None;
    for _ in 0..text.len() {
        if !read_row(&mut reader, &mut row)? {
            return Ok(days);
        }
        if let Some((on, off)) = minutes_in(&row) {
            let (first, last) = days.unwrap_or((u32::MAX, 0));
            let begun = on / DAY;
            let ended = off.saturating_sub(1) / DAY;
            days = Some((first.min(begun), last.max(ended)));
        }
    }
    Ok(days)
}

// The minutes of a day.
const DAY: u32 = 1_440;

// The minutes on block and off block of a record; none of the header.
fn minutes_in(row: &ByteRecord) -> Option<(u32, u32)> {
    let on = minute_in(row, 3)?;
    let off = minute_in(row, 4)?;
    Some((on, off))
}

fn minute_in(row: &ByteRecord, column: usize) -> Option<u32> {
    number(row.get(column).unwrap_or(b""))
}
