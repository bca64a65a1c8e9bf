// What is wrong in a type file.

use crate::columns::{
    Column, is_short_name, is_within, number, said_of_field, wrong_count, wrong_field, wrong_header,
};
use crate::complaint::{Complaint, Wanted};
use crate::records::{FoundRecord, record_at, record_named};
use airport_files::FileFault;
use apron_base::Memory;
use apron_rules::{AirportFault, Limit, MAX_FOLD, MAX_LEAST, MAX_TYPES};
use std::alloc::Global;

const HEADERS: &str = "type,span,least or type,span,least,parked,fold";

const NAME: Column = Column {
    place: 0,
    name: "type",
    wanted: Wanted::Form("a name of 2 to 4 capitals or digits"),
};

// The greatest wing span in centimetres that has a code letter.
const MAX_SPAN: u32 = 7_999;

const SPAN: Column = Column {
    place: 1,
    name: "span",
    wanted: Wanted::Number("a number of centimetres", 1, MAX_SPAN),
};

const LEAST: Column = Column {
    place: 2,
    name: "least",
    wanted: Wanted::Number("a number of minutes", 1, MAX_LEAST),
};

const PARKED: Column = Column {
    place: 3,
    name: "parked",
    wanted: Wanted::Form("a number of centimetres from 1 to the span"),
};

const FOLD: Column = Column {
    place: 4,
    name: "fold",
    wanted: Wanted::Number("a number of minutes", 0, MAX_FOLD),
};

/// What is wrong in the type file of this name and text, which has this fault. `None` if the fault
/// is not in it.
pub fn types_fault(
    alloc: Global,
    file: &str,
    text: &[u8],
    fault: &FileFault,
) -> Result<Complaint, Memory> {
    match fault {
        FileFault::BadRow(number) => bad_row(alloc, file, text, u64::from(*number)),
        FileFault::Airport(fault) => of_airport(alloc, file, text, fault),
        _ => Ok(None),
    }
}

// What is wrong with the record of this number.
fn bad_row(alloc: Global, file: &str, text: &[u8], number: u64) -> Result<Complaint, Memory> {
    let found = record_at(alloc, text, number)?;
    if number == 1 {
        return wrong_header(alloc, file, found, HEADERS);
    }
    let Some(header) = record_at(alloc, text, 1)? else {
        return Ok(None);
    };
    let Some(record) = found else {
        return Ok(None);
    };
    let count = header.row.len();
    if record.row.len() != count {
        return wrong_count(alloc, file, &record, count);
    }
    match wrong_column(&record) {
        Some(column) => wrong_field(alloc, file, &record, column),
        None => Ok(None),
    }
}

// The first column whose field has a wrong form.
fn wrong_column(record: &FoundRecord) -> Option<Column> {
    if !is_short_name(record.field(0), 2, 4) {
        return Some(NAME);
    }
    for column in [SPAN, LEAST, PARKED, FOLD] {
        if column.place < record.row.len() && number(record.field(column.place)).is_none() {
            return Some(column);
        }
    }
    None
}

// What is wrong with the types of an airport.
fn of_airport(
    alloc: Global,
    file: &str,
    text: &[u8],
    fault: &AirportFault,
) -> Result<Complaint, Memory> {
    match fault {
        AirportFault::DuplicateName(name) => match record_named(alloc, text, name.bytes(), 1)? {
            Some(record) => said_of_field(
                alloc,
                file,
                &record,
                NAME,
                "is the name of an earlier one",
            ),
            None => Ok(None),
        },
        AirportFault::BadSpan(name) => of_type(alloc, file, text, name.bytes(), SPAN),
        AirportFault::BadFold(name) => match record_named(alloc, text, name.bytes(), 0)? {
            Some(record) => wrong_field(alloc, file, &record, wrong_fold(&record)),
            None => Ok(None),
        },
        AirportFault::LimitPassed(Limit::Types) => Ok(Some(format!(in alloc;
            "{file}: there are no types, or more than {MAX_TYPES}"
        )?)),
        AirportFault::LimitPassed(Limit::Least) => least_over(alloc, file, text),
        _ => Ok(None),
    }
}

fn of_type(
    alloc: Global,
    file: &str,
    text: &[u8],
    name: &[u8],
    column: Column,
) -> Result<Complaint, Memory> {
    match record_named(alloc, text, name, 0)? {
        Some(record) => wrong_field(alloc, file, &record, column),
        None => Ok(None),
    }
}

// The column that makes the folding of a type wrong.
fn wrong_fold(record: &FoundRecord) -> Column {
    if is_within(record.field(FOLD.place), 0, MAX_FOLD) {
        PARKED
    } else {
        FOLD
    }
}

// The first type whose least minutes are out of their range.
fn least_over(alloc: Global, file: &str, text: &[u8]) -> Result<Complaint, Memory> {
    for number in 2..=MAX_TYPES as u64 + 1 {
        let Some(record) = record_at(alloc, text, number)? else {
            return Ok(None);
        };
        if !is_within(record.field(LEAST.place), 1, MAX_LEAST) {
            return wrong_field(alloc, file, &record, LEAST);
        }
    }
    Ok(None)
}
