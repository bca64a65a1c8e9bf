// The columns of type files and season files, and what a field has to be.

use crate::complaint::{Complaint, FileLine, Wanted, Wrong};
use crate::records::FoundRecord;
use apron_base::{Memory, number_of};
use std::alloc::Global;

/// A column: its place, from 0, its name, and what a field there has to be.
#[derive(Clone, Copy)]
pub(crate) struct Column {
    pub(crate) place: usize,
    pub(crate) name: &'static str,
    pub(crate) wanted: Wanted,
}

/// What is wrong with the field of a record in this column.
pub(crate) fn wrong_field(
    alloc: Global,
    file: &str,
    record: &FoundRecord,
    column: Column,
) -> Result<Complaint, Memory> {
    let wrong = Wrong::Value(record.field(column.place), column.wanted);
    told_of_field(alloc, file, record, column, wrong)
}

/// What is said of the field of a record in this column.
pub(crate) fn said_of_field(
    alloc: Global,
    file: &str,
    record: &FoundRecord,
    column: Column,
    what: &'static str,
) -> Result<Complaint, Memory> {
    let wrong = Wrong::Says(record.field(column.place), what);
    told_of_field(alloc, file, record, column, wrong)
}

fn told_of_field(
    alloc: Global,
    file: &str,
    record: &FoundRecord,
    column: Column,
    wrong: Wrong<'_>,
) -> Result<Complaint, Memory> {
    let at = FileLine {
        file,
        line: record.line,
    };
    let name = column.name;
    Ok(Some(format!(in alloc; "{at}: {name}: {wrong}")?))
}

/// That a record has another number of fields than the header asks for.
pub(crate) fn wrong_count(
    alloc: Global,
    file: &str,
    record: &FoundRecord,
    wanted: usize,
) -> Result<Complaint, Memory> {
    let at = FileLine {
        file,
        line: record.line,
    };
    let count = record.row.len();
    Ok(Some(format!(in alloc; "{at}: the record has {count} fields, and has to have {wanted}")?))
}

/// That the first record is missing, or is not this header.
pub(crate) fn wrong_header(
    alloc: Global,
    file: &str,
    record: Option<FoundRecord>,
    header: &'static str,
) -> Result<Complaint, Memory> {
    let line = match record {
        Some(record) => record.line,
        None => 1,
    };
    let at = FileLine { file, line };
    Ok(Some(format!(in alloc; "{at}: the first record is not {header}")?))
}

/// The most digits of a number.
const MAX_NUMBER_DIGITS: usize = 9;

/// The number that a field is, of 1 to 9 digits.
pub(crate) fn number(field: &[u8]) -> Option<u32> {
    match number_of(field, MAX_NUMBER_DIGITS) {
        Some(number) => Some(number as u32),
        None => None,
    }
}

/// Whether a field is a number from the first to the last one.
pub(crate) fn is_within(field: &[u8], first: u32, last: u32) -> bool {
    number(field).is_some_and(|number| number >= first && number <= last)
}

/// Whether a field has so many bytes, all of them capitals or digits.
pub(crate) fn is_short_name(field: &[u8], least: usize, most: usize) -> bool {
    field.len() >= least
        && field.len() <= most
        && field
            .iter()
            .all(|byte| byte.is_ascii_uppercase() || byte.is_ascii_digit())
}
