// The records of a type file or a season file, with their lines.

use apron_base::Memory;
use csv::ByteRecord;
use csv_records::{read_row, start};
use std::alloc::Global;

/// A record, and the line on which it begins, from 1.
#[derive(Drop)]
pub(crate) struct FoundRecord {
    pub(crate) row: ByteRecord,
    pub(crate) line: u64,
}

impl FoundRecord {
    /// The field in this column, from 0; empty if the record has fewer.
    pub(crate) fn field(&self, column: usize) -> &[u8] {
        self.row.get(column).unwrap_or(b"")
    }
}

/// The record of this number, from 1; `None` if there are fewer.
pub(crate) fn record_at(
    alloc: Global,
    text: &[u8],
    number: u64,
) -> Result<Option<FoundRecord>, Memory> {
    let mut reader = start(alloc, text);
    let mut row = ByteRecord::new(alloc);
    for _ in 0..number {
        if !read_row(&mut reader, &mut row)? {
            return Ok(None);
        }
    }
    Ok(Some(found(text, row)))
}

fn found(text: &[u8], row: ByteRecord) -> FoundRecord {
    let line = line_of(text, &row);
    FoundRecord { row, line }
}

/// The first record after the header whose first field is this name; the one after it if `skipped`
/// is 1.
pub(crate) fn record_named(
    alloc: Global,
    text: &[u8],
    name: &[u8],
    skipped: u64,
) -> Result<Option<FoundRecord>, Memory> {
    let mut reader = start(alloc, text);
    let mut row = ByteRecord::new(alloc);
    let mut seen = 0u64;
    let mut is_header = true;
    for _ in 0..text.len() {
        if !read_row(&mut reader, &mut row)? {
            return Ok(None);
        }
        if !is_header && is_named(&row, name) {
            seen = seen.saturating_add(1);
        }
        if seen > skipped {
            return Ok(Some(found(text, row)));
        }
        is_header = false;
    }
    Ok(None)
}

fn is_named(row: &ByteRecord, name: &[u8]) -> bool {
    row.get(0).unwrap_or(b"") == name
}

// The line on which the record begins, past empty lines before it.
fn line_of(text: &[u8], row: &ByteRecord) -> u64 {
    let Some(position) = row.position() else {
        return 0;
    };
    let at = usize::try_from(position.byte).unwrap_or(usize::MAX);
    let mut line = position.line;
    for byte in text.get(at..).unwrap_or(b"") {
        match byte {
            b'\n' => line = line.saturating_add(1),
            b'\r' => {}
            _ => return line,
        }
    }
    line
}
