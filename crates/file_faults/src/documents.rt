// The rows of an airport file that are meant by a fault of the airport.

use toml::{Table, Value};

/// The rows of the array of a document; none if there is no such array.
pub(crate) fn rows_of<'a>(document: &'a Table, section: &str) -> &'a [Value] {
    match document.get(section) {
        Some(Value::Array(rows)) => rows.as_slice(),
        _ => &[],
    }
}

/// The text at a key of a row.
pub(crate) fn text_at<'a>(row: &'a Value, word: &str) -> Option<&'a str> {
    row.as_table()?.get(word)?.as_str()
}

/// The first row, from 1, that has this text at the key; the one after it if `skipped` is 1.
pub(crate) fn row_with(rows: &[Value], word: &str, text: &str, skipped: u64) -> Option<u64> {
    let mut left = skipped;
    for (i, row) in rows.iter().enumerate() {
        if text_at(row, word) == Some(text) {
            if left == 0 {
                return Some(i as u64 + 1);
            }
            left -= 1;
        }
    }
    None
}

/// The first row, from 1, whose number at the key is greater than this one.
pub(crate) fn row_over(rows: &[Value], word: &str, most: i64) -> Option<u64> {
    for (i, row) in rows.iter().enumerate() {
        if let Some(table) = row.as_table()
            && let Some(number) = table.get(word)
            && is_over(number, most)
        {
            return Some(i as u64 + 1);
        }
    }
    None
}

fn is_over(number: &Value, most: i64) -> bool {
    match number {
        Value::Integer(number) => *number > most,
        _ => false,
    }
}

/// The first frontage, from 1, with more objects than may be, or one whose place is too far.
pub(crate) fn row_of_objects(rows: &[Value], most: usize, farthest: i64) -> Option<u64> {
    for (i, row) in rows.iter().enumerate() {
        if let Some(table) = row.as_table()
            && are_over(rows_of(table, "objects"), most, farthest)
        {
            return Some(i as u64 + 1);
        }
    }
    None
}

fn are_over(objects: &[Value], most: usize, farthest: i64) -> bool {
    for object in objects {
        if is_over(object, farthest) {
            return true;
        }
    }
    objects.len() > most
}
