// The form of a record of a type file.
ghost use Rattle.std.specs.Prelude.{◌≡◌};
ghost use Rattle.csv.specs.Records.{fields_of};
ghost use Rattle.airport_files.specs.TypeRows.{columns_of, folding_row, has_folding_columns, has_plain_columns, is_field, name_in, number_in, plain_row, row_of};

use crate::forms::{MAX_TYPE_NAME, MIN_TYPE_NAME, short_name};
use crate::numbers::number;
use apron_base::Name;
use apron_rules::TypeRow;
use csv::ByteRecord;

/// The columns of a type file.
#[derive(Clone, Copy, PartialEq, Eq, Debug)]
pub(crate) enum Columns {
    /// `type,span,least`: the wing tips don't fold.
    Plain,
    /// `type,span,least,parked,fold`.
    Folding,
}

/// The columns that a record names, if it is a header.
pub(crate) fn columns_of(row: &ByteRecord) -> Option<Columns>
    ensures is { result ≡ columns_of (fields_of row.now) }
{
    if !has_plain_columns(row) {
        None
    } else if row.len() == 3 {
        Some(Columns::Plain)
    } else if row.len() == 5 && has_folding_columns(row) {
        Some(Columns::Folding)
    } else {
        None
    }
}

fn has_plain_columns(row: &ByteRecord) -> bool
    ensures is { result ≡ has_plain_columns (fields_of row.now) }
{
    is_field(row, 0, b"type") && is_field(row, 1, b"span") && is_field(row, 2, b"least")
}

fn has_folding_columns(row: &ByteRecord) -> bool
    ensures is { result ≡ has_folding_columns (fields_of row.now) }
{
    is_field(row, 3, b"parked") && is_field(row, 4, b"fold")
}

fn is_field(row: &ByteRecord, i: usize, word: &[u8]) -> bool
    ensures is { result ≡ is_field (fields_of row.now) i word.now }
{
    match row.get(i) {
        Some(field) => field == word,
        None => false,
    }
}

/// The type of a record, if the record has the form of these columns.
pub(crate) fn row_of(columns: Columns, row: &ByteRecord) -> Option<TypeRow>
    ensures value { result ≡ row_of columns (fields_of row.now) }
{
    match columns {
        Columns::Plain if row.len() == 3 => plain_row(row),
        Columns::Folding if row.len() == 5 => folding_row(row),
        _ => None,
    }
}

fn plain_row(row: &ByteRecord) -> Option<TypeRow>
    ensures value { result ≡ plain_row (fields_of row.now) }
{
    let name = name_in(row, 0)?;
    let span = number_in(row, 1)?;
    let least = number_in(row, 2)?;
    Some(TypeRow::without_folding(name, span, least))
}

fn folding_row(row: &ByteRecord) -> Option<TypeRow>
    ensures value { result ≡ folding_row (fields_of row.now) }
{
    let plain = plain_row(row)?;
    let parked = number_in(row, 3)?;
    let fold = number_in(row, 4)?;
    Some(TypeRow {
        parked,
        fold,
        ..plain
    })
}

fn name_in(row: &ByteRecord, i: usize) -> Option<Name>
    ensures value { result ≡ name_in (fields_of row.now) i }
{
    match row.get(i) {
        Some(field) => short_name(field, MIN_TYPE_NAME, MAX_TYPE_NAME),
        None => None,
    }
}

fn number_in(row: &ByteRecord, i: usize) -> Option<u32>
    ensures value { result ≡ number_in (fields_of row.now) i }
{
    match row.get(i) {
        Some(field) => number(field),
        None => None,
    }
}
