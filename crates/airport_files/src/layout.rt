// All that an airport file says, or the first fault along its keys.
ghost use Rattle.std.specs.Prelude.{◌≡◌, IfOk, IsTrue};
ghost use Rattle.std.specs.List.{list_all};
ghost use Rattle.toml.specs.Data.{get_member};
ghost use Rattle.toml.specs.View.{view, table_view, array_view};
ghost use Rattle.apron_dates.specs.Dates.{IsFirstDay};
ghost use Rattle.apron_rules.specs.Names.{is_station};
ghost use Rattle.airport_files.specs.Walk.{ReadsRow, is_table, are_tables, walk_rows_from, frontages_of, stands_of, pairs_of, layout_of, rows_value};

use crate::forms::find;
use crate::keys::{FileKey, WalkFault};
use crate::rows::{AirportTable, Row, head_of};
use apron_base::Listed;
use apron_rules::{Frontage, PairRow, StandRow};
use std::alloc::Global;
use toml::value::Array;
use toml::{Table, Value};

/// The airport without its types.
#[derive(Debug, Drop)]
pub(crate) struct Layout {
    pub(crate) head: AirportTable,
    pub(crate) frontages: Listed<Frontage>,
    pub(crate) stands: Listed<StandRow>,
    pub(crate) pairs: Listed<PairRow>,
}

/// What a document says, or the first fault along its keys, or a lack of memory.
pub(crate) fn layout_of(alloc: Global, document: &Table) -> Result<Layout, WalkFault>
    ensures layout { ReadsRow result (layout_of (table_view document.now)) }
    ensures station { IfOk result (λ layout. IsTrue (is_station layout.head.station)) }
    ensures first { IfOk result (λ layout. IsFirstDay layout.head.first) }
{
    let head = head_of(document)?;
    let frontages = frontages_of(alloc, document)?;
    let stands = stands_of(alloc, document)?;
    let pairs = pairs_of(alloc, document)?;
    Ok(Layout {
        head,
        frontages,
        stands,
        pairs,
    })
}

fn frontages_of(alloc: Global, document: &Table) -> Result<Listed<Frontage>, WalkFault>
    ensures value { ReadsRow result (frontages_of (table_view document.now)) }
{
    rows_at(alloc, document, "frontage", FileKey::Frontages)
}

fn stands_of(alloc: Global, document: &Table) -> Result<Listed<StandRow>, WalkFault>
    ensures value { ReadsRow result (stands_of (table_view document.now)) }
{
    rows_at(alloc, document, "stand", FileKey::Stands)
}

fn pairs_of(alloc: Global, document: &Table) -> Result<Listed<PairRow>, WalkFault>
    ensures value { ReadsRow result (pairs_of (table_view document.now)) }
{
    rows_at(alloc, document, "pair", FileKey::Pairs)
}

// The rows of the array at a key; none if the key is missing.
fn rows_at<T: Row>(
    alloc: Global,
    document: &Table,
    word: &str,
    at: FileKey,
) -> Result<Listed<T>, WalkFault>
    ensures value { ReadsRow result
        (rows_value T.read_of at (get_member word.now (table_view document.now))) }
{
    match find(document, word) {
        None => Ok(Listed::new(alloc)),
        Some(Value::Array(array)) if are_tables(array) => rows_from(alloc, array),
        Some(_) => Err(WalkFault::Wrong(at)),
    }
}

fn rows_from<T: Row>(alloc: Global, array: &Array) -> Result<Listed<T>, WalkFault>
    ensures value { ReadsRow result (walk_rows_from T.read_of 1 (array_view array.now)) }
{
    let mut rows = Listed::new(alloc);
    for (i, value) in array.iter().enumerate() {
        let row = T::read(alloc, value, i + 1)?;
        if rows.push(row).is_err() {
            return Err(WalkFault::Memory);
        }
    }
    Ok(rows)
}

fn are_tables(array: &Array) -> bool
    ensures is { result ≡ are_tables (array_view array.now) }
{
    all_are_tables(array.as_slice())
}

fn all_are_tables(values: &[Value]) -> bool
    ensures is { result ≡ list_all (λ v. is_table (view v)) values.now }
{
    values.iter().all(|v| v.is_table())
}
