// The tables of an airport file: what each holds, or the first fault along its keys.
ghost use Rattle.std.specs.Prelude.{◌≡◌, ℕ, Result, IfOk, IsTrue};
ghost use Rattle.toml.specs.View.{view, table_view, array_view};
ghost use Rattle.apron_dates.specs.Dates.{IsFirstDay};
ghost use Rattle.apron_rules.specs.Names.{is_station};
ghost use Rattle.toml.specs.Data.{Data, get_member};
ghost use Rattle.airport_files.specs.declared.keys.WalkFault.{WalkFault};
ghost use Rattle.airport_files.specs.Walk.{ReadsRow, head_number, head_in, head_table, toml_numbers, numbers_at, frontage_name, frontage_objects, frontage_in, frontage_value, stand_row_name, stand_row_number, stand_letter, stand_half, stand_in, stand_value, pair_name, pair_letter, pair_in, pair_value};

use crate::forms::{
    date_at, find, letter_at, name_at, name_if_there, number, number_at, station_at,
};
use crate::keys::{FileKey, FrontageKey, HeadKey, PairKey, StandKey, WalkFault};
use apron_base::{Letter, Listed, Name};
use apron_dates::Date;
use apron_rules::{Frontage, PairRow, StandRow};
use std::alloc::Global;
use toml::value::Array;
use toml::{Table, Value};

/// The table `airport`.
#[derive(Clone, Copy, Debug)]
pub(crate) struct AirportTable {
    pub(crate) station: Name,
    pub(crate) first: Date,
    pub(crate) days: u32,
    pub(crate) taxi_in: u32,
    pub(crate) tow: u32,
}

/// The table `airport` of a document, or the first fault along its keys.
pub(crate) fn head_of(document: &Table) -> Result<AirportTable, WalkFault>
    ensures head { result ≡ head_table (table_view document.now) }
    ensures station { IfOk result (λ head. IsTrue (is_station head.station)) }
    ensures first { IfOk result (λ head. IsFirstDay head.first) }
{
    match find(document, "airport") {
        None => Err(WalkFault::Missing(FileKey::Airport)),
        Some(Value::Table(table)) => head_in(table),
        Some(_) => Err(WalkFault::Wrong(FileKey::Airport)),
    }
}

fn head_in(table: &Table) -> Result<AirportTable, WalkFault>
    ensures head { result ≡ head_in (table_view table.now) }
    ensures station { IfOk result (λ head. IsTrue (is_station head.station)) }
    ensures first { IfOk result (λ head. IsFirstDay head.first) }
{
    let station = station_at(
        table,
        HeadKey::Station.word(),
        FileKey::Head(HeadKey::Station),
    )?;
    let first = date_at(
        table,
        HeadKey::FirstDay.word(),
        FileKey::Head(HeadKey::FirstDay),
    )?;
    let days = head_number(table, HeadKey::Days)?;
    let taxi_in = head_number(table, HeadKey::TaxiIn)?;
    let tow = head_number(table, HeadKey::Tow)?;
    Ok(AirportTable {
        station,
        first,
        days,
        taxi_in,
        tow,
    })
}

fn head_number(table: &Table, key: HeadKey) -> Result<u32, WalkFault>
    ensures value { result ≡ head_number (table_view table.now) key }
{
    number_at(table, key.word(), FileKey::Head(key))
}

/// A row of an array of the file.
pub(crate) trait Row: Drop + Sized {
    // What the k-th row says, or its first fault.
    ghost read_of: { ℕ → Data → Result Self WalkFault };

    /// Reads the k-th row, counted from 1.
    fn read(alloc: Global, value: &Value, k: usize) -> Result<Self, WalkFault>
        ensures value { ReadsRow result (read_of k (view value.now)) };
}

impl Row for Frontage {
    ghost read_of = { frontage_value };

    fn read(alloc: Global, value: &Value, k: usize) -> Result<Frontage, WalkFault> {
        match value {
            Value::Table(table) => frontage_in(alloc, table, k),
            _ => Err(WalkFault::Wrong(FileKey::Frontages)),
        }
    }
}

fn frontage_in(alloc: Global, table: &Table, k: usize) -> Result<Frontage, WalkFault>
    ensures value { ReadsRow result (frontage_in k (table_view table.now)) }
{
    let name = frontage_name(table, k)?;
    let objects = frontage_objects(alloc, table, k)?;
    Ok(Frontage { name, objects })
}

fn frontage_name(table: &Table, k: usize) -> Result<Name, WalkFault>
    ensures value { result ≡ frontage_name k (table_view table.now) }
{
    let at = FileKey::Frontage(k, FrontageKey::Name);
    name_at(table, FrontageKey::Name.word(), at)
}

fn frontage_objects(alloc: Global, table: &Table, k: usize) -> Result<Listed<u32>, WalkFault>
    ensures value { ReadsRow result (frontage_objects k (table_view table.now)) }
{
    let at = FileKey::Frontage(k, FrontageKey::Objects);
    numbers_at(alloc, table, FrontageKey::Objects.word(), at)
}

fn numbers_at(
    alloc: Global,
    table: &Table,
    word: &str,
    at: FileKey,
) -> Result<Listed<u32>, WalkFault>
    ensures value { ReadsRow result (numbers_at at (get_member word.now (table_view table.now))) }
{
    match find(table, word) {
        None => Err(WalkFault::Missing(at)),
        Some(Value::Array(array)) => numbers_from(alloc, array, at),
        Some(_) => Err(WalkFault::Wrong(at)),
    }
}

fn numbers_from(alloc: Global, array: &Array, at: FileKey) -> Result<Listed<u32>, WalkFault>
    ensures value { ReadsRow result (toml_numbers at (array_view array.now)) }
{
    let mut numbers = Listed::new(alloc);
    for value in array {
        let Some(n) = number(value) else {
            return Err(WalkFault::Wrong(at));
        };
        if numbers.push(n).is_err() {
            return Err(WalkFault::Memory);
        }
    }
    Ok(numbers)
}

impl Row for StandRow {
    ghost read_of = { stand_value };

    fn read(_alloc: Global, value: &Value, k: usize) -> Result<StandRow, WalkFault> {
        match value {
            Value::Table(table) => stand_in(table, k),
            _ => Err(WalkFault::Wrong(FileKey::Stands)),
        }
    }
}

fn stand_in(table: &Table, k: usize) -> Result<StandRow, WalkFault>
    ensures value { result ≡ stand_in k (table_view table.now) }
{
    let name = stand_row_name(table, k, StandKey::Name)?;
    let frontage = stand_row_name(table, k, StandKey::Frontage)?;
    let centre = stand_row_number(table, k, StandKey::Centre)?;
    let letter = stand_letter(table, k)?;
    let buffer = stand_row_number(table, k, StandKey::Buffer)?;
    let half_of = stand_half(table, k)?;
    Ok(StandRow {
        name,
        frontage,
        centre,
        letter,
        buffer,
        half_of,
    })
}

fn stand_row_name(table: &Table, k: usize, key: StandKey) -> Result<Name, WalkFault>
    ensures value { result ≡ stand_row_name k (table_view table.now) key }
{
    name_at(table, key.word(), FileKey::Stand(k, key))
}

fn stand_row_number(table: &Table, k: usize, key: StandKey) -> Result<u32, WalkFault>
    ensures value { result ≡ stand_row_number k (table_view table.now) key }
{
    number_at(table, key.word(), FileKey::Stand(k, key))
}

fn stand_letter(table: &Table, k: usize) -> Result<Letter, WalkFault>
    ensures value { result ≡ stand_letter k (table_view table.now) }
{
    letter_at(
        table,
        StandKey::Letter.word(),
        FileKey::Stand(k, StandKey::Letter),
    )
}

fn stand_half(table: &Table, k: usize) -> Result<Option<Name>, WalkFault>
    ensures value { result ≡ stand_half k (table_view table.now) }
{
    name_if_there(
        table,
        StandKey::HalfOf.word(),
        FileKey::Stand(k, StandKey::HalfOf),
    )
}

impl Row for PairRow {
    ghost read_of = { pair_value };

    fn read(_alloc: Global, value: &Value, k: usize) -> Result<PairRow, WalkFault> {
        match value {
            Value::Table(table) => pair_in(table, k),
            _ => Err(WalkFault::Wrong(FileKey::Pairs)),
        }
    }
}

fn pair_in(table: &Table, k: usize) -> Result<PairRow, WalkFault>
    ensures value { result ≡ pair_in k (table_view table.now) }
{
    let a = pair_name(table, k, PairKey::A)?;
    let la = pair_letter(table, k, PairKey::La)?;
    let b = pair_name(table, k, PairKey::B)?;
    let lb = pair_letter(table, k, PairKey::Lb)?;
    Ok(PairRow { a, la, b, lb })
}

fn pair_name(table: &Table, k: usize, key: PairKey) -> Result<Name, WalkFault>
    ensures value { result ≡ pair_name k (table_view table.now) key }
{
    name_at(table, key.word(), FileKey::Pair(k, key))
}

fn pair_letter(table: &Table, k: usize, key: PairKey) -> Result<Letter, WalkFault>
    ensures value { result ≡ pair_letter k (table_view table.now) key }
{
    letter_at(table, key.word(), FileKey::Pair(k, key))
}
