// An airport from the bytes of its two files.
ghost use Rattle.std.specs.Prelude.{◌≡◌, ◌⊎◌, ◌<◌, ◌^◌, IfOk, IsTrue, length};
ghost use Rattle.apron_dates.specs.Dates.{IsFirstDay};
ghost use Rattle.apron_rules.specs.Names.{is_station};
ghost use Rattle.airport_files.specs.Walk.{layout_of};
ghost use Rattle.airport_files.specs.Named.{IsNamed, airport_parts, named, layout_in};
ghost use Rattle.airport_files.specs.Meaning.{Means, types_in, airport_of_parts, meaning};
ghost use Rattle.toml.specs.View.{table_view};

use crate::keys::{WalkFault, key_text};
use crate::layout::{Layout, layout_of};
use crate::text::{TextFault, table_of};
use crate::types::{TableFault, read_table};
use apron_base::Listed;
use apron_rules::{Airport, AirportFault, AirportParts, TypeRow};
use std::alloc::Global;
use toml::Table;

/// Why two files are no airport: the first fault in this order.
#[derive(Debug, Drop)]
pub enum FileFault {
    /// The airport file is not TOML, or not UTF-8.
    NotToml,
    /// A key of the airport file is missing: the first such along the keys, unless a wrong one
    /// comes before it. The text names the key, as `airport.tow` or `stand 3.letter`.
    MissingKey(Listed<u8>),
    /// A key of the airport file has a value of another form.
    WrongKind(Listed<u8>),
    /// The header of the type file is missing, or a record has another form: the first such record,
    /// counted from 1.
    BadRow(u32),
    /// The files were read, but make no airport.
    Airport(AirportFault),
    /// There is no memory.
    Memory,
}

/// The airport of an airport file, which is TOML, and of a type file, which is CSV. `Err` gives the
/// first fault: of the TOML first, then along the keys, then of the records of the type file, then
/// of the airport that they make; or it says that there is no memory.
pub fn read_airport(alloc: Global, airport: &[u8], types: &[u8]) -> Result<Airport, FileFault>
    requires few { length types.now < 2 ^ 31 }
    ensures value { Means result (meaning airport.now types.now) }
{
    let layout = layout_in(alloc, airport)?;
    let rows = types_in(alloc, types)?;
    airport_of_parts(alloc, airport_parts(layout, rows))
}

fn layout_in(alloc: Global, airport: &[u8]) -> Result<Layout, FileFault>
    ensures layout { Means result (layout_in airport.now) }
    ensures station { IfOk result (λ layout. IsTrue (is_station layout.head.station)) }
    ensures first { IfOk result (λ layout. IsFirstDay layout.head.first) }
{
    match table_of(alloc, airport) {
        Ok(table) => layout_from(alloc, &table),
        Err(TextFault::NotToml) => Err(FileFault::NotToml),
        Err(TextFault::Memory) => Err(FileFault::Memory),
    }
}

fn layout_from(alloc: Global, table: &Table) -> Result<Layout, FileFault>
    ensures layout { Means result (named (layout_of (table_view table.now))) }
    ensures station { IfOk result (λ layout. IsTrue (is_station layout.head.station)) }
    ensures first { IfOk result (λ layout. IsFirstDay layout.head.first) }
{
    match layout_of(alloc, table) {
        Ok(layout) => Ok(layout),
        Err(fault) => Err(file_fault(alloc, fault)),
    }
}

// The fault with the text of its key.
fn file_fault(alloc: Global, fault: WalkFault) -> FileFault
    ensures named { IsNamed fault result }
{
    match fault {
        WalkFault::Missing(key) => match key_text(alloc, key) {
            Ok(text) => FileFault::MissingKey(text),
            Err(_) => FileFault::Memory,
        },
        WalkFault::Wrong(key) => match key_text(alloc, key) {
            Ok(text) => FileFault::WrongKind(text),
            Err(_) => FileFault::Memory,
        },
        WalkFault::Memory => FileFault::Memory,
    }
}

fn types_in(alloc: Global, types: &[u8]) -> Result<Listed<TypeRow>, FileFault>
    requires few { length types.now < 2 ^ 31 }
    ensures value { Means result (types_in types.now) }
{
    match read_table(alloc, types) {
        Ok(rows) => Ok(rows),
        Err(TableFault::BadRow(k)) => Err(FileFault::BadRow(k)),
        Err(TableFault::Memory) => Err(FileFault::Memory),
    }
}

fn airport_parts(layout: Layout, types: Listed<TypeRow>) -> AirportParts
    ensures value { result ≡ airport_parts layout types }
{
    let Layout {
        head,
        frontages,
        stands,
        pairs,
    } = layout;
    AirportParts {
        station: head.station,
        first: head.first,
        days: head.days,
        taxi_in: head.taxi_in,
        tow: head.tow,
        frontages,
        stands,
        pairs,
        types,
    }
}

fn airport_of_parts(alloc: Global, parts: AirportParts) -> Result<Airport, FileFault>
    requires station { IsTrue (is_station parts.station) }
    requires first { IsFirstDay parts.first }
    ensures value { Means result (airport_of_parts parts) }
{
    match Airport::new(alloc, parts) {
        Ok(airport) => Ok(airport),
        Err(fault) => Err(airport_refused(fault)),
    }
}

fn airport_refused(fault: AirportFault) -> FileFault
    ensures memory { fault ≡ AirportFault.Memory → result ≡ FileFault.Memory }
    ensures named { (result ≡ FileFault.Memory) ⊎ (result ≡ FileFault.Airport fault) }
{
    match fault {
        AirportFault::Memory => FileFault::Memory,
        fault => FileFault::Airport(fault),
    }
}
