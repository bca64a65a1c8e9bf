// Airports that differ in what a test is about.
ghost use Rattle.std.specs.Prelude.{◌≡◌, IfOk, IsTrue};
ghost use Rattle.apron_dates.specs.Dates.{IsFirstDay};
ghost use Rattle.apron_rules.specs.Names.{is_station};

use apron_base::{Letter, Listed, Name};
use apron_rules::{Airport, AirportParts, Date, Frontage, StandRow, TypeRow};
use std::alloc::Global;
use std::test::Fail;

/// What the airport APR has before its frontages, stands and types: a plan of three days from 27
/// March 2026 on, 5 minutes of taxi-in, and 20 minutes for a tow.
pub fn empty_parts(alloc: Global) -> AirportParts
    ensures station { IsTrue (is_station result.station) }
    ensures first { IsFirstDay result.first }
    ensures days { result.days ≡ 3 }
{
    AirportParts {
        station: Name::literal(b"APR"),
        first: Date {
            year: 2026,
            month: 3,
            day: 27,
        },
        days: 3,
        taxi_in: 5,
        tow: 20,
        frontages: Listed::new(alloc),
        stands: Listed::new(alloc),
        pairs: Listed::new(alloc),
        types: Listed::new(alloc),
    }
}

/// The airport of these parts. `Err` if they make none, or memory has run out.
pub fn airport_of(alloc: Global, parts: AirportParts) -> Result<Airport, Fail>
    requires station { IsTrue (is_station parts.station) }
    requires first { IsFirstDay parts.first }
    ensures parts { IfOk result (λ airport. airport ≡ parts) }
{
    match Airport::new(alloc, parts) {
        Ok(airport) => Ok(airport),
        Err(_) => Err(Fail::new("an airport")),
    }
}

/// The airport APR with these stands, on the frontage N, and these types.
pub fn on_one_frontage(
    alloc: Global,
    stands: Vec<StandRow>,
    types: Vec<TypeRow>,
) -> Result<Airport, Fail>
    ensures stands { IfOk result (λ airport. airport.stands ≡ stands.items) }
    ensures types { IfOk result (λ airport. airport.types ≡ types.items) }
    ensures days { IfOk result (λ airport. airport.days ≡ 3) }
{
    let frontage = Frontage {
        name: Name::literal(b"N"),
        objects: Listed::new(alloc),
    };
    let frontages = Vec::from_array(alloc, [frontage])?;
    airport_of(
        alloc,
        AirportParts {
            frontages: Listed::from_vec(frontages),
            stands: Listed::from_vec(stands),
            types: Listed::from_vec(types),
            ..empty_parts(alloc)
        },
    )
}

/// A stand of letter C on the frontage N, with 10 minutes between two aircraft.
pub fn stand_on_n(name: Name, centre: u32) -> StandRow {
    StandRow {
        name,
        frontage: Name::literal(b"N"),
        centre,
        letter: Letter::C,
        buffer: 10,
        half_of: None,
    }
}

/// A type with the span of an A320 and 40 least minutes.
pub fn type_of_40(name: Name) -> TypeRow {
    TypeRow::without_folding(name, 3_580, 40)
}
