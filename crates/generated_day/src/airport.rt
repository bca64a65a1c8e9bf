// The airport of a generated day.
ghost use Rattle.std.specs.Prelude.{◌≡◌, ◌≤◌, IfOk};
ghost use Rattle.generated_day.specs.DayAirport.{day_airport, day_stand, day_stands, day_types};

use apron_base::{Letter, Listed, Memory, Name};
use apron_rules::{Airport, AirportFault, AirportParts, Date, Frontage, StandRow, TypeRow};
use std::alloc::Global;

/// How many stands there are.
pub(crate) const STANDS: u32 = 60;

/// The airport of a generated day.
pub(crate) fn day_airport(alloc: Global) -> Result<Airport, Memory>
    ensures is { IfOk result (λ airport. airport ≡ day_airport) }
{
    match Airport::new(alloc, day_parts(alloc)?) {
        Ok(airport) => Ok(airport),
        Err(fault) => Err(memory_of(fault)),
    }
}

// Why making this airport can fail.
fn memory_of(fault: AirportFault) -> Memory
    requires memory { fault ≡ AirportFault.Memory }
{
    match fault {
        AirportFault::Memory => Memory,
        _ => unreachable!(),
    }
}

#[tactic(auto, unfolding(crate::specs::DayAirport::day_airport))]
fn day_parts(alloc: Global) -> Result<AirportParts, Memory>
    ensures is { IfOk result (λ parts. parts ≡ day_airport) }
{
    let frontage = Frontage {
        name: Name::literal(b"G"),
        objects: Listed::new(alloc),
    };
    let frontages = Vec::from_array(alloc, [frontage])?;
    let stands = day_stands(alloc)?;
    let types = day_types(alloc)?;
    Ok(AirportParts {
        station: Name::literal(b"APR"),
        first: Date {
            year: 2026,
            month: 3,
            day: 27,
        },
        days: 2,
        taxi_in: 5,
        tow: 20,
        frontages: Listed::from_vec(frontages),
        stands,
        pairs: Listed::new(alloc),
        types,
    })
}

fn day_stands(alloc: Global) -> Result<Listed<StandRow>, Memory>
    ensures are { IfOk result (λ stands. stands ≡ day_stands) }
{
    let mut stands = Listed::new(alloc);
    for place in 0..STANDS {
        let stand = day_stand(place + 1);
        // This names the type of a field of what is pushed; the proof of the push needs it.
        let _named: Option<Name> = stand.half_of;
        stands.push(stand)?;
    }
    Ok(stands)
}

fn day_stand(number: u32) -> StandRow
    requires some { 1 ≤ number }
    requires few { number ≤ STANDS }
    ensures is { result ≡ day_stand number }
{
    let tens = b'0' + (number / 10) as u8;
    let ones = b'0' + (number % 10) as u8;
    StandRow {
        name: Name::literal(&[b'G', tens, ones]),
        frontage: Name::literal(b"G"),
        centre: 4_100 * number,
        letter: Letter::E,
        buffer: 10,
        half_of: None,
    }
}

fn day_types(alloc: Global) -> Result<Listed<TypeRow>, Memory>
    ensures are { IfOk result (λ types. types ≡ day_types) }
{
    let types = [
        TypeRow::without_folding(Name::literal(b"A320"), 3_580, 40),
        TypeRow::without_folding(Name::literal(b"B738"), 3_579, 40),
        TypeRow::without_folding(Name::literal(b"B77W"), 6_480, 60),
        TypeRow::without_folding(Name::literal(b"AT76"), 2_705, 25),
        TypeRow::without_folding(Name::literal(b"B190"), 1_767, 20),
        TypeRow::without_folding(Name::literal(b"A388"), 7_975, 90),
        TypeRow::without_folding(Name::literal(b"X360"), 3_600, 40),
    ];
    let types = Vec::from_array(alloc, types)?;
    Ok(Listed::from_vec(types))
}
