// Airports.
use super::{OK, airport, is_text};
use apron_base::{Letter, Listed, Name};
use apron_rules::{Airport, AirportParts, Date, Frontage, PairRow, StandRow, TypeRow};
use desk_words::replies::{Reply, ReplyBody};
use std::alloc::Global;
use std::test::Fail;
use test_airports::{airport_of, empty_parts, type_of_40};

// A frontage with two objects, and one without.
fn frontages(alloc: Global) -> Result<Listed<Frontage>, Fail> {
    let places = Vec::from_slice(alloc, &[1_200, 90_000])?;
    let north = Frontage {
        name: Name::literal(b"N"),
        objects: Listed::from_vec(places),
    };
    let south = Frontage {
        name: Name::literal(b"S"),
        objects: Listed::new(alloc),
    };
    let rows = Vec::from_array(alloc, [north, south])?;
    Ok(Listed::from_vec(rows))
}

// A stand, a half of it, and a stand of the other frontage.
fn stands() -> [StandRow; 3] {
    [
        StandRow {
            name: Name::literal(b"W1"),
            frontage: Name::literal(b"N"),
            centre: 4_000,
            letter: Letter::E,
            buffer: 15,
            half_of: None,
        },
        StandRow {
            name: Name::literal(b"W1L"),
            frontage: Name::literal(b"N"),
            centre: 3_000,
            letter: Letter::C,
            buffer: 10,
            half_of: Some(Name::literal(b"W1")),
        },
        StandRow {
            name: Name::literal(b"S1"),
            frontage: Name::literal(b"S"),
            centre: 500,
            letter: Letter::F,
            buffer: 0,
            half_of: None,
        },
    ]
}

// A type of letter F whose wing tips fold to letter E.
fn folding_type() -> TypeRow {
    TypeRow {
        name: Name::literal(b"B779"),
        span: 7_185,
        least: 90,
        parked: 6_485,
        fold: 3,
    }
}

fn mixed_airport(alloc: Global) -> Result<Airport, Fail> {
    let pair = PairRow {
        a: Name::literal(b"W1"),
        la: Letter::C,
        b: Name::literal(b"S1"),
        lb: Letter::A,
    };
    let types = [type_of_40(Name::literal(b"A320")), folding_type()];
    let frontages = frontages(alloc)?;
    let stands = Vec::from_array(alloc, stands())?;
    let pairs = Vec::from_array(alloc, [pair])?;
    let types = Vec::from_array(alloc, types)?;
    airport_of(
        alloc,
        AirportParts {
            first: Date {
                year: 2030,
                month: 1,
                day: 5,
            },
            frontages,
            stands: Listed::from_vec(stands),
            pairs: Listed::from_vec(pairs),
            types: Listed::from_vec(types),
            ..empty_parts(alloc)
        },
    )
}

const MIXED: &str =
    r#"{"days":3,"first_day":"2030-01-05","frontages":[{"name":"N","objects":[1200,90000]},{"name":"S","objects":[]}],"pairs":[{"a":"W1","b":"S1","la":"C","lb":"A"}],"stands":[{"buffer":15,"centre":4000,"frontage":"N","half_of":null,"letter":"E","name":"W1"},{"buffer":10,"centre":3000,"frontage":"N","half_of":"W1","letter":"C","name":"W1L"},{"buffer":0,"centre":500,"frontage":"S","half_of":null,"letter":"F","name":"S1"}],"station":"APR","taxi_in":5,"tow":20,"types":[{"fold":0,"least":40,"letter":"C","name":"A320","parked":3580,"span":3580},{"fold":3,"least":90,"letter":"F","name":"B779","parked":6485,"span":7185}],"version":12}"#;

const WITHOUT_PAIRS: &str =
    r#"{"days":3,"first_day":"2026-03-27","frontages":[{"name":"N","objects":[]}],"pairs":[],"stands":[{"buffer":10,"centre":4000,"frontage":"N","half_of":null,"letter":"C","name":"N1"},{"buffer":10,"centre":8030,"frontage":"N","half_of":null,"letter":"C","name":"N2"}],"station":"APR","taxi_in":5,"tow":20,"types":[{"fold":0,"least":40,"letter":"C","name":"A320","parked":3580,"span":3580}],"version":0}"#;

fn is_at(alloc: Global, airport: &Airport, version: u32, body: &str) -> bool {
    let reply = Reply {
        version,
        told: ReplyBody::Airport,
    };
    is_text(alloc, airport, &reply, OK, body)
}

#[test]
fn airports_are_these_bytes(rt: HostRuntime) -> Result<(), Fail> {
    let alloc = rt.alloc();
    let mixed = is_at(alloc, &mixed_airport(alloc)?, 12, MIXED);
    let without_pairs = is_at(alloc, &airport(alloc)?, 0, WITHOUT_PAIRS);
    assert!(rt;
        mixed && without_pairs,
        "mixed {mixed}, without pairs {without_pairs}"
    );
    Ok(())
}
