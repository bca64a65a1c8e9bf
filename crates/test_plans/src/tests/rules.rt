// The rules of stands on one frontage, at their bounds.
ghost use Rattle.std.specs.Prelude.{◌≡◌, ◌<◌, IfSome, length, nat_lt};

use apron_base::{Letter, Listed, Name, StandNo, TypeNo};
use apron_rules::{
    Airport, AirportParts, Frontage, PairRow, Rule, StandRow, TypeRow, UnfitBy, Wing,
};
use std::alloc::Global;
use std::test::Fail;
use test_airports::{airport_of, empty_parts, on_one_frontage, stand_on_n};

mod dates;
mod looks;

const NARROW: u16 = 0;

const WIDE: u16 = 1;

fn stand(name: Name, frontage: Name, centre: u32, letter: Letter) -> StandRow {
    StandRow {
        name,
        frontage,
        centre,
        letter,
        buffer: 10,
        half_of: None,
    }
}

fn half(name: Name, centre: u32) -> StandRow {
    let mut half = stand(name, Name::literal(b"F"), centre, Letter::C);
    half.half_of = Some(Name::literal(b"W"));
    half
}

// Two pairs of stands, 4,029 and 4,030 cm apart; a whole stand with two halves 4,030 cm apart; two
// stands with a restriction; two stands with an object beside each.
fn stands() -> [StandRow; 10] {
    let f = Name::literal(b"F");
    [
        stand(Name::literal(b"A"), f, 10_000, Letter::C),
        stand(Name::literal(b"B"), f, 14_029, Letter::C),
        stand(Name::literal(b"C"), f, 18_059, Letter::C),
        stand(Name::literal(b"W"), f, 30_000, Letter::E),
        half(Name::literal(b"WL"), 28_000),
        half(Name::literal(b"WR"), 32_030),
        stand(Name::literal(b"P"), f, 50_000, Letter::E),
        stand(Name::literal(b"Q"), f, 60_000, Letter::E),
        stand(Name::literal(b"X"), f, 70_000, Letter::C),
        stand(Name::literal(b"Y"), f, 80_000, Letter::C),
    ]
}

fn airport(alloc: Global) -> Result<Airport, Fail> {
    let objects = Vec::from_array(alloc, [72_240, 82_239])?;
    let frontage = Frontage {
        name: Name::literal(b"F"),
        objects: Listed::from_vec(objects),
    };
    let pair = PairRow {
        a: Name::literal(b"P"),
        la: Letter::E,
        b: Name::literal(b"Q"),
        lb: Letter::C,
    };
    let narrow = TypeRow::without_folding(Name::literal(b"A320"), 3_580, 40);
    let wide = TypeRow::without_folding(Name::literal(b"B77W"), 6_480, 40);
    let frontages = Vec::from_array(alloc, [frontage])?;
    let stands = Vec::from_array(alloc, stands())?;
    let pairs = Vec::from_array(alloc, [pair])?;
    let types = Vec::from_array(alloc, [narrow, wide])?;
    let parts = AirportParts {
        days: 1,
        frontages: Listed::from_vec(frontages),
        stands: Listed::from_vec(stands),
        pairs: Listed::from_vec(pairs),
        types: Listed::from_vec(types),
        ..empty_parts(alloc)
    };
    airport_of(alloc, parts)
}

fn number(airport: &Airport, name: &str) -> Option<StandNo>
    ensures there { IfSome result (λ s. s.0 < length airport.now.stands) }
{
    let s = airport.stand_of(&Name::new(name.as_bytes())?)?;
    if s.0 as usize >= airport.parts().stands.len() {
        return None;
    }
    Some(s)
}

fn has_type(airport: &Airport, kind: u16) -> bool
    ensures there { result ≡ nat_lt kind (length airport.now.types) }
{
    (kind as usize) < airport.parts().types.len()
}

// Whether a type on one stand and a type on another exclude each other by this rule, or by none.
fn exclude_by(airport: &Airport, one: (&str, u16), other: (&str, u16), want: Option<Rule>) -> bool {
    let Some(s) = number(airport, one.0) else {
        return false;
    };
    let Some(s2) = number(airport, other.0) else {
        return false;
    };
    has_type(airport, one.1)
        && has_type(airport, other.1)
        && airport.breaks(
            s,
            TypeNo(one.1),
            Wing::Full,
            s2,
            TypeNo(other.1),
            Wing::Full,
        ) == want
}

const RULES: [(&str, (&str, u16), (&str, u16), Option<Rule>); 10] = [
    (
        "4,029 cm",
        ("A", NARROW),
        ("B", NARROW),
        Some(Rule::Clearance),
    ),
    ("4,030 cm", ("B", NARROW), ("C", NARROW), None),
    ("two halves", ("WL", NARROW), ("WR", NARROW), None),
    (
        "half, whole",
        ("WL", NARROW),
        ("W", NARROW),
        Some(Rule::Split),
    ),
    (
        "whole, half",
        ("W", WIDE),
        ("WR", NARROW),
        Some(Rule::Split),
    ),
    ("one stand", ("W", NARROW), ("W", WIDE), Some(Rule::Same)),
    ("restricted", ("P", WIDE), ("Q", NARROW), Some(Rule::Pair)),
    (
        "restricted, turned",
        ("Q", NARROW),
        ("P", WIDE),
        Some(Rule::Pair),
    ),
    ("not restricted", ("P", NARROW), ("Q", WIDE), None),
    ("not restricted, turned", ("Q", WIDE), ("P", NARROW), None),
];

// The first row at which another rule holds, if there is one.
fn wrong_rule(airport: &Airport) -> Option<&'static str> {
    for (row, one, other, want) in RULES {
        if !exclude_by(airport, one, other, want) {
            return Some(row);
        }
    }
    None
}

// Whether a type fits a stand, or by what it does not fit.
fn fits_so(airport: &Airport, name: &str, kind: u16, want: Result<(), UnfitBy>) -> bool {
    match number(airport, name) {
        Some(s) => has_type(airport, kind) && airport.fits(s, TypeNo(kind)) == want,
        None => false,
    }
}

const FITS: [(&str, &str, u16, Result<(), UnfitBy>); 4] = [
    ("at its clearance", "X", NARROW, Ok(())),
    ("1 cm less", "Y", NARROW, Err(UnfitBy::Object(2))),
    ("E on C", "X", WIDE, Err(UnfitBy::Letter)),
    ("E on E", "P", WIDE, Ok(())),
];

// The first row at which another answer is given, if there is one.
fn wrong_fit(airport: &Airport) -> Option<&'static str> {
    for (row, name, kind, want) in FITS {
        if !fits_so(airport, name, kind, want) {
            return Some(row);
        }
    }
    None
}

// Whether these are the stand's neighbours.
fn neighbours_are(airport: &Airport, name: &str, want: &[StandNo]) -> bool {
    match number(airport, name) {
        Some(s) => airport.neighbours(s) == want,
        None => false,
    }
}

const NEIGHBOURS: [(&str, &[StandNo]); 8] = [
    ("A", &[StandNo(0), StandNo(1)]),
    ("B", &[StandNo(0), StandNo(1), StandNo(2)]),
    ("C", &[StandNo(1), StandNo(2)]),
    ("W", &[StandNo(3), StandNo(4), StandNo(5)]),
    ("WR", &[StandNo(3), StandNo(4), StandNo(5)]),
    ("P", &[StandNo(6), StandNo(7)]),
    ("Q", &[StandNo(6), StandNo(7)]),
    ("X", &[StandNo(8)]),
];

// The first stand that has other neighbours, if there is one.
fn wrong_neighbours(airport: &Airport) -> Option<&'static str> {
    for (name, want) in NEIGHBOURS {
        if !neighbours_are(airport, name, want) {
            return Some(name);
        }
    }
    None
}

// Two aircraft exclude each other by the first rule, an aircraft fits up to its clearance, and
// neighbours are the stands that some two types exclude.
fn wrong_row(airport: &Airport) -> Option<&'static str> {
    wrong_rule(airport)
        .or(wrong_fit(airport))
        .or(wrong_neighbours(airport))
}

#[test]
fn the_rules_hold_at_their_bounds(rt: HostRuntime) -> Result<(), Fail> {
    let airport = airport(rt.alloc())?;
    match wrong_row(&airport) {
        Some(row) => Err(Fail::new(row)),
        None => Ok(()),
    }
}

// Two aircraft of 7,180 cm are too near at 7,929 cm but not at 7,930 cm: 7,180 + 7,180 + 1,500 is
// 15,860. Folded they have 6,480 cm.
fn folding_airport(alloc: Global) -> Result<Airport, Fail> {
    let stands = [
        stand_on_n(Name::literal(b"HOME"), 10_000),
        stand_on_n(Name::literal(b"IN"), 2_071),
        stand_on_n(Name::literal(b"OUT"), 2_070),
    ];
    let stands = Vec::from_array(alloc, stands)?;
    let folding = TypeRow {
        parked: 6_480,
        fold: 5,
        ..TypeRow::without_folding(Name::literal(b"FW72"), 7_180, 60)
    };
    let types = Vec::from_array(alloc, [folding])?;
    on_one_frontage(alloc, stands, types)
}

#[test]
fn neighbours_are_found_with_unfolded_wing_tips(rt: HostRuntime) -> Result<(), Fail> {
    let airport = folding_airport(rt.alloc())?;
    assert!(rt; neighbours_are(&airport, "HOME", &[StandNo(0), StandNo(1)]));
    Ok(())
}
