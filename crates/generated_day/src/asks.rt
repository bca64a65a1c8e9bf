// What is asked while a day is made.
ghost use Rattle.std.specs.Prelude.{◌≡◌, ◌≤◌, ◌<◌, ◌∷◌, decimal, IfOk};
ghost use Rattle.mvt_grammar.specs.Readable.{IsFlight, IsReadable};
ghost use Rattle.visit_book.specs.NewVisits.{IsNewVisitOf};
ghost use Rattle.desk_asks.specs.Commands.{IsCommandOf};
ghost use Rattle.generated_day.specs.Asked.{day_flight, drawn_visit, estimate, put_first};
ghost use Rattle.generated_day.specs.DayAirport.{day_airport};
ghost use Rattle.generated_day.specs.Days.{most_made};

use crate::airport::STANDS;
use crate::draws::{draw_below, next_seed};
use apron_base::{Listed, Memory, Name, StandNo, TypeNo, VisitNo};
use desk_asks::Command;
use mvt_grammar::{Clock, Flight, Mvt};
use std::alloc::Global;
use visit_book::{Draft, Edit, Key, NewVisit};

fn day_flight(number: u32) -> Flight
    requires few { number ≤ most_made }
    ensures is { result ≡ day_flight number }
    ensures form { IsFlight result }
{
    Flight {
        airline: Name::literal(b"MK"),
        number: number as u16,
        suffix: None,
    }
}

// M and the number.
fn day_name(alloc: Global, number: u32) -> Result<Name, Memory>
    ensures text { IfOk result (λ name. name ≡ 77 ∷ decimal number) }
{
    let text = format!(in alloc; "M{number}")?;
    match Name::new(text.as_bytes()) {
        Some(name) => Ok(name),
        None => Err(Memory),
    }
}

/// The visit of this number, by the four draws after this number of the generator.
#[tactic(auto, unfolding(crate::specs::Asked::drawn_visit))]
pub(crate) fn drawn_visit(alloc: Global, number: u32, seed: u32) -> Result<NewVisit, Memory>
    requires few { number ≤ most_made }
    ensures is { IfOk result (λ new. new ≡ drawn_visit number seed) }
    ensures new { IfOk result (IsNewVisitOf day_airport) }
{
    let first = next_seed(seed);
    let second = next_seed(first);
    let third = next_seed(second);
    let on = 30 + draw_below(1_300, third);
    Ok(NewVisit {
        name: day_name(alloc, number)?,
        kind: TypeNo(draw_below(5, first) as u16),
        class: draw_below(10, second) as u8,
        on,
        off: on + 90 + draw_below(60, next_seed(third)),
        arr: Some(Key {
            flight: day_flight(number),
            day: 1,
        }),
        dep: None,
    })
}

/// A commit of this draft over this version, which puts the first part of the visit on the stand.
#[tactic(auto, unfolding(crate::specs::Asked::put_first))]
pub(crate) fn put_first(
    alloc: Global,
    draft: u32,
    version: u32,
    number: u32,
    stand: u32,
) -> Result<Command, Memory>
    requires stand { stand < STANDS }
    ensures is { IfOk result (λ command. command ≡ put_first draft version number stand) }
    ensures valid { IfOk result (IsCommandOf day_airport) }
{
    let put = Edit::Put {
        visit: VisitNo(number),
        part: 1,
        stand: StandNo(stand as u16),
    };
    let edits = Vec::from_array(alloc, [put])?;
    Ok(Command::Commit(Draft {
        desk: Name::literal(b"MAKE"),
        number: draft,
        base: version,
        edits: Listed::from_vec(edits),
    }))
}

/// A message that the visit of this number is estimated this many minutes after this one.
#[tactic(auto, unfolding(crate::specs::Asked::estimate))]
pub(crate) fn estimate(number: u32, on: u32, delay: u32) -> Mvt
    requires few { number ≤ most_made }
    ensures is { result ≡ estimate number on delay }
    ensures readable { IsReadable result }
{
    let minute = (u64::from(on) + u64::from(delay)) % 1_440;
    let clock = Clock {
        day: None,
        minute: minute as u16,
    };
    Mvt {
        flight: day_flight(number),
        day: 27,
        registration: Name::literal(b"GEN"),
        station: Name::literal(b"MUC"),
        ad: None,
        aa: None,
        ea: Some((clock, Name::literal(b"APR"))),
        ed: None,
    }
}
