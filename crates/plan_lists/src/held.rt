// The parts that hold a stand on a day.
ghost use Rattle.std.specs.Prelude.{◌≡◌, ◌≤◌, ◌++◌, All, IfOk, IsSome, OnOk};
ghost use Rattle.visit_book.specs.Places.{IsPlaceOf, stand_of};
ghost use Rattle.visit_book.specs.WellFormed.{IsWellFormed, latest_end};
ghost use Rattle.plan_lists.specs.Held.{held_of, held_on, holds_on, is_held_on};
ghost use Rattle.plan_lists.specs.Rows.{row};

use crate::days::overlaps_day;
use crate::rows::{push_if, row};
use apron_base::{Listed, Memory, Slot};
use apron_rules::Airport;
use plan_core::Plan;
use std::alloc::Global;
use visit_book::{Part, PartRow, Visit, slot_of};

/// The parts that hold their stand at a minute of this day, counted from 1, in order of visit and
/// part. The minutes that a part holds include the stand's buffer. The only error is a lack of
/// memory.
pub fn held_on(
    alloc: Global,
    airport: &Airport,
    plan: &Plan,
    day: u32,
) -> Result<Listed<PartRow>, Memory>
    requires airport { airport.now ≡ plan.now.plan.airport }
    requires first { 1 ≤ day }
    ensures held { IfOk result (λ rows. rows ≡ held_on plan.now.plan day) }
    ensures placed { IfOk result (λ rows. All (λ row. IsSome (stand_of row.part.place)) rows) }
{
    let mut rows = Listed::new(alloc);
    let visits = plan.visits();
    for visit in visits {
        push_held(&mut rows, airport, day, visit)?;
    }
    Ok(rows)
}

// Adds at the end the parts of the visit that hold a stand on the day.
fn push_held(
    rows: &mut Listed<PartRow>,
    airport: &Airport,
    day: u32,
    visit: &Visit,
) -> Result<(), Memory>
    requires first { 1 ≤ day }
    requires valid { IsWellFormed airport.now visit.now }
    ensures ok { OnOk result (rows.new ≡ rows.old ++ held_of airport.now day visit.now) }
{
    let parts = visit.parts.as_slice();
    for index in 0..parts.len() {
        let number = index as u8 + 1;
        let held = holds_on(airport, day, visit, number, &parts[index]);
        push_if(rows, row(visit, number, &parts[index]), held)?;
    }
    Ok(())
}

// Whether the part of the visit with this number is on a stand and holds it at some minute of the
// day.
pub(crate) fn holds_on(airport: &Airport, day: u32, visit: &Visit, number: u8, part: &Part) -> bool
    requires first { 1 ≤ day }
    requires place { IsPlaceOf airport.now part.now.place }
    requires to { part.now.to ≤ latest_end airport.now visit.now.kind }
    ensures is { result ≡ holds_on airport.now day visit.now (row visit.now number part.now) }
{
    is_held_on(day, slot_of(airport, visit, number, part))
}

// Whether the slot, if there is one, holds its stand at some minute of the day.
#[tactic(auto, unfolding(crate::specs::Held::is_held_on))]
fn is_held_on(day: u32, slot: Option<Slot>) -> bool
    requires first { 1 ≤ day }
    ensures is { result ≡ is_held_on day slot }
{
    match slot {
        Some(slot) => overlaps_day(day, slot.from, slot.end),
        None => false,
    }
}
