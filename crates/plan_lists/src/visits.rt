// The visits of a day.
ghost use Rattle.std.specs.Prelude.{◌≡◌, ◌≤◌, All, IfOk};
ghost use Rattle.visit_book.specs.NewVisits.{IsNewVisit, new_of};
ghost use Rattle.visit_book.specs.Places.{IsPlaceOf};
ghost use Rattle.visit_book.specs.WellFormed.{IsWellFormed, latest_end};
ghost use Rattle.plan_lists.specs.OfDay.{is_of_day, is_seen_on, is_visit_of, visits_on, waits_on};
ghost use Rattle.plan_lists.specs.Rows.{row};

use crate::days::overlaps_day;
use crate::held::holds_on;
use crate::rows::{push_if, row};
use crate::waiting::is_unplaced;
use apron_base::{Listed, Memory};
use apron_rules::Airport;
use plan_core::Plan;
use std::alloc::Global;
use visit_book::{Part, PartRow, Visit, is_live};

/// The visits with a part that holds a stand on this day, counted from 1, or waits for one, in
/// order of number. The only error is a lack of memory.
pub fn visits_on(
    alloc: Global,
    airport: &Airport,
    plan: &Plan,
    day: u32,
) -> Result<Listed<Visit>, Memory>
    requires airport { airport.now ≡ plan.now.plan.airport }
    requires first { 1 ≤ day }
    ensures visits { IfOk result (λ visits. visits ≡ visits_on plan.now.plan day) }
    ensures new { IfOk result (λ visits. All (λ visit. IsNewVisit (new_of visit)) visits) }
{
    let mut seen = Listed::new(alloc);
    let visits = plan.visits();
    for visit in visits {
        push_if(&mut seen, *visit, is_visit_of(airport, day, visit))?;
    }
    Ok(seen)
}

// Whether a part of the visit holds a stand on the day, or waits for one.
fn is_visit_of(airport: &Airport, day: u32, visit: &Visit) -> bool
    requires first { 1 ≤ day }
    requires valid { IsWellFormed airport.now visit.now }
    ensures is { result ≡ is_visit_of airport.now day visit.now }
{
    let parts = visit.parts.as_slice();
    let mut seen = false;
    for index in 0..parts.len() {
        seen |= is_seen_on(airport, day, visit, index as u8 + 1, &parts[index]);
    }
    seen
}

// Whether the part of the visit with this number holds a stand on the day, or waits for one.
fn is_seen_on(airport: &Airport, day: u32, visit: &Visit, number: u8, part: &Part) -> bool
    requires first { 1 ≤ day }
    requires place { IsPlaceOf airport.now part.now.place }
    requires to { part.now.to ≤ latest_end airport.now visit.now.kind }
    ensures is { result ≡ is_seen_on airport.now day visit.now (row visit.now number part.now) }
{
    holds_on(airport, day, visit, number, part) || waits_on(day, visit, &row(visit, number, part))
}

// Whether the part of the visit waits for a stand and has a minute of the day.
fn waits_on(day: u32, visit: &Visit, row: &PartRow) -> bool
    requires first { 1 ≤ day }
    ensures is { result ≡ waits_on day visit.now row.now }
{
    is_live(visit) && is_unplaced(row) && is_of_day(day, row)
}

/// Whether the part has a minute of this day, counted from 1, not counting buffer minutes.
#[tactic(auto, unfolding(crate::specs::OfDay::is_of_day))]
pub fn is_of_day(day: u32, row: &PartRow) -> bool
    requires first { 1 ≤ day }
    ensures is { result ≡ is_of_day day row.now }
{
    overlaps_day(day, row.part.from, row.part.to)
}
