// The cells of stands: how each is held in each quarter of an hour of a day.
ghost use Rattle.std.specs.Prelude.{◌≡◌, ◌≤◌, ◌<◌, ◌++◌, ◌+◌, ◌^◌, OnOk, length};
ghost use Rattle.std.specs.List.{list_any};
ghost use Rattle.apron_rules.specs.declared.limits.TheConstants.{MAX_DAYS, MAX_STANDS};
ghost use Rattle.visit_book.specs.Slots.{slots_of};
ghost use Rattle.plan_lists.specs.Days.{minutes_from};
ghost use Rattle.wall_chart.specs.Cells.{cell, cells, holds_by_plan, holds_in_fact, stand_line};
ghost use Rattle.wall_chart.specs.Chart.{stand_lines};

use crate::rows::push_stand;
use crate::slots::is_held_at_some;
use crate::times::day_start;
use apron_base::{Memory, Minute, Slot, StandNo, Steps};
use apron_rules::AirportParts;
use plan_core::Plan;
use plan_lists::DAY_LENGTH;
use std::alloc::Global;
use std::sync::ledger::Ledger;

// The minutes of a cell.
const CELL_LENGTH: u32 = 15;

// The cells of a day.
const CELLS_OF_DAY: u32 = 96;

/// Writes the lines of all stands at the end. Each stand is looked up once.
pub(crate) fn push_stand_lines<L: Ledger>(
    alloc: Global,
    text: &mut Vec<u8>,
    airport: &AirportParts,
    plan: &Plan,
    day: u32,
    steps: &mut Steps<L>,
) -> Result<(), Memory>
    requires airport { airport.now ≡ plan.now.plan.airport }
    requires stands { length airport.now.stands ≤ MAX_STANDS }
    requires first { 1 ≤ day }
    requires last { day ≤ MAX_DAYS }
    ensures text { OnOk result
        (text.new.items
        ≡ text.old.items
        ++ stand_lines airport.now (slots_of airport.now plan.now.plan.visits) day) }
{
    let index = plan.index();
    let start = day_start(day);
    for place in 0..airport.stands.len() {
        let stand = StandNo(place as u16);
        let slots = index.hits(alloc, stand, start, start + DAY_LENGTH, steps)?;
        push_stand_line(text, airport, &slots, day, stand)?;
    }
    Ok(())
}

fn push_stand_line(
    text: &mut Vec<u8>,
    airport: &AirportParts,
    slots: &[Slot],
    day: u32,
    stand: StandNo,
) -> Result<(), Memory>
    requires first { 1 ≤ day }
    requires last { day ≤ MAX_DAYS }
    ensures text { OnOk result
        (text.new.items ≡ text.old.items ++ stand_line airport.now slots.now day stand) }
{
    push_stand(text, airport, stand)?;
    text.push(b' ')?;
    push_cells(text, slots, day, stand)?;
    text.push(b'\n')?;
    Ok(())
}

pub(crate) fn push_cells(
    text: &mut Vec<u8>,
    slots: &[Slot],
    day: u32,
    stand: StandNo,
) -> Result<(), Memory>
    requires first { 1 ≤ day }
    requires last { day ≤ MAX_DAYS }
    ensures text { OnOk result (text.new.items ≡ text.old.items ++ cells slots.now day stand) }
{
    let start = day_start(day);
    for quarter in 0..CELLS_OF_DAY {
        text.push(cell(slots, stand, start + CELL_LENGTH * quarter))?;
    }
    Ok(())
}

// The cell whose first minute this is.
fn cell(slots: &[Slot], stand: StandNo, from: Minute) -> u8
    requires fits { from + 15 < 2 ^ 32 }
    ensures is { result ≡ cell slots.now stand (minutes_from from 15) }
{
    if is_held_in_fact(slots, stand, from) {
        b'#'
    } else if is_held_by_plan(slots, stand, from) {
        b'='
    } else {
        b'.'
    }
}

fn is_held_in_fact(slots: &[Slot], stand: StandNo, from: Minute) -> bool
    requires fits { from + 15 < 2 ^ 32 }
    ensures is { result ≡ list_any (holds_in_fact stand (minutes_from from 15)) slots.now }
{
    slots.iter().any(|slot| holds_in_fact(stand, slot, from))
}

fn is_held_by_plan(slots: &[Slot], stand: StandNo, from: Minute) -> bool
    requires fits { from + 15 < 2 ^ 32 }
    ensures is { result ≡ list_any (holds_by_plan stand (minutes_from from 15)) slots.now }
{
    slots.iter().any(|slot| holds_by_plan(stand, slot, from))
}

fn holds_in_fact(stand: StandNo, slot: &Slot, from: Minute) -> bool
    requires fits { from + 15 < 2 ^ 32 }
    ensures is { result ≡ holds_in_fact stand (minutes_from from 15) slot.now }
{
    slot.stand.0 == stand.0 && slot.actual && is_held_at_some(slot, from, CELL_LENGTH)
}

fn holds_by_plan(stand: StandNo, slot: &Slot, from: Minute) -> bool
    requires fits { from + 15 < 2 ^ 32 }
    ensures is { result ≡ holds_by_plan stand (minutes_from from 15) slot.now }
{
    slot.stand.0 == stand.0 && !slot.actual && is_held_at_some(slot, from, CELL_LENGTH)
}
