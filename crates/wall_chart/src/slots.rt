// The slots of a day, and which minutes they are held.
ghost use Rattle.std.specs.Prelude.{◌≡◌, ◌≤◌, ◌<◌, ◌+◌, ◌^◌, ◌++◌, All, IfOk, OnOk, filter, option_to_list};
ghost use Rattle.apron_rules.specs.declared.limits.TheConstants.{MAX_DAYS};
ghost use Rattle.visit_book.specs.Slots.{slots_of, slots_of_visit};
ghost use Rattle.visit_book.specs.WellFormed.{IsWellFormed};
ghost use Rattle.plan_lists.specs.Days.{minutes_from, minutes_of_day};
ghost use Rattle.wall_chart.specs.Alarms.{is_actual_on};
ghost use Rattle.wall_chart.specs.Cells.{is_held_at_some};

use crate::times::day_start;
use apron_base::{Memory, Minute, Slot};
use apron_rules::Airport;
use plan_lists::DAY_LENGTH;
use std::alloc::Global;
use visit_book::{Visit, slot_of};

/// The actual slots of the visits that are held at some minute of the day, in order of the visits
/// and of their parts. The only error is a lack of memory.
pub(crate) fn actual_slots(
    alloc: Global,
    airport: &Airport,
    visits: &[Visit],
    day: u32,
) -> Result<Vec<Slot>, Memory>
    requires each { All (IsWellFormed airport.now) visits.now }
    requires first { 1 ≤ day }
    requires last { day ≤ MAX_DAYS }
    ensures are { IfOk result
        (λ slots. slots.items ≡ filter (is_actual_on day) (slots_of airport.now visits.now)) }
{
    let mut slots = Vec::new(alloc);
    for visit in visits {
        push_slots_of_visit(airport, &mut slots, visit)?;
    }
    slots.retain(|slot| is_actual_on(day, slot));
    Ok(slots)
}

fn is_actual_on(day: u32, slot: &Slot) -> bool
    requires first { 1 ≤ day }
    requires last { day ≤ MAX_DAYS }
    ensures is { result ≡ is_actual_on day slot.now }
{
    slot.actual && is_held_on(slot, day)
}

fn is_held_on(slot: &Slot, day: u32) -> bool
    requires first { 1 ≤ day }
    requires last { day ≤ MAX_DAYS }
    ensures is { result ≡ is_held_at_some (minutes_of_day day) slot.now }
{
    is_held_at_some(slot, day_start(day), DAY_LENGTH)
}

fn push_slots_of_visit(
    airport: &Airport,
    slots: &mut Vec<Slot>,
    visit: &Visit,
) -> Result<(), Memory>
    requires valid { IsWellFormed airport.now visit.now }
    ensures ok { OnOk result
        (slots.new.items ≡ slots.old.items ++ slots_of_visit airport.now visit.now) }
{
    let parts = visit.parts.as_slice();
    for index in 0..parts.len() {
        push_slot(
            slots,
            slot_of(airport, visit, index as u8 + 1, &parts[index]),
        )?;
    }
    Ok(())
}

fn push_slot(slots: &mut Vec<Slot>, slot: Option<Slot>) -> Result<(), Memory>
    ensures ok { OnOk result (slots.new.items ≡ slots.old.items ++ option_to_list slot) }
{
    if let Some(slot) = slot {
        slots.push(slot)?;
    }
    Ok(())
}

/// Whether the slot is held at some of this many minutes from this one on.
pub(crate) fn is_held_at_some(slot: &Slot, from: Minute, count: u32) -> bool
    requires fits { from + count < 2 ^ 32 }
    ensures is { result ≡ is_held_at_some (minutes_from from count) slot.now }
{
    slot.from.max(from) < slot.end.min(from + count)
}
