// The first clash of one slot with the slots of an index and with some more slots.
ghost use Rattle.std.specs.Prelude.{◌≡◌, ◌≤◌, ◌<◌, ◌+◌, ◌++◌, ◌∷◌, [], All, IfOk, filter, length};
ghost use Rattle.apron_rules.specs.Clash.{IsSlotOf};
ghost use Rattle.clash_check.specs.Clear.{IsClear, is_of_any, is_of_other, others_of};
ghost use Rattle.clash_check.specs.FirstWith.{IsFirstWith};
ghost use Rattle.clash_check.specs.Indexed.{all_slots, slots_at};
ghost use Rattle.clash_check.specs.Steps.{steps_near};
ghost use Rattle.stand_index.specs.Slots.{IsIndex, at_stand};
ghost use Rattle.stand_index.specs.Steps.{most_steps};

use apron_base::{Memory, Slot, StandNo, Steps, VisitNo};
use apron_rules::{Airport, Clash, clash_between, may_meet, sooner};
use stand_index::StandIndex;
use std::alloc::Global;
use std::sync::ledger::Ledger;

/// The first clash of a slot with those of the index that are of other visits than these, and with
/// some more slots. Each of the latter counts as a step.
pub(crate) fn first_with<L: Ledger>(
    alloc: Global,
    airport: &Airport,
    index: &StandIndex,
    without: &[VisitNo],
    more: &[Slot],
    slot: &Slot,
    steps: &mut Steps<L>,
) -> Result<Option<Clash>, Memory>
    requires clear { IsClear airport.now index.now without.now }
    requires more { All (IsSlotOf airport.now) more.now }
    requires slot { IsSlotOf airport.now slot.now }
    ensures first { IfOk result
        (IsFirstWith airport.now slot.now (others_of index.now without.now ++ more.now)) }
    ensures steps { steps.new
        ≤ steps.old + steps_near airport.now index.now slot.now + length more.now }
{
    let near = first_near(alloc, airport, index, without, slot, steps)?;
    let found = sooner(near, first_among(airport, more, slot, steps));
    Ok(found)
}

// The first clash of a slot with those of the index that are of other visits.
fn first_near<L: Ledger>(
    alloc: Global,
    airport: &Airport,
    index: &StandIndex,
    without: &[VisitNo],
    slot: &Slot,
    steps: &mut Steps<L>,
) -> Result<Option<Clash>, Memory>
    requires clear { IsClear airport.now index.now without.now }
    requires slot { IsSlotOf airport.now slot.now }
    ensures first { IfOk result
        (IsFirstWith airport.now slot.now (others_of index.now without.now)) }
    ensures steps { steps.new ≤ steps.old + steps_near airport.now index.now slot.now }
{
    let neighbours = airport.neighbours(slot.stand);
    let mut first = None;
    for place in 0..neighbours.len() {
        let found = first_at(
            alloc,
            airport,
            index,
            without,
            neighbours[place],
            slot,
            steps,
        )?;
        first = sooner(first, found);
    }
    Ok(first)
}

// The first clash of a slot with those on one stand that are of other visits.
fn first_at<L: Ledger>(
    alloc: Global,
    airport: &Airport,
    index: &StandIndex,
    without: &[VisitNo],
    stand: StandNo,
    slot: &Slot,
    steps: &mut Steps<L>,
) -> Result<Option<Clash>, Memory>
    requires stand { stand.0 < length index.now }
    requires slots { All (IsSlotOf airport.now) (all_slots index.now) }
    requires slot { IsSlotOf airport.now slot.now }
    ensures first { IfOk result
        (IsFirstWith airport.now slot.now
        (filter (is_of_other without.now) (slots_at (at_stand index.now stand)))) }
    ensures steps { steps.new
        ≤ steps.old + most_steps (at_stand index.now stand) slot.now.from slot.now.end }
    ensures index { IsIndex index.now }
{
    let hits = index.hits(alloc, stand, slot.from, slot.end, steps)?;
    let first = first_of_others(airport, &hits, without, slot);
    Ok(first)
}

// The first clash of a slot with those of a list that are of other visits.
fn first_of_others(
    airport: &Airport,
    slots: &[Slot],
    without: &[VisitNo],
    slot: &Slot,
) -> Option<Clash>
    requires slots { All (IsSlotOf airport.now) slots.now }
    requires slot { IsSlotOf airport.now slot.now }
    ensures first { IsFirstWith airport.now slot.now (filter (is_of_other without.now) slots.now)
        result }
{
    let mut first = None;
    for other in slots {
        first = sooner(first, clash_with_other(airport, slot, other, without));
    }
    first
}

// The first clash of two slots, if the second is of another visit than these.
fn clash_with_other(
    airport: &Airport,
    slot: &Slot,
    other: &Slot,
    without: &[VisitNo],
) -> Option<Clash>
    requires slot { IsSlotOf airport.now slot.now }
    requires other { IsSlotOf airport.now other.now }
    ensures first { IsFirstWith airport.now slot.now
        (filter (is_of_other without.now) (other.now ∷ [])) result }
{
    if is_of_any(without, other) {
        None
    } else {
        clash_of_both(airport, slot, other)
    }
}

fn is_of_any(visits: &[VisitNo], slot: &Slot) -> bool
    ensures is { result ≡ is_of_any visits.now slot.now }
{
    visits.iter().any(|visit| visit.0 == slot.part.visit.0)
}

/// The first clash of a slot with some others. Two slots of the same visit don't clash. Each is
/// counted as a step.
pub fn first_among<L: Ledger>(
    airport: &Airport,
    slots: &[Slot],
    slot: &Slot,
    steps: &mut Steps<L>,
) -> Option<Clash>
    requires slots { All (IsSlotOf airport.now) slots.now }
    requires slot { IsSlotOf airport.now slot.now }
    ensures first { IsFirstWith airport.now slot.now slots.now result }
    ensures steps { steps.new ≤ steps.old + length slots.now }
{
    let mut first = None;
    for other in slots {
        steps.tick();
        if may_meet(airport, slot, other, slot.from, slot.end) {
            first = sooner(first, clash_of_both(airport, slot, other));
        }
    }
    first
}

// The first clash of two slots, whichever part is the smaller.
fn clash_of_both(airport: &Airport, slot: &Slot, other: &Slot) -> Option<Clash>
    requires slot { IsSlotOf airport.now slot.now }
    requires other { IsSlotOf airport.now other.now }
    ensures first { IsFirstWith airport.now slot.now (other.now ∷ []) result }
{
    sooner(
        clash_between(airport, slot, other),
        clash_between(airport, other, slot),
    )
}
