// The index of a plan's slots: what an entry takes out and puts in, and the first clash near what
// changed.
ghost use Rattle.std.specs.Prelude.{◌≡◌, ◌≤◌, ◌<◌, ◌+◌, ◌++◌, All, IfNone, IfOk, IfSome, OnOk, count_by, filter, length};
ghost use Rattle.std.specs.List.Sorted.{IsPermutation};
ghost use Rattle.apron_base.specs.Histories.{Rises};
ghost use Rattle.apron_rules.specs.Clash.{IsFirstClash, IsSound};
ghost use Rattle.clash_check.specs.Indexed.{all_slots};
ghost use Rattle.clash_check.specs.Steps.{steps_of};
ghost use Rattle.stand_index.specs.Slots.{IsIndex, at_stand};
ghost use Rattle.visit_book.specs.Numbers.{IsNumbered, visit_at};
ghost use Rattle.visit_book.specs.Places.{stand_of};
ghost use Rattle.visit_book.specs.Slots.{slots_of};
ghost use Rattle.visit_book.specs.WellFormed.{IsWellFormed};
ghost use Rattle.plan_core.specs.Indexed.{IsIndexed};
ghost use Rattle.plan_core.specs.Indexing.{CanHold, HaveStandsOf, KeepsRoom, is_off, is_off_parts, is_off_visit, is_off_visits, numbers_of};
ghost use Rattle.plan_core.specs.PlanState.{is_on, visit_number};
ghost use Rattle.plan_core.specs.Working.{replace_visits};

use apron_base::{Memory, PartId, Slot, StandNo, Steps, VisitNo};
use apron_rules::{Airport, Clash};
use clash_check::first_clash_without;
use stand_index::StandIndex;
use std::alloc::Global;
use std::sync::ledger::Ledger;
use visit_book::{Place, Visit, visit_at};

/// Takes out the slots that visits have before a change: those of the visits with the numbers of
/// the changed ones. It takes no memory.
pub(crate) fn take_out(index: &mut StandIndex, visits: &[Visit], changed: &[Visit])
    requires index { IsIndex index.old }
    requires numbered { IsNumbered visits.now }
    requires stands { All (λ visit. HaveStandsOf (length index.old) visit.parts) visits.now }
    ensures slots { all_slots index.new
        ≡ filter (is_off_visits visits.now changed.now) (all_slots index.old) }
    ensures index { IsIndex index.new }
    ensures room { KeepsRoom index.old index.new }
{
    for visit in changed {
        take_out_number(index, visits, visit.number);
    }
}

// Takes out the slots of the visit of this number, if there is one.
fn take_out_number(index: &mut StandIndex, visits: &[Visit], number: VisitNo)
    requires index { IsIndex index.old }
    requires numbered { IsNumbered visits.now }
    requires stands { All (λ visit. HaveStandsOf (length index.old) visit.parts) visits.now }
    ensures slots { all_slots index.new
        ≡ filter (is_off_visit (visit_at visits.now number)) (all_slots index.old) }
    ensures index { IsIndex index.new }
    ensures room { KeepsRoom index.old index.new }
{
    match visit_at(visits, number) {
        Some(visit) => take_out_visit(index, visit),
        None => {}
    }
}

// Takes out the slots of a visit.
fn take_out_visit(index: &mut StandIndex, visit: &Visit)
    requires index { IsIndex index.old }
    requires stands { HaveStandsOf (length index.old) visit.now.parts }
    ensures slots { all_slots index.new
        ≡ filter (is_off_parts visit.now.number 1 visit.now.parts) (all_slots index.old) }
    ensures index { IsIndex index.new }
    ensures room { KeepsRoom index.old index.new }
{
    let parts = visit.parts.as_slice();
    for place in 0..parts.len() {
        let part = PartId {
            visit: visit.number,
            part: place as u8 + 1,
        };
        take_out_part(index, part, &parts[place].place);
    }
}

// Takes out the slot of the part at this place, if it is on a stand.
fn take_out_part(index: &mut StandIndex, part: PartId, place: &Place)
    requires index { IsIndex index.old }
    requires stand { IfSome (stand_of place.now) (λ stand. stand.0 < length index.old) }
    ensures slots { all_slots index.new
        ≡ filter (is_off (stand_of place.now) part) (all_slots index.old) }
    ensures index { IsIndex index.new }
    ensures room { KeepsRoom index.old index.new }
{
    match *place {
        Place::Planned(stand) | Place::Actual(stand) => index.remove(stand, part),
        Place::Unplaced(_) => {}
    }
}

/// Puts slots in, each on its stand. There is room for all, and no two planned ones meet on a
/// stand, neither with one another nor with those that are there. It takes no memory.
pub(crate) fn put_in(index: &mut StandIndex, slots: &[Slot])
    requires index { IsIndex index.old }
    requires holds { CanHold index.old slots.now }
    ensures slots { IsPermutation (all_slots index.old ++ slots.now) (all_slots index.new) }
    ensures index { IsIndex index.new }
    ensures stands { length index.new ≡ length index.old }
{
    for slot in slots {
        index.insert(*slot);
    }
}

/// Makes room on the stand of each slot for as many slots as are on that stand. `Err` if there is
/// no memory; the slots of the index are then as they were.
pub(crate) fn reserve(index: &mut StandIndex, slots: &[Slot]) -> Result<(), Memory>
    requires index { IsIndex index.old }
    requires stands { All (λ slot. slot.stand.0 < length index.old) slots.now }
    ensures ok { OnOk result
        ((stand : StandNo) → count_by (is_on stand) slots.now ≤ (at_stand index.new stand).spare) }
    ensures slots { all_slots index.new ≡ all_slots index.old }
    ensures index { IsIndex index.new }
    ensures room { KeepsRoom index.old index.new }
{
    for slot in slots {
        reserve_on(index, slots, slot.stand)?;
    }
    Ok(())
}

// Makes room on a stand for as many of the slots as are on it.
fn reserve_on(index: &mut StandIndex, slots: &[Slot], stand: StandNo) -> Result<(), Memory>
    requires index { IsIndex index.old }
    requires stand { stand.0 < length index.old }
    ensures ok { OnOk result (count_by (is_on stand) slots.now ≤ (at_stand index.new stand).spare) }
    ensures slots { all_slots index.new ≡ all_slots index.old }
    ensures index { IsIndex index.new }
    ensures room { KeepsRoom index.old index.new }
{
    match u32::try_from(count_on(slots, stand)) {
        Ok(count) => index.reserve(stand, count),
        Err(_) => Err(Memory),
    }
}

// How many of the slots are on this stand.
fn count_on(slots: &[Slot], stand: StandNo) -> usize
    ensures count { result ≡ count_by (is_on stand) slots.now }
{
    slots.iter().filter(|slot| slot.stand.0 == stand.0).count()
}

/// The first clash of the plan after the changed visits, which have these slots, replace those of
/// the same number; `None` if there is none. The only error is a lack of memory.
pub(crate) fn first_clash_near<L: Ledger>(
    alloc: Global,
    airport: &Airport,
    index: &StandIndex,
    visits: &[Visit],
    changed: &[Visit],
    slots: &[Slot],
    steps: &mut Steps<L>,
) -> Result<Option<Clash>, Memory>
    requires indexed { IsIndexed airport.now index.now visits.now }
    requires each { All (IsWellFormed airport.now) visits.now }
    requires numbered { IsNumbered visits.now }
    requires sound { IsSound airport.now (slots_of airport.now visits.now) }
    requires changed { All (IsWellFormed airport.now) changed.now }
    requires rise { Rises visit_number 1 (length visits.now + 1) changed.now }
    requires slots { slots.now ≡ slots_of airport.now changed.now }
    ensures first { IfOk result
        (IsFirstClash airport.now (slots_of airport.now (replace_visits visits.now changed.now))) }
    ensures sound { IfOk result (λ found. IfNone found
        (IsSound airport.now (slots_of airport.now (replace_visits visits.now changed.now)))) }
    ensures steps { steps.new ≤ steps.old + steps_of airport.now index.now slots.now }
{
    let numbers = numbers_of(alloc, changed)?;
    let found = first_clash_without(alloc, airport, index, &numbers, slots, steps)?;
    Ok(found)
}

fn numbers_of(alloc: Global, visits: &[Visit]) -> Result<Vec<VisitNo>, Memory>
    ensures numbers { IfOk result (λ numbers. numbers.items ≡ numbers_of visits.now) }
{
    let mut numbers = Vec::new(alloc);
    for visit in visits {
        numbers.push(visit.number)?;
    }
    Ok(numbers)
}
