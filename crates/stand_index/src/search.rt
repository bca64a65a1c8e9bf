// Finding the slots of a range of minutes. Each slot that is read is a step, and so is each block
// that is passed over.
ghost use Rattle.std.specs.Prelude.{◌≡◌, ◌≤◌, ◌<◌, ◌+◌, ◌*◌, ◌++◌, ◌∷◌, [], All, AllPairs, IfOk, OnOk, filter, length};
ghost use Rattle.std.specs.List.{AllWithin};
ghost use Rattle.stand_index.specs.Blocks.{block, count_blocks};
ghost use Rattle.stand_index.specs.Slots.{HasMinutes, IsEarlier, is_hit};
ghost use Rattle.stand_index.specs.Steps.{binary_digits, block_steps, blocks_steps};

use crate::slot_list::{BLOCK, SlotList};
use apron_base::{Memory, Minute, Slot, Steps};
use std::alloc::Global;
use std::sync::ledger::Ledger;

/// The slots that have a minute in `from <= m < end`, out of slots whose starts and ends rise.
pub(crate) fn hits_of_rising<L: Ledger>(
    alloc: Global,
    slots: &SlotList,
    from: Minute,
    end: Minute,
    steps: &mut Steps<L>,
) -> Result<Vec<Slot>, Memory>
    requires rise { AllPairs IsEarlier slots.now.slots }
    requires minutes { All HasMinutes slots.now.slots }
    ensures hits { IfOk result (λ hits. hits.items ≡ filter (is_hit from end) slots.now.slots) }
    ensures steps { steps.new
        ≤ steps.old + binary_digits (length slots.now.slots) + 1
        + length (filter (is_hit from end) slots.now.slots) }
{
    let mut hits = Vec::new(alloc);
    let first = count_ended(slots, from, steps);
    for index in first..slots.len() {
        let slot = slots.read(index, steps);
        if !is_hit(from, end, &slot) {
            return Ok(hits);
        }
        hits.push(slot)?;
    }
    Ok(hits)
}

// How many of the slots have ended when this minute begins, by halving.
fn count_ended<L: Ledger>(slots: &SlotList, minute: Minute, steps: &mut Steps<L>) -> usize
    requires rise { AllPairs IsEarlier slots.now.slots }
    ensures inside { result ≤ length slots.now.slots }
    ensures before { AllWithin (λ slot. slot.end ≤ minute) slots.now.slots 0 result }
    ensures after { AllWithin (λ slot. minute < slot.end) slots.now.slots result
        (length slots.now.slots) }
    ensures steps { steps.new ≤ steps.old + binary_digits (length slots.now.slots) }
{
    let mut low = 0;
    let mut high = slots.len();
    while low < high {
        let middle = low + (high - low) / 2;
        if slots.read(middle, steps).end <= minute {
            low = middle + 1;
        } else {
            high = middle;
        }
    }
    low
}

/// Adds at the end the slots that have a minute in `from <= m < end`. It passes over the blocks
/// that are not reached.
pub(crate) fn push_hits<L: Ledger>(
    hits: &mut Vec<Slot>,
    slots: &SlotList,
    from: Minute,
    end: Minute,
    steps: &mut Steps<L>,
) -> Result<(), Memory>
    ensures hits { OnOk result
        (hits.new.items ≡ hits.old.items ++ filter (is_hit from end) slots.now.slots) }
    ensures steps { steps.new
        ≤ steps.old + blocks_steps from end slots.now.slots (count_blocks slots.now.slots) }
{
    for number in 0..slots.blocks() {
        push_block_hits(hits, slots, number, from, end, steps)?;
    }
    Ok(())
}

// Adds at the end those of one block.
fn push_block_hits<L: Ledger>(
    hits: &mut Vec<Slot>,
    slots: &SlotList,
    number: usize,
    from: Minute,
    end: Minute,
    steps: &mut Steps<L>,
) -> Result<(), Memory>
    requires inside { number * 64 < length slots.now.slots }
    ensures hits { OnOk result
        (hits.new.items
        ≡ hits.old.items ++ filter (is_hit from end) (block slots.now.slots number)) }
    ensures steps { steps.new ≤ steps.old + block_steps from end (block slots.now.slots number) }
{
    let Some(slot) = slots.first_reached(number, from, end, steps) else {
        return Ok(());
    };
    push_hit(hits, slot, from, end)?;
    let count = slots.len();
    let first = number * BLOCK;
    for place in 1..(count - first).min(BLOCK) {
        push_hit(hits, slots.read(first + place, steps), from, end)?;
    }
    Ok(())
}

// Adds the slot at the end, if it has a minute in `from <= m < end`.
fn push_hit(hits: &mut Vec<Slot>, slot: Slot, from: Minute, end: Minute) -> Result<(), Memory>
    ensures hits { OnOk result
        (hits.new.items ≡ hits.old.items ++ filter (is_hit from end) (slot ∷ [])) }
{
    if is_hit(from, end, &slot) {
        hits.push(slot)?;
    }
    Ok(())
}

fn is_hit(from: Minute, end: Minute, slot: &Slot) -> bool
    ensures is { result ≡ is_hit from end slot.now }
{
    from.max(slot.from) < end.min(slot.end)
}
