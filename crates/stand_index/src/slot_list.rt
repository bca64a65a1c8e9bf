// Slots of one kind on one stand.
ghost use Rattle.std.specs.Prelude.{◌≡◌, ◌≤◌, ◌<◌, ◌+◌, ◌*◌, [], ℕ, IfSome, OnOk, is_some, length, slice_index, slice_index_or, take, vec_len, vec_capacity};
ghost use Rattle.apron_base.specs.declared.slot.Slot.{Slot};
ghost use Rattle.stand_index.specs.Blocks.{AreLastEnds, IsLastEnd, block, is_reached};
ghost use Rattle.stand_index.specs.Slots.{IsByStart, insert_by_start, is_of_part, remove_part};

use apron_base::{Memory, Minute, PartId, Slot, Steps};
use std::alloc::Global;
use std::marker::Model;
use std::sync::ledger::Ledger;

/// How many slots a block has. The last one may have fewer.
pub(crate) const BLOCK: usize = 64;

/// Slots by their start, and for each block of them when its last one ends. The one way to read a
/// slot counts a step, and so does the one way to find that a block is not reached. Contracts also
/// see how many more slots can be added without taking memory.
#[derive(Debug, Drop)]
pub(crate) struct SlotList {
    slots: Vec<Slot>,
    ends: Vec<Minute>,
}

impl Model for SlotList {
    ghost use Rattle.std.specs.Prelude.{◌-◌, min, vec_capacity, vec_len};
    ghost use Rattle.stand_index.specs.Blocks.{AreInBlocks};
    ghost use Rattle.stand_index.specs.Slots.{SlotsWithRoom};

    ghost Value = { SlotsWithRoom };

    ghost view = { λ list. record {
      slots = list.slots.items;
      spare = min (vec_capacity list.slots - vec_len list.slots)
          (vec_capacity list.ends - vec_len list.ends);
    } };

    ghost invariant = { λ list. AreInBlocks list.slots.items list.ends.items };
}

impl SlotList {
    /// No slots. It takes no memory.
    pub(crate) fn new(alloc: Global) -> SlotList
        ensures none { result.slots ≡ [] }
    {
        SlotList {
            slots: Vec::new(alloc),
            ends: Vec::new(alloc),
        }
    }

    /// Makes room for this many more.
    pub(crate) fn reserve(&mut self, more: usize) -> Result<(), Memory>
        ensures slots { self.new.slots ≡ self.old.slots }
        ensures spare { self.old.spare ≤ self.new.spare }
        ensures ok { OnOk result (more ≤ self.new.spare) }
    {
        self.slots.reserve(more)?;
        self.ends.reserve(more)?;
        Ok(())
    }

    /// Adds a slot by its start. It takes no memory.
    pub(crate) fn insert(&mut self, slot: Slot)
        requires spare { 1 ≤ self.old.spare }
        ensures slots { self.new.slots ≡ insert_by_start slot self.old.slots }
        ensures spare { self.old.spare ≤ self.new.spare + 1 }
    {
        let place = insert_by_start(&mut self.slots, slot);
        put_ends(&self.slots, place / BLOCK, &mut self.ends);
    }

    /// Removes the slots of a part, and leaves the others in their order. It takes no memory.
    pub(crate) fn remove(&mut self, part: PartId)
        ensures slots { self.new.slots ≡ remove_part part self.old.slots }
        ensures spare { self.old.spare ≤ self.new.spare }
    {
        remove_part(&mut self.slots, part);
        put_ends(&self.slots, 0, &mut self.ends);
    }

    /// How many slots there are.
    pub(crate) fn len(&self) -> usize
        ensures count { result ≡ length self.now.slots }
    {
        self.slots.len()
    }

    /// The slot at this place, counted from 0. It is a step.
    pub(crate) fn read<L: Ledger>(&self, place: usize, steps: &mut Steps<L>) -> Slot
        requires inside { place < length self.now.slots }
        ensures slot { (default : Slot) → result ≡ slice_index_or self.now.slots place default }
        ensures step { steps.new ≡ steps.old + 1 }
    {
        steps.tick();
        self.slots[place]
    }

    /// How many blocks there are.
    pub(crate) fn blocks(&self) -> usize
        ensures whole { length self.now.slots ≤ result * 64 }
        ensures last { result * 64 < length self.now.slots + 64 }
    {
        self.ends.len()
    }

    /// The first slot of this block, counted from 0, if one of the block's slots starts before
    /// `end`, and one ends after `from`. It is a step.
    pub(crate) fn first_reached<L: Ledger>(
        &self,
        number: usize,
        from: Minute,
        end: Minute,
        steps: &mut Steps<L>,
    ) -> Option<Slot>
        requires inside { number * 64 < length self.now.slots }
        ensures reached { is_some result ≡ is_reached from end (block self.now.slots number) }
        ensures first { IfSome result (λ slot. (default : Slot)
            → slot ≡ slice_index_or self.now.slots (number * 64) default) }
        ensures step { steps.new ≡ steps.old + 1 }
    {
        steps.tick();
        if !self.reaches(number, from, end) {
            return None;
        }
        Some(self.slots[number * BLOCK])
    }

    // Whether a slot of this block starts before `end`, and one ends after `from`.
    fn reaches(&self, number: usize, from: Minute, end: Minute) -> bool
        requires inside { number * 64 < length self.now.slots }
        ensures is { result ≡ is_reached from end (block self.now.slots number) }
    {
        let starts = self.slots[number * BLOCK].from < end;
        starts && from < self.ends[number]
    }
}

// Puts a slot before the first that doesn't start earlier, and gives its place. There is room for
// it.
fn insert_by_start(slots: &mut Vec<Slot>, slot: Slot) -> usize
    requires room { vec_len slots.old < vec_capacity slots.old }
    requires order { IsByStart slots.old.items }
    ensures items { slots.new.items ≡ insert_by_start slot slots.old.items }
    ensures place { result ≤ length slots.old.items }
    ensures front { take result slots.new.items ≡ take result slots.old.items }
    ensures len { vec_len slots.new ≡ vec_len slots.old + 1 }
    ensures capacity { vec_capacity slots.new ≡ vec_capacity slots.old }
{
    let place = slots.partition_point(|other| other.from < slot.from);
    let put: Result<_, _> = slots.insert(place, slot);
    let _ = put.unwrap();
    place
}

// Removes the slots of a part, and leaves the others in their order.
fn remove_part(slots: &mut Vec<Slot>, part: PartId)
    ensures items { slots.new.items ≡ remove_part part slots.old.items }
    ensures len { vec_len slots.new ≤ vec_len slots.old }
    ensures capacity { vec_capacity slots.new ≡ vec_capacity slots.old }
{
    slots.retain(|slot| !is_of_part(part, slot));
}

fn is_of_part(part: PartId, slot: &Slot) -> bool
    ensures is { result ≡ is_of_part part slot.now }
{
    slot.part == part
}

// Works out when the blocks from this one on end. There is room for them.
fn put_ends(slots: &[Slot], first: usize, ends: &mut Vec<Minute>)
    requires first { first * 64 ≤ length slots.now }
    requires old { first ≤ length ends.old.items }
    requires ends { (number : ℕ)
        → number < first
        → IsLastEnd (block slots.now number) (slice_index ends.old.items number) }
    requires room { length slots.now ≤ vec_capacity ends.old * 64 }
    ensures whole { length slots.now ≤ length ends.new.items * 64 }
    ensures last { length ends.new.items * 64 < length slots.now + 64 }
    ensures ends { AreLastEnds slots.now ends.new.items }
    ensures capacity { vec_capacity ends.new ≡ vec_capacity ends.old }
{
    ends.truncate(first);
    let mut rest = &slots[first * BLOCK..];
    while !rest.is_empty() {
        let (block, more) = rest.split_at(rest.len().min(BLOCK));
        ends.push_reserved(last_end(block));
        rest = more;
    }
}

fn last_end(slots: &[Slot]) -> Minute
    ensures is { IsLastEnd slots.now result }
{
    let mut last = 0;
    for slot in slots {
        last = last.max(slot.end);
    }
    last
}
