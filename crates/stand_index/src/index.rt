// The slots of all stands.
ghost use Rattle.std.specs.Prelude.{◌≡◌, ◌≤◌, ◌<◌, ◌+◌, All, IfOk, OnOk, length};
ghost use Rattle.stand_index.specs.Slots.{AddsSlot, HasMinutes, HasNoSlots, IsIndex, KeepsOrder, KeepsOtherStands, KeepsSlots, RemovesPart, at_stand, hits_of};
ghost use Rattle.stand_index.specs.Steps.{binary_digits, most_steps};

use crate::one_stand::OneStand;
use apron_base::{Memory, Minute, PartId, Slot, StandNo, Steps};
use std::alloc::Global;
use std::marker::Model;
use std::sync::ledger::Ledger;

/// The slots of each stand. Contracts see of each stand its planned slots, whose starts and ends
/// both rise strictly; its actual slots, by their start; and how many more of either kind can be
/// added without taking memory.
#[derive(Debug, Drop)]
pub struct StandIndex {
    stands: Vec<OneStand>,
}

impl Model for StandIndex {
    ghost use Rattle.std.specs.Prelude.{List};
    ghost use Rattle.stand_index.specs.Slots.{IsIndex, StandSlots};

    ghost Value = { List StandSlots };

    ghost view = { λ index. index.stands.items };

    ghost invariant = { λ index. IsIndex index.stands.items };
}

impl StandIndex {
    /// This many stands, each without a slot. The only error is a lack of memory.
    pub fn new(alloc: Global, stands: u16) -> Result<StandIndex, Memory>
        ensures stands { IfOk result (λ index. length index ≡ stands) }
        ensures none { IfOk result (All HasNoSlots) }
    {
        let mut all = Vec::new(alloc);
        for _stand in 0..stands {
            all.push(OneStand::new(alloc))?;
        }
        Ok(StandIndex { stands: all })
    }

    /// How many stands there are.
    pub fn stands(&self) -> usize
        ensures count { result ≡ length self.now }
        ensures index { IsIndex self.now }
    {
        self.stands.len()
    }

    /// Makes room for this many more slots of a stand, of either kind, by the allocator of `new`.
    /// `Err` if there is no memory; the slots are then as they were.
    pub fn reserve(&mut self, stand: StandNo, more: u32) -> Result<(), Memory>
        requires stand { stand.0 < length self.old }
        ensures slots { KeepsSlots (at_stand self.old stand) (at_stand self.new stand) }
        ensures ok { OnOk result (more ≤ (at_stand self.new stand).spare) }
        ensures others { KeepsOtherStands self.old self.new stand }
    {
        self.stands[stand.0 as usize].reserve(more as usize)
    }

    /// Adds a slot to its stand, by its start among those of its kind. It takes no memory.
    pub fn insert(&mut self, slot: Slot)
        requires stand { slot.stand.0 < length self.old }
        requires spare { 1 ≤ (at_stand self.old slot.stand).spare }
        requires minutes { HasMinutes slot }
        requires order { KeepsOrder slot (at_stand self.old slot.stand) }
        ensures slots { AddsSlot (at_stand self.old slot.stand)
            (at_stand self.new slot.stand) slot }
        ensures others { KeepsOtherStands self.old self.new slot.stand }
    {
        self.stands[slot.stand.0 as usize].insert(slot);
    }

    /// Removes the slots of a part from a stand, and leaves the others in their order. It takes no
    /// memory.
    pub fn remove(&mut self, stand: StandNo, part: PartId)
        requires stand { stand.0 < length self.old }
        ensures slots { RemovesPart (at_stand self.old stand) (at_stand self.new stand) part }
        ensures others { KeepsOtherStands self.old self.new stand }
    {
        self.stands[stand.0 as usize].remove(part);
    }

    /// The slots of a stand that have a minute in `from <= m < end`: the planned ones by their
    /// start, then the actual ones by theirs. Each slot that is looked at is a step, and so is each
    /// block of actual ones that is passed over. The only error is a lack of memory.
    pub fn hits<L: Ledger>(
        &self,
        alloc: Global,
        stand: StandNo,
        from: Minute,
        end: Minute,
        steps: &mut Steps<L>,
    ) -> Result<Vec<Slot>, Memory>
        requires stand { stand.0 < length self.now }
        ensures hits { IfOk result
            (λ hits. hits.items ≡ hits_of (at_stand self.now stand) from end) }
        ensures steps { steps.new ≤ steps.old + most_steps (at_stand self.now stand) from end }
        ensures bound { let slots = at_stand self.now stand in
            steps.new
            ≤ steps.old + binary_digits (length slots.planned) + 1
            + length (hits_of slots from end) + length slots.actual }
        ensures index { IsIndex self.now }
    {
        self.stands[stand.0 as usize].hits(alloc, from, end, steps)
    }
}
