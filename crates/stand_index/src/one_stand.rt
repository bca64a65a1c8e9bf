// The slots of one stand.
ghost use Rattle.std.specs.Prelude.{◌≡◌, ◌≤◌, ◌+◌, All, AllPairs, IfOk, OnOk};
ghost use Rattle.stand_index.specs.Slots.{AddsSlot, HasMinutes, HasNoSlots, IsEarlier, KeepsSlots, RemovesPart, hits_of};
ghost use Rattle.stand_index.specs.Steps.{most_steps};

use crate::search::{hits_of_rising, push_hits};
use crate::slot_list::SlotList;
use apron_base::{Memory, Minute, PartId, Slot, Steps};
use std::alloc::Global;
use std::marker::Model;
use std::sync::ledger::Ledger;

/// Slots of one stand, planned and actual ones, each by their start. Contracts also see how many
/// more of either kind can be added without taking memory.
#[derive(Debug, Drop)]
pub(crate) struct OneStand {
    planned: SlotList,
    actual: SlotList,
}

impl Model for OneStand {
    ghost use Rattle.std.specs.Prelude.{min};
    ghost use Rattle.stand_index.specs.Slots.{StandSlots};

    ghost Value = { StandSlots };

    ghost view = { λ slots. record {
      planned = slots.planned.slots;
      actual = slots.actual.slots;
      spare = min slots.planned.spare slots.actual.spare;
    } };
}

impl OneStand {
    /// No slots. It takes no memory.
    pub(crate) fn new(alloc: Global) -> OneStand
        ensures none { HasNoSlots result }
    {
        OneStand {
            planned: SlotList::new(alloc),
            actual: SlotList::new(alloc),
        }
    }

    /// Makes room for this many more, of either kind.
    pub(crate) fn reserve(&mut self, more: usize) -> Result<(), Memory>
        ensures slots { KeepsSlots self.old self.new }
        ensures ok { OnOk result (more ≤ self.new.spare) }
    {
        self.planned.reserve(more)?;
        self.actual.reserve(more)?;
        Ok(())
    }

    /// Adds a slot. It takes no memory.
    pub(crate) fn insert(&mut self, slot: Slot)
        requires spare { 1 ≤ self.old.spare }
        ensures slots { AddsSlot self.old self.new slot }
    {
        if slot.actual {
            self.actual.insert(slot);
        } else {
            self.planned.insert(slot);
        }
    }

    /// Removes the slots of a part. It takes no memory.
    pub(crate) fn remove(&mut self, part: PartId)
        ensures slots { RemovesPart self.old self.new part }
    {
        self.planned.remove(part);
        self.actual.remove(part);
    }

    /// The slots that have a minute in `from <= m < end`, the planned ones first.
    pub(crate) fn hits<L: Ledger>(
        &self,
        alloc: Global,
        from: Minute,
        end: Minute,
        steps: &mut Steps<L>,
    ) -> Result<Vec<Slot>, Memory>
        requires rise { AllPairs IsEarlier self.now.planned }
        requires minutes { All HasMinutes self.now.planned }
        ensures hits { IfOk result (λ hits. hits.items ≡ hits_of self.now from end) }
        ensures steps { steps.new ≤ steps.old + most_steps self.now from end }
    {
        let mut hits = hits_of_rising(alloc, &self.planned, from, end, steps)?;
        push_hits(&mut hits, &self.actual, from, end, steps)?;
        Ok(hits)
    }
}
