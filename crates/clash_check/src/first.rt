// The first clash of all, if only what changed can clash.
ghost use Rattle.std.specs.Prelude.{◌≡◌, ◌≤◌, ◌+◌, ◌++◌, [], All, IfOk};
ghost use Rattle.apron_rules.specs.Clash.{IsFirstClash, IsSlotOf};
ghost use Rattle.clash_check.specs.Clear.{IsClear, others_of};
ghost use Rattle.clash_check.specs.Indexed.{all_slots};
ghost use Rattle.clash_check.specs.Steps.{steps_of};

use crate::near::first_with;
use apron_base::{Memory, Slot, Steps, VisitNo};
use apron_rules::{Airport, Clash, sooner};
use stand_index::StandIndex;
use std::alloc::Global;
use std::sync::ledger::Ledger;

/// The first clash that isn't between two actual parts, over the slots of the index and the changed
/// ones together: the least by minute, then by the smaller part, then by the greater one. The only
/// error is a lack of memory.
pub fn first_clash<L: Ledger>(
    alloc: Global,
    airport: &Airport,
    index: &StandIndex,
    changed: &[Slot],
    steps: &mut Steps<L>,
) -> Result<Option<Clash>, Memory>
    requires clear { IsClear airport.now index.now [] }
    requires changed { All (IsSlotOf airport.now) changed.now }
    ensures first { IfOk result (IsFirstClash airport.now (all_slots index.now ++ changed.now)) }
    ensures steps { steps.new ≤ steps.old + steps_of airport.now index.now changed.now }
{
    first_clash_without(alloc, airport, index, &[], changed, steps)
}

/// The same, leaving out the slots in the index of some visits. Slots of these visits among the
/// changed ones do count.
pub fn first_clash_without<L: Ledger>(
    alloc: Global,
    airport: &Airport,
    index: &StandIndex,
    without: &[VisitNo],
    changed: &[Slot],
    steps: &mut Steps<L>,
) -> Result<Option<Clash>, Memory>
    requires clear { IsClear airport.now index.now without.now }
    requires changed { All (IsSlotOf airport.now) changed.now }
    ensures first { IfOk result
        (IsFirstClash airport.now (others_of index.now without.now ++ changed.now)) }
    ensures steps { steps.new ≤ steps.old + steps_of airport.now index.now changed.now }
{
    let mut first = None;
    for place in 0..changed.len() {
        let slot = &changed[place];
        let found = first_with(
            alloc,
            airport,
            index,
            without,
            &changed[..place],
            slot,
            steps,
        )?;
        first = sooner(first, found);
    }
    Ok(first)
}
