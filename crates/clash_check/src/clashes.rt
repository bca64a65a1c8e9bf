// All clashes of one slot.
ghost use Rattle.std.specs.Prelude.{◌≡◌, ◌≤◌, ◌+◌, ◌-◌, ◌++◌, [], All, IfOk, OnOk, option_to_list};
ghost use Rattle.apron_rules.specs.Clash.{IsSlotOf};
ghost use Rattle.clash_check.specs.Clear.{IsClear};
ghost use Rattle.clash_check.specs.Indexed.{all_slots};
ghost use Rattle.clash_check.specs.Meetings.{by_part, clash_within, clashes_with, clashes_within};
ghost use Rattle.clash_check.specs.Steps.{steps_near, steps_within};

use apron_base::{Listed, Memory, Minute, Slot, Steps};
use apron_rules::{Airport, Clash, first_meeting};
use stand_index::StandIndex;
use std::alloc::Global;
use std::sync::ledger::Ledger;

/// The slots of the index that clash with this one, actual ones with actual ones too: for each, the
/// first minute and the rule of that minute, in order of its part, which is `b`. Slots of the same
/// visit are not among these. The only error is a lack of memory.
pub fn clashes_of<L: Ledger>(
    alloc: Global,
    airport: &Airport,
    index: &StandIndex,
    slot: &Slot,
    steps: &mut Steps<L>,
) -> Result<Listed<Clash>, Memory>
    requires clear { IsClear airport.now index.now [] }
    requires slot { IsSlotOf airport.now slot.now }
    ensures clashes { IfOk result (λ clashes. clashes ≡
        clashes_with airport.now slot.now (by_part (all_slots index.now))) }
    ensures steps { steps.new ≤ steps.old + steps_near airport.now index.now slot.now }
{
    clashes_within(alloc, airport, index, slot, 0, slot.end, steps)
}

/// The slots of the index that clash with this one at a minute from `from` to below `end`: for
/// each, the first of these minutes and the rule of that minute, in order of its part, which is
/// `b`. The only error is a lack of memory.
pub fn clashes_within<L: Ledger>(
    alloc: Global,
    airport: &Airport,
    index: &StandIndex,
    slot: &Slot,
    from: Minute,
    end: Minute,
    steps: &mut Steps<L>,
) -> Result<Listed<Clash>, Memory>
    requires clear { IsClear airport.now index.now [] }
    requires slot { IsSlotOf airport.now slot.now }
    ensures clashes { IfOk result (λ clashes. clashes ≡
        clashes_within airport.now slot.now from (end - from) (by_part (all_slots index.now))) }
    ensures steps { steps.new ≤ steps.old + steps_within airport.now index.now slot.now from end }
{
    let mut clashes = clashes_near(alloc, airport, index, slot, from, end, steps)?;
    clashes.sort_unstable_by_key(|clash| clash.b);
    Ok(Listed::from_vec(clashes))
}

// The same by stands, in the order in which the index has them.
fn clashes_near<L: Ledger>(
    alloc: Global,
    airport: &Airport,
    index: &StandIndex,
    slot: &Slot,
    from: Minute,
    end: Minute,
    steps: &mut Steps<L>,
) -> Result<Vec<Clash>, Memory>
    requires clear { IsClear airport.now index.now [] }
    requires slot { IsSlotOf airport.now slot.now }
    ensures clashes { IfOk result (λ clashes. clashes.items ≡
        clashes_within airport.now slot.now from (end - from) (all_slots index.now)) }
    ensures steps { steps.new ≤ steps.old + steps_within airport.now index.now slot.now from end }
{
    let neighbours = airport.neighbours(slot.stand);
    let first = from.max(slot.from);
    let last = end.min(slot.end);
    let mut clashes = Vec::new(alloc);
    for place in 0..neighbours.len() {
        let hits = index.hits(alloc, neighbours[place], first, last, steps)?;
        push_clashes(airport, &mut clashes, slot, &hits, from, end)?;
    }
    Ok(clashes)
}

// Adds at the end the clashes of a slot with some others at these minutes.
fn push_clashes(
    airport: &Airport,
    clashes: &mut Vec<Clash>,
    slot: &Slot,
    others: &[Slot],
    from: Minute,
    end: Minute,
) -> Result<(), Memory>
    requires slot { IsSlotOf airport.now slot.now }
    requires others { All (IsSlotOf airport.now) others.now }
    ensures clashes { OnOk result (clashes.new.items ≡
        clashes.old.items ++ clashes_within airport.now slot.now from (end - from) others.now) }
{
    for other in others {
        push_found(clashes, clash_within(airport, slot, other, from, end))?;
    }
    Ok(())
}

// Adds the clash at the end, if there is one.
fn push_found(clashes: &mut Vec<Clash>, clash: Option<Clash>) -> Result<(), Memory>
    ensures pushed { OnOk result (clashes.new.items ≡ clashes.old.items ++ option_to_list clash) }
{
    if let Some(clash) = clash {
        clashes.push(clash)?;
    }
    Ok(())
}

// The clash of a slot with another at the first minute of these at which they clash, if there is
// one.
fn clash_within(
    airport: &Airport,
    slot: &Slot,
    other: &Slot,
    from: Minute,
    end: Minute,
) -> Option<Clash>
    requires slot { IsSlotOf airport.now slot.now }
    requires other { IsSlotOf airport.now other.now }
    ensures is { result ≡ clash_within airport.now slot.now from (end - from) other.now }
{
    match first_meeting(airport, slot, other, from, end) {
        Some(at) => Some(Clash {
            minute: at.minute,
            a: slot.part,
            b: other.part,
            rule: at.rule,
        }),
        None => None,
    }
}
