// The lists from which settling near a changed visit is decided.
ghost use Rattle.std.specs.Prelude.{◌≡◌, ◌++◌, ◌∷◌, [], IfOk, OnOk, filter, filter_map, map, not, option_to_list};
ghost use Rattle.visit_book.specs.WellFormed.{IsWellFormed};
ghost use Rattle.bump_core.specs.Lists.{against_others, against_own, by_other, by_own, is_blocked, is_of, is_same_part, is_taken, kept_clash_at, part_called, part_on, takes};
ghost use Rattle.bump_core.specs.Ranks.{blocks_before, may_block, parts_on, ranked_part};

use crate::ranks::{Conflict, KeptClash, Ranked};
use apron_base::{Listed, Memory, PartId, Slot};
use apron_rules::{Airport, Clash};
use plan_core::Plan;
use std::alloc::Global;
use visit_book::{Visit, slot_of};

/// Whether a part ranks before another: an actual one before a planned one, then by class, by the
/// scheduled minute on block, by visit and by part.
pub(crate) fn blocks_before(part: &Ranked, other: &Ranked) -> bool
    ensures is { result ≡ blocks_before part.now other.now }
{
    if part.slot.actual != other.slot.actual {
        part.slot.actual
    } else if part.class != other.class {
        part.class < other.class
    } else if part.on != other.on {
        part.on < other.on
    } else if part.slot.part.visit.0 != other.slot.part.visit.0 {
        part.slot.part.visit.0 < other.slot.part.visit.0
    } else {
        part.slot.part.part < other.slot.part.part
    }
}

// Whether the second part is planned and the first is better.
fn may_block(part: &Ranked, other: &Ranked) -> bool
    ensures is { result ≡ may_block part.now other.now }
{
    !other.slot.actual && blocks_before(part, other)
}

fn is_same_part(part: PartId, other: PartId) -> bool
    ensures is { result ≡ is_same_part part other }
{
    part.visit.0 == other.visit.0 && part.part == other.part
}

/// The parts of a visit that are on stands.
pub(crate) fn parts_on(
    alloc: Global,
    airport: &Airport,
    visit: &Visit,
) -> Result<Listed<Ranked>, Memory>
    requires valid { IsWellFormed airport.now visit.now }
    ensures ok { IfOk result (λ found. found ≡ parts_on airport.now visit.now) }
{
    let mut found = Listed::new(alloc);
    let parts = visit.parts.as_slice();
    for index in 0..parts.len() {
        push_ranked(
            &mut found,
            visit,
            slot_of(airport, visit, index as u8 + 1, &parts[index]),
        )?;
    }
    Ok(found)
}

// Adds the part in this slot at the end, if there is one.
fn push_ranked(found: &mut Listed<Ranked>, visit: &Visit, slot: Option<Slot>) -> Result<(), Memory>
    ensures ok { OnOk result
        (found.new ≡ found.old ++ map (ranked_part visit.now) (option_to_list slot)) }
{
    match slot {
        Some(slot) => found.push(ranked_part(visit, slot)),
        None => Ok(()),
    }
}

fn ranked_part(visit: &Visit, slot: Slot) -> Ranked
    ensures is { result ≡ ranked_part visit.now slot }
{
    Ranked {
        class: visit.class,
        on: visit.on,
        slot,
    }
}

// The part of this number of the visit, if it is on a stand.
fn part_on(airport: &Airport, visit: &Visit, number: u8) -> Option<Ranked>
    requires valid { IsWellFormed airport.now visit.now }
    ensures is { result ≡ part_on airport.now visit.now number }
{
    let part = visit.parts.get(number)?;
    let slot = slot_of(airport, visit, number, &part)?;
    Some(ranked_part(visit, slot))
}

// The part of these numbers, if it is on a stand.
fn part_called(airport: &Airport, plan: &Plan, id: PartId) -> Option<Ranked>
    requires airport { airport.now ≡ plan.now.plan.airport }
    ensures is { result ≡ part_called airport.now plan.now.plan.visits id }
{
    let _known = plan.visits();
    let visit = plan.visit(id.visit)?;
    part_on(airport, visit, id.part)
}

/// The clash of an own part with another, from the clash of their slots.
pub(crate) fn kept_clash_at(
    airport: &Airport,
    plan: &Plan,
    own: &Ranked,
    clash: &Clash,
) -> Option<KeptClash>
    requires airport { airport.now ≡ plan.now.plan.airport }
    ensures is { result ≡ kept_clash_at airport.now plan.now.plan.visits own.now clash.now }
{
    match part_called(airport, plan, clash.b) {
        Some(other) => Some(KeptClash {
            own: *own,
            other,
            minute: clash.minute,
            rule: clash.rule,
        }),
        None => None,
    }
}

fn by_other(met: &KeptClash) -> Option<Conflict>
    ensures is { result ≡ by_other met.now }
{
    if may_block(&met.other, &met.own) {
        Some(Conflict {
            blocker: met.other,
            blocked: met.own,
            minute: met.minute,
            rule: met.rule,
        })
    } else {
        None
    }
}

fn by_own(met: &KeptClash) -> Option<Conflict>
    ensures is { result ≡ by_own met.now }
{
    if may_block(&met.own, &met.other) {
        Some(Conflict {
            blocker: met.own,
            blocked: met.other,
            minute: met.minute,
            rule: met.rule,
        })
    } else {
        None
    }
}

fn takes(met: &KeptClash, other: &Ranked) -> bool
    ensures is { result ≡ takes other.now met.now }
{
    met.own.slot.actual
        && may_block(&met.own, &met.other)
        && is_same_part(other.slot.part, met.other.slot.part)
}

fn is_taken(mets: &[KeptClash], other: &Ranked) -> bool
    ensures is { result ≡ is_taken mets.now other.now }
{
    mets.iter().any(|met| takes(met, other))
}

/// What blocks own parts, of those that no actual own part blocks.
pub(crate) fn against_own(alloc: Global, mets: &[KeptClash]) -> Result<Listed<Conflict>, Memory>
    ensures ok { IfOk result (λ blockings. blockings ≡ against_own mets.now) }
{
    let taking = by_actual(alloc, mets)?;
    let mut blockings = Listed::new(alloc);
    for met in mets {
        push_unless_taken(&mut blockings, taking.as_slice(), met)?;
    }
    Ok(blockings)
}

// The clashes of actual own parts.
fn by_actual(alloc: Global, mets: &[KeptClash]) -> Result<Listed<KeptClash>, Memory>
    ensures ok { IfOk result (λ found. found ≡ filter (λ met. met.own.slot.actual) mets.now) }
{
    let mut found = Listed::new(alloc);
    for met in mets {
        if met.own.slot.actual {
            found.push(*met)?;
        }
    }
    Ok(found)
}

// Adds what blocks the own part of a clash, unless one of these takes the other part.
fn push_unless_taken(
    blockings: &mut Listed<Conflict>,
    mets: &[KeptClash],
    met: &KeptClash,
) -> Result<(), Memory>
    ensures ok { OnOk result
        (blockings.new
        ≡ blockings.old
        ++ filter_map by_other
        (filter (λ met. not (is_taken mets.now met.other)) (met.now ∷ []))) }
{
    let blocking = by_other(met);
    if blocking.is_some() && is_taken(mets, &met.other) {
        Ok(())
    } else {
        push_conflict(blockings, blocking)
    }
}

fn push_conflict(blockings: &mut Listed<Conflict>, blocking: Option<Conflict>) -> Result<(), Memory>
    ensures ok { OnOk result (blockings.new ≡ blockings.old ++ option_to_list blocking) }
{
    match blocking {
        Some(blocking) => blockings.push(blocking),
        None => Ok(()),
    }
}

/// Whether it is the part that is blocked.
pub(crate) fn is_of(id: PartId, blocking: &Conflict) -> bool
    ensures is { result ≡ is_of id blocking.now }
{
    is_same_part(id, blocking.blocked.slot.part)
}

fn is_blocked(blockings: &[Conflict], id: PartId) -> bool
    ensures is { result ≡ is_blocked blockings.now id }
{
    blockings.iter().any(|blocking| is_of(id, blocking))
}

/// What own parts block, of those that nothing blocks.
pub(crate) fn against_others(
    alloc: Global,
    mets: &[KeptClash],
    own: &[Conflict],
) -> Result<Listed<Conflict>, Memory>
    ensures ok { IfOk result (λ blockings. blockings ≡ against_others mets.now own.now) }
{
    let mut blockings = Listed::new(alloc);
    for met in mets {
        push_unless_blocked(&mut blockings, own, met)?;
    }
    Ok(blockings)
}

fn push_unless_blocked(
    blockings: &mut Listed<Conflict>,
    own: &[Conflict],
    met: &KeptClash,
) -> Result<(), Memory>
    ensures ok { OnOk result
        (blockings.new
        ≡ blockings.old
        ++ filter_map by_own
        (filter (λ met. not (is_blocked own.now met.own.slot.part)) (met.now ∷ []))) }
{
    let blocking = by_own(met);
    if blocking.is_some() && is_blocked(own, met.own.slot.part) {
        Ok(())
    } else {
        push_conflict(blockings, blocking)
    }
}
