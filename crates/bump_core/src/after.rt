// The visits as they will be, by what blocks their parts.
ghost use Rattle.std.specs.Prelude.{◌≡◌, ◌≤◌, ◌∷◌, ◌||◌, ◌==◌, [], ℕ, Bool, IfOk, OnOk, filter, fold, length, map};
ghost use Rattle.bump_core.specs.Lists.{after_by, changes_by, is_of, part_by, touched_visits, visit_by};
ghost use Rattle.bump_core.specs.Settle.{best, place_after, with_better};

use crate::lists::{blocks_before, is_of};
use crate::ranks::Conflict;
use apron_base::{Memory, PartId, StandNo, VisitNo};
use plan_core::{Plan, add_visit_once};
use std::alloc::Global;
use visit_book::{Bump, Part, Place, Visit};

/// The visit by what blocks its parts.
pub(crate) fn visit_by(entry: u32, blockings: &[Conflict], visit: &Visit) -> Visit
    ensures is { result ≡ visit_by entry blockings.now visit.now }
{
    let own = visit.parts.as_slice();
    let mut parts = visit.parts;
    for index in 0..own.len() {
        let number = index as u8 + 1;
        let id = PartId {
            visit: visit.number,
            part: number,
        };
        parts = parts.with(number, part_by(entry, blockings, id, &own[index]));
    }
    Visit { parts, ..*visit }
}

fn part_by(entry: u32, blockings: &[Conflict], id: PartId, part: &Part) -> Part
    ensures is { result ≡ part_by entry blockings.now id part.now }
{
    match part.place {
        Place::Planned(stand) => Part {
            place: place_after(entry, stand, best_of(blockings, id)),
            ..*part
        },
        _ => *part,
    }
}

fn place_after(entry: u32, stand: StandNo, blocking: Option<Conflict>) -> Place
    ensures is { result ≡ place_after entry stand blocking }
{
    match blocking {
        Some(blocking) => Place::Unplaced(Some(Bump {
            stand,
            entry,
            blocker: blocking.blocker.slot.part,
            minute: blocking.minute,
            rule: blocking.rule,
        })),
        None => Place::Planned(stand),
    }
}

// What blocks the part with the best blocker.
fn best_of(blockings: &[Conflict], id: PartId) -> Option<Conflict>
    ensures is { result ≡ best (filter (is_of id) blockings.now) }
{
    let mut best = None;
    for blocking in blockings {
        best = better_of(best, blocking, id);
    }
    best
}

fn better_of(best: Option<Conflict>, blocking: &Conflict, id: PartId) -> Option<Conflict>
    ensures is { result ≡ fold with_better best (filter (is_of id) (blocking.now ∷ [])) }
{
    if !is_of(id, blocking) {
        return best;
    }
    match best {
        Some(best) => {
            if blocks_before(&blocking.blocker, &best.blocker) {
                Some(*blocking)
            } else {
                Some(best)
            }
        }
        None => Some(*blocking),
    }
}

/// The visits that change, as they will be, in order of number. It looks at no others.
pub(crate) fn changes_by(
    alloc: Global,
    entry: u32,
    new: &Visit,
    blockings: &[Conflict],
    plan: &Plan,
) -> Result<Vec<Visit>, Memory>
    ensures ok { IfOk result
        (λ changes. changes.items ≡ changes_by entry new.now blockings.now plan.now.plan.visits) }
{
    let mut changes = touched_visits(alloc, blockings, new.number, plan)?;
    put_after(entry, new, blockings, changes.as_mut_slice());
    Ok(changes)
}

// The visits that change, as they are, in order of number.
fn touched_visits(
    alloc: Global,
    blockings: &[Conflict],
    changed: VisitNo,
    plan: &Plan,
) -> Result<Vec<Visit>, Memory>
    ensures ok { IfOk result
        (λ some. some.items ≡ touched_visits blockings.now changed plan.now.plan.visits) }
{
    let mut some = Vec::new(alloc);
    add_numbered(&mut some, plan, changed)?;
    for blocking in blockings {
        add_numbered(&mut some, plan, blocking.blocked.slot.part.visit)?;
    }
    Ok(some)
}

// Adds the visit of this number in its place, if it exists and isn't there yet.
fn add_numbered(some: &mut Vec<Visit>, plan: &Plan, number: VisitNo) -> Result<(), Memory>
    ensures ok { let visits = plan.now.plan.visits in OnOk result
        ((test : ℕ → Bool)
        → some.old.items ≡ filter (λ visit. test visit.number.0) visits
        → some.new.items
        ≡ filter (λ visit. test visit.number.0 || number.0 == visit.number.0) visits) }
{
    let _known = plan.visits();
    if let Some(visit) = plan.visit(number) {
        add_visit_once(some, *visit)?;
    }
    Ok(())
}

// Turns each of the visits into what it will be.
fn put_after(entry: u32, new: &Visit, blockings: &[Conflict], visits: &mut [Visit])
    ensures is { visits.new ≡ map (after_by entry new.now blockings.now) visits.old }
{
    for visit in visits {
        *visit = after_by(entry, new, blockings, visit);
    }
}

fn after_by(entry: u32, new: &Visit, blockings: &[Conflict], visit: &Visit) -> Visit
    ensures is { result ≡ after_by entry new.now blockings.now visit.now }
{
    if visit.number.0 == new.number.0 {
        *new
    } else {
        visit_by(entry, blockings, visit)
    }
}
