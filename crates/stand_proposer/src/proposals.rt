// What is proposed for the parts of a plan that wait for a stand.
ghost use Rattle.std.specs.Prelude.{◌≡◌, ◌≤◌, All, IfOk, None, OnOk, length};
ghost use Rattle.visit_book.specs.Numbers.{IsNumbered};
ghost use Rattle.plan_core.specs.Drafts.{draft_version};
ghost use Rattle.stand_proposer.specs.Clauses.{ClashesHold, TakesDraft};
ghost use Rattle.stand_proposer.specs.Proposals.{IsDecided, IsProposal};
ghost use Rattle.stand_proposer.specs.SoFar.{AreTold, IsProposedSoFar, IsUnput, WaitsInPlan};

use crate::trials::{Tried, first_stand};
use apron_base::{Listed, Memory, Name, PartId, Slot, Steps};
use apron_rules::{Airport, Clash, UnfitBy};
use plan_core::Plan;
use plan_lists::unplaced_parts;
use std::alloc::Global;
use std::sync::ledger::Ledger;
use visit_book::{Edit, MAX_EDITS, PartRow, Visit, visit_at};

/// Why a part can't be put on a stand.
#[derive(Clone, Copy, Debug, PartialEq, Eq)]
pub enum Why {
    /// The type of its visit doesn't fit the stand.
    Unfit(UnfitBy),
    /// The type fits, but with the part there this is the first clash of the plan with the edits so
    /// far.
    Clash(Clash),
}

/// A part that no stand takes, and the reason of each stand, in order of number.
#[derive(Debug, Drop)]
pub struct Left {
    pub part: PartId,
    pub why: Listed<Why>,
}

/// A draft that puts waiting parts on stands, what it leaves out, and why.
#[derive(Debug, Drop)]
pub struct Proposal {
    /// The version of the plan over which it is made.
    pub base: u32,
    /// At most 64, in the order in which the parts were taken.
    pub edits: Listed<Edit>,
    /// The parts that no stand took when their turn came.
    pub left: Listed<Left>,
    /// The parts that were not tried, since there were 64 edits before them.
    pub over: Listed<PartId>,
}

// A proposal that grows, and the slots of its edits.
#[derive(Drop)]
struct Proposing {
    proposal: Proposal,
    slots: Listed<Slot>,
}

/// A first-fit draft for the parts of live visits that are on no stand. They are taken by rank: the
/// class of the visit, its scheduled minute on block, its number and the part decide, lower ones
/// first. Each part is put on the first stand, in order of number, that its type fits and on which
/// it clashes neither with the plan nor with a part put before it. After 64 edits the remaining
/// parts are left over, and can be tried in a later draft. The plan stays as it is. The edits can
/// be sent under the given desk and number. The only error is that memory ran out. The rule of
/// first fit is this project's own.
pub fn propose<L: Ledger>(
    alloc: Global,
    airport: &Airport,
    plan: &Plan,
    desk: &Name,
    draft: u32,
    steps: &mut Steps<L>,
) -> Result<Proposal, Memory>
    requires airport { airport.now ≡ plan.now.plan.airport }
    requires unused { draft_version plan.now.plan.drafts desk.now draft ≡ None }
    ensures proposal { IfOk result (IsProposal plan.now.plan) }
    ensures taken { IfOk result (λ made. 1 ≤ length made.edits → TakesDraft plan.now.plan
        (record { desk = desk.now; number = draft; base = made.base; edits = made.edits })) }
    ensures clashes { IfOk result (λ made. All (ClashesHold plan.now.plan made.edits) made.left) }
{
    let waiting = unplaced_parts(alloc, plan)?;
    let mut proposing = Proposing {
        proposal: Proposal {
            base: plan.version(),
            edits: Listed::new(alloc),
            left: Listed::new(alloc),
            over: Listed::new(alloc),
        },
        slots: Listed::new(alloc),
    };
    let rows = waiting.as_slice();
    let visits = plan.visits();
    for row in rows {
        add_part(alloc, airport, plan, visits, &mut proposing, row, steps)?;
    }
    Ok(proposing.proposal)
}

// Puts the part on the first stand that takes it, or says why none does, or that there are too many
// edits.
fn add_part<L: Ledger>(
    alloc: Global,
    airport: &Airport,
    plan: &Plan,
    visits: &[Visit],
    proposing: &mut Proposing,
    row: &PartRow,
    steps: &mut Steps<L>,
) -> Result<(), Memory>
    requires airport { airport.now ≡ plan.now.plan.airport }
    requires visits { visits.now ≡ plan.now.plan.visits }
    requires numbered { IsNumbered visits.now }
    requires waits { WaitsInPlan plan.now.plan row.now }
    requires unasked { IsUnput proposing.old.proposal.edits row.now.id }
    requires made { IsProposedSoFar plan.now.plan proposing.old.proposal.edits proposing.old.slots }
    requires told { AreTold plan.now.plan proposing.old.slots proposing.old.proposal.left }
    ensures decided { OnOk result
        (IsDecided plan.now.plan proposing.old.proposal row.now.id proposing.new.proposal) }
    ensures made { OnOk result
        (IsProposedSoFar plan.now.plan proposing.new.proposal.edits proposing.new.slots) }
    ensures told { OnOk result
        (AreTold plan.now.plan proposing.new.slots proposing.new.proposal.left) }
{
    let proposal = &mut proposing.proposal;
    if proposal.edits.len() >= MAX_EDITS {
        return proposal.over.push(row.id);
    }
    let visit = visit_at(visits, row.id.visit).unwrap();
    let slots = proposing.slots.as_slice();
    match first_stand(alloc, airport, plan.index(), slots, visit, row, steps)? {
        Tried::Fits(slot) => {
            proposal.edits.push(Edit::Put {
                visit: row.id.visit,
                part: row.id.part,
                stand: slot.stand,
            })?;
            proposing.slots.push(slot)
        }
        Tried::Refused(why) => proposal.left.push(Left { part: row.id, why }),
    }
}
