// What is printed for a desk's draft at a plan.
ghost use Rattle.std.specs.Prelude.{◌≡◌, ◌<◌, IfOk, None};
ghost use Rattle.plan_core.specs.Drafts.{draft_version};
ghost use Rattle.proposal_text.specs.Lines.{IsDraftText, IsProposalText, used_text};

use crate::lines::push_proposal;
use apron_base::{Listed, Memory, Name, Steps};
use apron_rules::Airport;
use plan_core::Plan;
use stand_proposer::propose;
use std::alloc::Global;
use std::marker::Brand;
use std::sync::ledger::{Blank, Ledger};

/// What is printed for a draft of a desk: the line `draft used` if a commit of the plan is of this
/// draft, and otherwise the lines of a proposal over the plan. All lines end with a line feed. The
/// plan stays as it is. At `Err` memory has run out. The form is this project's own.
pub fn draft_text(
    alloc: Global,
    airport: &Airport,
    plan: &Plan,
    desk: &Name,
    draft: u32,
) -> Result<Listed<u8>, Memory>
    requires airport { airport.now ≡ plan.now.plan.airport }
    ensures text { IfOk result
        (IsDraftText plan.now.plan (draft_version plan.now.plan.drafts desk.now draft)) }
{
    match plan.draft(desk, draft) {
        Some(_) => used_text(alloc),
        None => proposal_over::<Brand>(alloc, airport, plan, desk, draft, Blank::new(1)),
    }
}

fn used_text(alloc: Global) -> Result<Listed<u8>, Memory>
    ensures text { IfOk result (λ text. text ≡ used_text) }
{
    let text = Vec::from_slice(alloc, b"draft used\n")?;
    Ok(Listed::from_vec(text))
}

// The lines of a proposal over the plan. Nobody reads the count of the steps of its looks into the
// plan's index.
fn proposal_over<L: Ledger>(
    alloc: Global,
    airport: &Airport,
    plan: &Plan,
    desk: &Name,
    draft: u32,
    blank: Blank,
) -> Result<Listed<u8>, Memory>
    requires airport { airport.now ≡ plan.now.plan.airport }
    requires unused { draft_version plan.now.plan.drafts desk.now draft ≡ None }
    requires name { blank.name ≡ L.name }
    requires parts { blank.parts ≡ L.parts }
    requires open { 0 < L.parts }
    ensures text { IfOk result (IsProposalText plan.now.plan) }
{
    let mut steps = Steps::<L>::new(blank);
    let proposal = propose(alloc, airport, plan, desk, draft, &mut steps)?;
    let mut text = Vec::new(alloc);
    push_proposal(&mut text, airport.parts(), &proposal)?;
    Ok(Listed::from_vec(text))
}
