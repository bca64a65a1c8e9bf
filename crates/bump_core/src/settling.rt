// Settling near the changed visit.
ghost use Rattle.std.specs.Prelude.{◌≡◌, ◌≤◌, ◌<◌, ◌+◌, ◌++◌, All, IfOk, IfSome, OnOk, Some, filter_map, option_map, option_to_list, sum_by};
ghost use Rattle.apron_rules.specs.Clash.{IsSlotOf};
ghost use Rattle.clash_check.specs.Steps.{steps_near};
ghost use Rattle.plan_core.specs.PlanState.{IsInstallable, plan_after_change, version_limit};
ghost use Rattle.visit_book.specs.Slots.{slots_of_visit};
ghost use Rattle.visit_book.specs.WellFormed.{IsWellFormed};
ghost use Rattle.bump_core.specs.Bumped.{bumped_by};
ghost use Rattle.bump_core.specs.Kept.{AreChanges};
ghost use Rattle.bump_core.specs.Lists.{changes_near, kept_clash_at, kept_clashes, kept_clashes_of_part};
ghost use Rattle.bump_core.specs.Ranks.{all_parts_on};
ghost use Rattle.bump_core.specs.Settled.{IsChanged, IsChangedBy, settle_steps, with_settled};

use crate::after::{changes_by, visit_by};
use crate::lists::{against_others, against_own, kept_clash_at, parts_on};
use crate::ranks::{KeptClash, Ranked};
use apron_base::{Listed, Memory, Steps};
use apron_rules::{Airport, Clash};
use clash_check::clashes_of;
use plan_core::{Change, Plan};
use std::alloc::Global;
use std::sync::ledger::Ledger;
use visit_book::Visit;

/// The change of the plan's next entry, which puts in this changed visit, if there is one: this
/// visit and those that lose stands by it, in order of number. `Err` if there is no memory. The
/// plan stays as it is.
pub fn settle<L: Ledger>(
    alloc: Global,
    airport: &Airport,
    plan: &Plan,
    changed: Option<&Visit>,
    steps: &mut Steps<L>,
) -> Result<Change, Memory>
    requires airport { airport.now ≡ plan.now.plan.airport }
    requires changed { IfSome changed (λ visit. IsChanged plan.now.plan visit.now) }
    ensures settled { IfOk result (λ change. plan_after_change plan.now.plan change
        ≡ with_settled plan.now.plan (option_map (λ visit. visit.now) changed.entry)) }
    ensures fits { IfOk result
        (λ change. plan.now.plan.version + 1 < version_limit → IsInstallable plan.now.plan change) }
    ensures changes { IfOk result (λ change. All
        (IsChangedBy (plan.now.plan.version + 1) (option_map (λ visit. visit.now) changed.entry))
        change.visits) }
    ensures steps { steps.new
        ≤ steps.old
        + settle_steps plan.now.plan.airport plan.now.index
        (option_map (λ visit. visit.now) changed.entry) }
    ensures bumped { IfOk result (λ change. bumped_by (plan.now.plan.version + 1) change.visits
        ≡ bumped_by (plan.now.plan.version + 1)
        (with_settled plan.now.plan (option_map (λ visit. visit.now) changed.entry)).visits) }
{
    let changes = changes_of(alloc, airport, plan, changed, steps)?;
    plan.moved(alloc, airport, changes)
}

// The visits that the plan's next entry changes, as they will be, in order of number.
fn changes_of<L: Ledger>(
    alloc: Global,
    airport: &Airport,
    plan: &Plan,
    changed: Option<&Visit>,
    steps: &mut Steps<L>,
) -> Result<Vec<Visit>, Memory>
    requires airport { airport.now ≡ plan.now.plan.airport }
    requires changed { IfSome changed (λ visit. IsChanged plan.now.plan visit.now) }
    ensures changes { IfOk result (λ changes. AreChanges plan.now.plan
        (option_map (λ visit. visit.now) changed.entry) changes.items) }
    ensures steps { steps.new
        ≤ steps.old
        + settle_steps plan.now.plan.airport plan.now.index
        (option_map (λ visit. visit.now) changed.entry) }
{
    let _known = plan.visits();
    match changed {
        Some(visit) => changes_near(alloc, airport, plan, visit, steps),
        None => Ok(Vec::new(alloc)),
    }
}

// The same if this visit is changed.
fn changes_near<L: Ledger>(
    alloc: Global,
    airport: &Airport,
    plan: &Plan,
    changed: &Visit,
    steps: &mut Steps<L>,
) -> Result<Vec<Visit>, Memory>
    requires airport { airport.now ≡ plan.now.plan.airport }
    requires valid { IsWellFormed airport.now changed.now }
    ensures ok { IfOk result (λ changes. changes.items
        ≡ changes_near airport.now (plan.now.plan.version + 1) plan.now.plan.visits changed.now) }
    ensures steps { steps.new
        ≤ steps.old
        + sum_by (steps_near airport.now plan.now.index) (slots_of_visit airport.now changed.now) }
{
    let mets = kept_clashes(alloc, airport, plan, changed, steps)?;
    let own = against_own(alloc, mets.as_slice())?;
    let others = against_others(alloc, mets.as_slice(), own.as_slice())?;
    let entry = plan.version() + 1;
    let new = visit_by(entry, own.as_slice(), changed);
    changes_by(alloc, entry, &new, others.as_slice(), plan)
}

// The clashes of the parts of the changed visit: `clashes_of` is called once for each part that is
// on a stand.
fn kept_clashes<L: Ledger>(
    alloc: Global,
    airport: &Airport,
    plan: &Plan,
    changed: &Visit,
    steps: &mut Steps<L>,
) -> Result<Listed<KeptClash>, Memory>
    requires airport { airport.now ≡ plan.now.plan.airport }
    requires valid { IsWellFormed airport.now changed.now }
    ensures ok { IfOk result
        (λ mets. mets ≡ kept_clashes airport.now plan.now.plan.visits changed.now) }
    ensures steps { steps.new
        ≤ steps.old
        + sum_by (steps_near airport.now plan.now.index) (slots_of_visit airport.now changed.now) }
{
    let owns = parts_on(alloc, airport, changed)?;
    let mut mets = Listed::new(alloc);
    for own in owns.as_slice() {
        push_kept_clashes_of(alloc, airport, plan, &mut mets, own, steps)?;
    }
    Ok(mets)
}

fn push_kept_clashes_of<L: Ledger>(
    alloc: Global,
    airport: &Airport,
    plan: &Plan,
    mets: &mut Listed<KeptClash>,
    own: &Ranked,
    steps: &mut Steps<L>,
) -> Result<(), Memory>
    requires airport { airport.now ≡ plan.now.plan.airport }
    requires own { IsSlotOf airport.now own.now.slot }
    ensures ok { OnOk result
        (mets.new
        ≡ mets.old
        ++ kept_clashes_of_part airport.now (all_parts_on airport.now plan.now.plan.visits) own.now) }
    ensures steps { steps.new ≤ steps.old + steps_near airport.now plan.now.index own.now.slot }
{
    let _known = plan.visits();
    let clashes = clashes_of(alloc, airport, plan.index(), &own.slot, steps)?;
    push_kept_clashes(airport, plan, mets, own, clashes.as_slice())
}

fn push_kept_clashes(
    airport: &Airport,
    plan: &Plan,
    mets: &mut Listed<KeptClash>,
    own: &Ranked,
    clashes: &[Clash],
) -> Result<(), Memory>
    requires airport { airport.now ≡ plan.now.plan.airport }
    ensures ok { OnOk result
        (mets.new
        ≡ mets.old
        ++ filter_map (kept_clash_at airport.now plan.now.plan.visits own.now) clashes.now) }
{
    for clash in clashes {
        push_kept_clash(mets, kept_clash_at(airport, plan, own, clash))?;
    }
    Ok(())
}

fn push_kept_clash(mets: &mut Listed<KeptClash>, met: Option<KeptClash>) -> Result<(), Memory>
    ensures ok { OnOk result (mets.new ≡ mets.old ++ option_to_list met) }
{
    match met {
        Some(met) => mets.push(met),
        None => Ok(()),
    }
}
