// Settles a plan by its next entry, which says what happened.
ghost use Rattle.std.specs.Prelude.{◌≡◌, ◌<◌, ◌+◌, IfOk, IfSome};
ghost use Rattle.std.specs.Option.{option_copied};
ghost use Rattle.plan_core.specs.PlanState.{IsInstallable, plan_after_change, version_limit};
ghost use Rattle.bump_core.specs.Bumped.{bumped_by};
ghost use Rattle.bump_core.specs.Settled.{IsChanged, with_settled};

use apron_base::{Listed, Memory, PartId, Steps};
use apron_rules::Airport;
use bump_core::{bumped_by, settle};
use plan_core::{Change, Plan};
use std::alloc::Global;
use std::marker::Brand;
use std::sync::ledger::{Blank, Ledger};
use visit_book::Visit;

/// The change of the plan's next entry: it puts in the changed visit, if there is one, and the
/// parts that lose their stands by it, in order of visit and part. `Err` if there is no memory.
pub(super) fn settle_changed(
    alloc: Global,
    airport: &Airport,
    plan: &Plan,
    changed: Option<&Visit>,
) -> Result<(Change, Listed<PartId>), Memory>
    requires airport { airport.now ≡ plan.now.plan.airport }
    requires changed { IfSome changed (λ visit. IsChanged plan.now.plan visit.now) }
    ensures makes { IfOk result (λ made. plan_after_change plan.now.plan made.0
        ≡ with_settled plan.now.plan (option_copied changed.entry)) }
    ensures fits { IfOk result
        (λ made. plan.now.plan.version + 1 < version_limit → IsInstallable plan.now.plan made.0) }
    ensures bumped { IfOk result (λ made. made.1
        ≡ bumped_by (plan.now.plan.version + 1)
        (with_settled plan.now.plan (option_copied changed.entry)).visits) }
{
    let change = settle_uncounted(alloc, airport, plan, changed)?;
    let bumped = bumped_by(alloc, change.version(), change.visits())?;
    Ok((change, bumped))
}

// A settling without a count of its steps.
fn settle_uncounted(
    alloc: Global,
    airport: &Airport,
    plan: &Plan,
    changed: Option<&Visit>,
) -> Result<Change, Memory>
    requires airport { airport.now ≡ plan.now.plan.airport }
    requires changed { IfSome changed (λ visit. IsChanged plan.now.plan visit.now) }
    ensures makes { IfOk result (λ change. plan_after_change plan.now.plan change
        ≡ with_settled plan.now.plan (option_copied changed.entry)) }
    ensures fits { IfOk result
        (λ change. plan.now.plan.version + 1 < version_limit → IsInstallable plan.now.plan change) }
    ensures bumped { IfOk result (λ change. bumped_by (plan.now.plan.version + 1) change.visits
        ≡ bumped_by (plan.now.plan.version + 1)
        (with_settled plan.now.plan (option_copied changed.entry)).visits) }
{
    settle_from::<Brand>(alloc, airport, plan, changed, Blank::new(1))
}

fn settle_from<L: Ledger>(
    alloc: Global,
    airport: &Airport,
    plan: &Plan,
    changed: Option<&Visit>,
    blank: Blank,
) -> Result<Change, Memory>
    requires airport { airport.now ≡ plan.now.plan.airport }
    requires changed { IfSome changed (λ visit. IsChanged plan.now.plan visit.now) }
    requires name { blank.name ≡ L.name }
    requires parts { blank.parts ≡ L.parts }
    requires open { 0 < L.parts }
    ensures makes { IfOk result (λ change. plan_after_change plan.now.plan change
        ≡ with_settled plan.now.plan (option_copied changed.entry)) }
    ensures fits { IfOk result
        (λ change. plan.now.plan.version + 1 < version_limit → IsInstallable plan.now.plan change) }
    ensures bumped { IfOk result (λ change. bumped_by (plan.now.plan.version + 1) change.visits
        ≡ bumped_by (plan.now.plan.version + 1)
        (with_settled plan.now.plan (option_copied changed.entry)).visits) }
{
    let mut steps = Steps::<L>::new(blank);
    settle(alloc, airport, plan, changed, &mut steps)
}
