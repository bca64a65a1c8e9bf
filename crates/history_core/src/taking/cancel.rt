// A visit is cancelled.
ghost use Rattle.std.specs.Prelude.{◌≡◌, IfOk};
ghost use Rattle.desk_asks.specs.declared.asks.Command.TheVariants.{Cancel};
ghost use Rattle.history_core.specs.Acceptance.{cancellable};
ghost use Rattle.history_core.specs.Taking.{ComesTo};

use super::{Taken, answer_unchanged, taken_with_body, takes_entry};
use apron_base::{Memory, VisitNo};
use desk_words::replies::{Denial, ReplyBody};
use plan_core::Plan;
use std::alloc::Global;
use visit_book::{Visit, is_live};

/// What cancelling the visit of this number comes to, at a plan whose history has this many
/// entries.
pub(super) fn take_cancel(
    alloc: Global,
    plan: &Plan,
    entries: usize,
    number: VisitNo,
) -> Result<Taken, Memory>
    requires entries { plan.now.plan.version ≡ entries }
    ensures finds { IfOk result (ComesTo plan.now.plan entries (Cancel number)) }
{
    let visit = match cancellable(plan, number) {
        Ok(visit) => visit,
        Err(why) => return Ok(answer_unchanged(plan, ReplyBody::Denied(why))),
    };
    if !takes_entry(entries) {
        return Ok(answer_unchanged(plan, ReplyBody::Full));
    }
    let change = plan.cancel(alloc, &visit)?;
    Ok(taken_with_body(change, ReplyBody::Cancelled))
}

// The visit of this number if it can be cancelled, or why not.
fn cancellable(plan: &Plan, number: VisitNo) -> Result<Visit, Denial>
    ensures is { result ≡ cancellable plan.now.plan number }
{
    match plan.visit(number) {
        None => Err(Denial::Unknown),
        Some(visit) if !is_live(visit) => Err(Denial::Gone),
        Some(visit) if visit.on_block => Err(Denial::OnBlock),
        Some(visit) => Ok(*visit),
    }
}
