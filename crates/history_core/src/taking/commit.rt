// A desk's draft is committed.
ghost use Rattle.std.specs.Prelude.{◌≡◌, ◌≢◌, ◌↔◌, ◌<◌, ◌+◌, IfErr, IfOk, IsErr};
ghost use Rattle.visit_book.specs.Numbers.{IsNumbered};
ghost use Rattle.plan_core.specs.PlanState.{IsInstallable, version_limit};
ghost use Rattle.plan_core.specs.Rebase.{IsDraftFor, IsRebased, RefusesDraft};
ghost use Rattle.desk_asks.specs.Commands.{IsCommandOf};
ghost use Rattle.desk_asks.specs.declared.asks.Command.TheVariants.{Commit};
ghost use Rattle.history_core.specs.Taking.{ComesTo};

use super::{Taken, takes_entry};
use apron_base::{Memory, Steps};
use apron_rules::Airport;
use desk_words::replies::{Reply, ReplyBody};
use plan_core::{Change, Plan};
use std::alloc::Global;
use std::marker::Brand;
use std::sync::ledger::{Blank, Ledger};
use visit_book::{Draft, EditFault};

/// What the commit of a draft comes to, at a plan whose history has this many entries.
pub(super) fn take_commit(
    alloc: Global,
    airport: &Airport,
    plan: &Plan,
    entries: usize,
    draft: &Draft,
) -> Result<Taken, Memory>
    requires airport { airport.now ≡ plan.now.plan.airport }
    requires valid { IsCommandOf airport.now (Commit draft.now) }
    requires numbered { IsNumbered plan.now.plan.visits }
    requires entries { plan.now.plan.version ≡ entries }
    ensures finds { IfOk result (ComesTo plan.now.plan entries (Commit draft.now)) }
{
    let version = plan.version();
    if draft.base > version {
        return Ok(Taken::Answered(Reply {
            version,
            told: ReplyBody::Ahead,
        }));
    }
    if let Some(entry) = plan.draft(&draft.desk, draft.number) {
        return Ok(Taken::Answered(Reply {
            version,
            told: ReplyBody::Committed { entry },
        }));
    }
    match rebase_uncounted(alloc, airport, plan, draft) {
        Err(fault) => Ok(Taken::Answered(Reply {
            version,
            told: refusal(fault)?,
        })),
        Ok(_) if !takes_entry(entries) => Ok(Taken::Answered(Reply {
            version,
            told: ReplyBody::Full,
        })),
        Ok(change) => Ok(taken_commit(change)),
    }
}

fn taken_commit(change: Change) -> Taken
    ensures is { result
        ≡ Taken.Accepted change
        (record { version = change.version; told = ReplyBody.Committed change.version }) }
{
    let entry = change.version();
    let reply = Reply {
        version: entry,
        told: ReplyBody::Committed { entry },
    };
    Taken::Accepted(change, reply)
}

// What the reply says of a fault. A lack of memory is no refusal.
fn refusal(fault: EditFault) -> Result<ReplyBody, Memory>
    ensures memory { IsErr result ↔ (fault ≡ EditFault.Memory) }
    ensures told { IfOk result
        (λ told. (told ≡ ReplyBody.Edit fault) × (fault ≢ EditFault.Memory)) }
{
    match fault {
        EditFault::Memory => Err(Memory),
        _ => Ok(ReplyBody::Edit(fault)),
    }
}

// A rebase without a count of its steps.
fn rebase_uncounted(
    alloc: Global,
    airport: &Airport,
    plan: &Plan,
    draft: &Draft,
) -> Result<Change, EditFault>
    requires airport { airport.now ≡ plan.now.plan.airport }
    requires draft { IsDraftFor plan.now.plan draft.now }
    ensures ok { IfOk result (IsRebased plan.now.plan draft.now) }
    ensures fits { IfOk result
        (λ change. plan.now.plan.version + 1 < version_limit → IsInstallable plan.now.plan change) }
    ensures err { IfErr result (RefusesDraft plan.now.plan draft.now) }
{
    rebase_from::<Brand>(alloc, airport, plan, draft, Blank::new(1))
}

fn rebase_from<L: Ledger>(
    alloc: Global,
    airport: &Airport,
    plan: &Plan,
    draft: &Draft,
    blank: Blank,
) -> Result<Change, EditFault>
    requires airport { airport.now ≡ plan.now.plan.airport }
    requires draft { IsDraftFor plan.now.plan draft.now }
    requires name { blank.name ≡ L.name }
    requires parts { blank.parts ≡ L.parts }
    requires open { 0 < L.parts }
    ensures ok { IfOk result (IsRebased plan.now.plan draft.now) }
    ensures fits { IfOk result
        (λ change. plan.now.plan.version + 1 < version_limit → IsInstallable plan.now.plan change) }
    ensures err { IfErr result (RefusesDraft plan.now.plan draft.now) }
{
    let mut steps = Steps::<L>::new(blank);
    plan.rebase(alloc, airport, draft, &mut steps)
}
