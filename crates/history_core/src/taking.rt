// How a plan takes a command: here the plan is only read, and nothing changes. Each command has its
// own module.
ghost use Rattle.std.specs.Prelude.{◌≡◌, ◌↔◌, IfOk, IsTrue};
ghost use Rattle.visit_book.specs.Numbers.{IsNumbered};
ghost use Rattle.desk_asks.specs.Commands.{IsCommandOf};
ghost use Rattle.history_core.specs.Acceptance.{TakesEntry};
ghost use Rattle.history_core.specs.Taking.{ComesTo};

mod cancel;
mod commit;
mod message;
mod report;
mod settling;
mod visit;

use apron_base::{MAX_ENTRIES, Memory};
use apron_rules::Airport;
use cancel::take_cancel;
use commit::take_commit;
use desk_asks::Command;
use desk_words::replies::{Reply, ReplyBody};
use message::take_message;
use plan_core::{Change, Plan};
use report::take_report;
use std::alloc::Global;
use visit::take_visit;

/// What a command comes to.
#[derive(Drop)]
pub(crate) enum Taken {
    /// It is accepted: what it changes, and the reply once that is done.
    Accepted(Change, Reply),
    /// It changes nothing, and this is the reply.
    Answered(Reply),
}

/// What a command comes to at a plan whose history has this many entries. The plan stays as it is.
pub(crate) fn take_command(
    alloc: Global,
    airport: &Airport,
    plan: &Plan,
    entries: usize,
    command: &Command,
) -> Result<Taken, Memory>
    requires airport { airport.now ≡ plan.now.plan.airport }
    requires valid { IsCommandOf airport.now command.now }
    requires numbered { IsNumbered plan.now.plan.visits }
    requires entries { plan.now.plan.version ≡ entries }
    ensures finds { IfOk result (ComesTo plan.now.plan entries command.now) }
{
    match command {
        Command::AddVisit(new) => take_visit(alloc, airport, plan, entries, new),
        Command::Commit(draft) => take_commit(alloc, airport, plan, entries, draft),
        Command::Message(passed) => take_message(alloc, airport, plan, entries, passed),
        Command::Report(report) => take_report(alloc, airport, plan, entries, report),
        Command::Cancel(visit) => take_cancel(alloc, plan, entries, *visit),
    }
}

// An accepted command's change, with what the reply says once that is done.
fn taken_with_body(change: Change, told: ReplyBody) -> Taken
    ensures is { result ≡ Taken.Accepted change (record { version = change.version; told = told }) }
{
    let version = change.version();
    Taken::Accepted(change, Reply { version, told })
}

// The answer to a command that changes nothing.
fn answer_unchanged(plan: &Plan, told: ReplyBody) -> Taken
    ensures is { result ≡ Taken.Answered (record { version = plan.now.plan.version; told = told }) }
{
    let version = plan.version();
    Taken::Answered(Reply { version, told })
}

// Whether a history of this many entries takes one more.
fn takes_entry(entries: usize) -> bool
    ensures is { IsTrue result ↔ TakesEntry entries }
{
    entries < MAX_ENTRIES as usize
}
