// A visit came on block or went off block.
ghost use Rattle.std.specs.Prelude.{◌≡◌, IfOk};
ghost use Rattle.visit_book.specs.Reports.{IsEventOf};
ghost use Rattle.desk_asks.specs.declared.asks.Command.TheVariants.{Report};
ghost use Rattle.bump_core.specs.Settled.{IsChanged};
ghost use Rattle.history_core.specs.Acceptance.{denial_of, visit_after_report};
ghost use Rattle.history_core.specs.Taking.{ComesTo};

use super::settling::settle_changed;
use super::{Taken, answer_unchanged, taken_with_body, takes_entry};
use apron_base::Memory;
use apron_rules::Airport;
use desk_asks::DeskReport;
use desk_words::replies::{Denial, ReplyBody};
use plan_core::Plan;
use std::alloc::Global;
use visit_book::{ReportFault, Visit};

/// What a report comes to, at a plan whose history has this many entries.
pub(super) fn take_report(
    alloc: Global,
    airport: &Airport,
    plan: &Plan,
    entries: usize,
    report: &DeskReport,
) -> Result<Taken, Memory>
    requires airport { airport.now ≡ plan.now.plan.airport }
    requires event { IsEventOf airport.now report.now.event }
    requires entries { plan.now.plan.version ≡ entries }
    ensures finds { IfOk result (ComesTo plan.now.plan entries (Report report.now)) }
{
    let visit = match visit_after_report(airport, plan, report) {
        Ok(visit) => visit,
        Err(why) => return Ok(answer_unchanged(plan, ReplyBody::Denied(why))),
    };
    if !takes_entry(entries) {
        return Ok(answer_unchanged(plan, ReplyBody::Full));
    }
    let (change, bumped) = settle_changed(alloc, airport, plan, Some(&visit))?;
    Ok(taken_with_body(change, ReplyBody::Reported { bumped }))
}

// What the report makes of the plan's visit of its number, or why it is refused.
fn visit_after_report(airport: &Airport, plan: &Plan, report: &DeskReport) -> Result<Visit, Denial>
    requires airport { airport.now ≡ plan.now.plan.airport }
    requires event { IsEventOf airport.now report.now.event }
    ensures is { result ≡ visit_after_report plan.now.plan report.now }
    ensures changed { IfOk result (IsChanged plan.now.plan) }
{
    // What holds of every plan shows that its visits are well formed.
    let _known = plan.visits();
    let Some(visit) = plan.visit(report.visit) else {
        return Err(Denial::Unknown);
    };
    match visit_book::report(visit, airport, &report.event) {
        Ok(new) => Ok(new),
        Err(fault) => Err(denial_of(fault)),
    }
}

fn denial_of(fault: ReportFault) -> Denial
    ensures is { result ≡ denial_of fault }
{
    match fault {
        ReportFault::Gone => Denial::Gone,
        ReportFault::NoSuchPart => Denial::NoSuchPart,
        ReportFault::Time => Denial::Time,
    }
}
