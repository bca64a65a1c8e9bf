// Reports of what happened to a visit.
ghost use Rattle.std.specs.Prelude.{◌≡◌, ◌<◌, IfOk, length};
ghost use Rattle.visit_book.specs.Ends.{is_live};
ghost use Rattle.visit_book.specs.Reports.{IsEventOf, report_of, visit_after_event};
ghost use Rattle.visit_book.specs.WellFormed.{IsWellFormed};
ghost use Rattle.visit_book.specs.declared.visits.End.TheVariants.{Live};
ghost use Rattle.visit_book.specs.declared.reports.Event.TheVariants.{On, Off};

use crate::{End, Visit, arrive, depart};
use apron_base::{Minute, StandNo};
use apron_rules::Airport;

/// What happened to a visit.
#[derive(Clone, Copy, Debug, PartialEq, Eq)]
pub enum Event {
    /// It came on block with a part, counted from 1, on a stand.
    On {
        part: u8,
        stand: StandNo,
        minute: Minute,
    },
    /// It went off block.
    Off {
        minute: Minute,
    },
}

/// Why a report is refused.
#[derive(Clone, Copy, Debug, PartialEq, Eq)]
pub enum ReportFault {
    /// The visit is gone or cancelled.
    Gone,
    /// The visit has no part of this number.
    NoSuchPart,
    /// The minute is after the plan's end, or too early.
    Time,
}

/// The visit as the event leaves it. The stand may be one that the visit's type doesn't fit. It
/// takes no memory.
pub fn report(visit: &Visit, airport: &Airport, event: &Event) -> Result<Visit, ReportFault>
    requires well_formed { IsWellFormed airport.now visit.now }
    requires event { IsEventOf airport.now event.now }
    ensures is { result ≡ report_of airport.now event.now visit.now }
    ensures well_formed { IfOk result (IsWellFormed airport.now) }
{
    if !is_live(visit) {
        return Err(ReportFault::Gone);
    }
    match *event {
        Event::On {
            part,
            stand,
            minute,
        } => came(visit, airport, part, stand, minute),
        Event::Off { minute } => report_off(visit, airport, minute),
    }
}

/// Whether the visit is neither gone nor cancelled.
pub fn is_live(visit: &Visit) -> bool
    ensures is { result ≡ is_live visit.now }
{
    matches!(visit.end, End::Live)
}

fn came(
    visit: &Visit,
    airport: &Airport,
    part: u8,
    stand: StandNo,
    minute: Minute,
) -> Result<Visit, ReportFault>
    requires well_formed { IsWellFormed airport.now visit.now }
    requires live { visit.now.end ≡ Live }
    requires stand { stand.0 < length airport.now.stands }
    ensures is { result ≡ visit_after_event airport.now (On part stand minute) visit.now }
    ensures well_formed { IfOk result (IsWellFormed airport.now) }
{
    if visit.parts.get(part).is_none() {
        return Err(ReportFault::NoSuchPart);
    }
    if minute >= airport.minutes() {
        return Err(ReportFault::Time);
    }
    match arrive(visit, airport, part, minute, Some(stand)) {
        Ok(new) => Ok(new),
        Err(_) => Err(ReportFault::Time),
    }
}

fn report_off(visit: &Visit, airport: &Airport, minute: Minute) -> Result<Visit, ReportFault>
    requires well_formed { IsWellFormed airport.now visit.now }
    ensures is { result ≡ visit_after_event airport.now (Off minute) visit.now }
    ensures well_formed { IfOk result (IsWellFormed airport.now) }
{
    if minute >= airport.minutes() {
        return Err(ReportFault::Time);
    }
    match depart(visit, minute) {
        Ok(new) => Ok(new),
        Err(_) => Err(ReportFault::Time),
    }
}
