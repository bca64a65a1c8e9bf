// A visit is added.
ghost use Rattle.std.specs.Prelude.{◌≡◌, ◌≢◌, IfOk};
ghost use Rattle.visit_book.specs.NewVisits.{IsNewVisitOf, added_visit, new_of};
ghost use Rattle.visit_book.specs.WellFormed.{IsWellFormed};
ghost use Rattle.desk_asks.specs.Commands.{IsCommandOf};
ghost use Rattle.desk_asks.specs.declared.asks.Command.TheVariants.{AddVisit};
ghost use Rattle.history_core.specs.Taking.{ComesTo};

use super::{Taken, takes_entry};
use apron_base::{Memory, VisitNo};
use apron_rules::Airport;
use desk_words::replies::{Reply, ReplyBody};
use plan_core::{Change, MAX_VISITS, Plan};
use std::alloc::Global;
use visit_book::{NewVisit, Visit, added_visit, new_of};

/// What adding this visit comes to, at a plan whose history has this many entries.
pub(super) fn take_visit(
    alloc: Global,
    airport: &Airport,
    plan: &Plan,
    entries: usize,
    new: &NewVisit,
) -> Result<Taken, Memory>
    requires airport { airport.now ≡ plan.now.plan.airport }
    requires valid { IsCommandOf airport.now (AddVisit new.now) }
    requires entries { plan.now.plan.version ≡ entries }
    ensures finds { IfOk result (ComesTo plan.now.plan entries (AddVisit new.now)) }
{
    let version = plan.version();
    if let Some(visit) = plan.visit_named(&new.name) {
        return Ok(Taken::Answered(Reply {
            version,
            told: told_of_same_name(new, visit),
        }));
    }
    let visits = plan.visits().len();
    if !takes_entry(entries) || visits >= MAX_VISITS as usize {
        return Ok(Taken::Answered(Reply {
            version,
            told: ReplyBody::Full,
        }));
    }
    let number = VisitNo(visits as u32 + 1);
    let visit = well_formed_visit(airport, number, version + 1, new);
    let change = plan.add(alloc, visit)?;
    Ok(taken_visit(change, number))
}

fn taken_visit(change: Change, visit: VisitNo) -> Taken
    ensures is { result
        ≡ Taken.Accepted change
        (record { version = change.version; told = ReplyBody.Added change.version visit }) }
{
    let entry = change.version();
    let reply = Reply {
        version: entry,
        told: ReplyBody::Added { entry, visit },
    };
    Taken::Accepted(change, reply)
}

// The visit that an entry adds with these data, which are valid at the airport.
fn well_formed_visit(airport: &Airport, number: VisitNo, version: u32, new: &NewVisit) -> Visit
    requires new { IsNewVisitOf airport.now new.now }
    ensures is { result ≡ added_visit number.0 version new.now }
    ensures well_formed { IsWellFormed airport.now result }
{
    // What holds of every airport, such as the least minutes of its types, shows that the visit is
    // well formed.
    let _known = airport.parts();
    added_visit(number, version, new)
}

// What the reply says if a visit already has the name of the one to be added.
fn told_of_same_name(new: &NewVisit, visit: &Visit) -> ReplyBody
    ensures same { new_of visit.now ≡ new.now
        → result ≡ ReplyBody.Added visit.now.added visit.now.number }
    ensures other { new_of visit.now ≢ new.now → result ≡ ReplyBody.OtherName visit.now.number }
{
    if new_of(visit) == *new {
        ReplyBody::Added {
            entry: visit.added,
            visit: visit.number,
        }
    } else {
        ReplyBody::OtherName {
            visit: visit.number,
        }
    }
}
