// The visits of a season file, read from the shelf and asked to be added to a board.
ghost use Rattle.std.specs.Prelude.{◌≡◌, All, IfErr, IfOk, List, MatchResult, OnOk, Result};
ghost use Rattle.visit_book.specs.NewVisits.{IsNewVisitOf};
ghost use Rattle.visit_book.specs.declared.visits.NewVisit.{NewVisit};
ghost use Rattle.history_core.specs.Board.{machine_state};
ghost use Rattle.apron_run.specs.Asking.{AsksOnce, AsksSeason, IsMissing, IsThere, StopsImport};
ghost use Rattle.apron_run.specs.Import.{FindsSeason};
ghost use Rattle.apron_run.specs.declared.imported.Imported.{Imported};

use crate::imported::Imported;
use apron_base::{Acted, CALL_END, Keeper, Listed, Shelf, ShelfFault};
use apron_rules::Airport;
use desk_asks::{Ask, Command, What};
use history_core::Board;
use plan_core::Plan;
use season_files::{SeasonFault, read_season};
use std::alloc::Global;
use visit_book::{NewVisit, new_of};

/// The most bytes of a season file: 16 MiB.
pub const MAX_SEASON: u32 = 16_777_216;

/// Asks to add the visits of the season file of this name to the board, each at most once and in
/// order, with the board's next call numbers, up to the first that is neither added nor there
/// already.
pub(crate) fn add_season<F: Shelf, K: Keeper>(
    alloc: Global,
    board: &mut Board<'_, K>,
    season: &str,
    shelf: &mut F,
) -> Imported
    ensures adds { (found : Result (List NewVisit) Imported)
        × FindsSeason board.old.airport season.now (F.state shelf.old) (F.state shelf.new) found
        × MatchResult found
        (λ visits. AsksSeason board.old.airport visits (machine_state K.state board.old)
        (machine_state K.state board.new) result)
        (λ why. (machine_state K.state board.new ≡ machine_state K.state board.old)
        × (result ≡ why)) }
    ensures airport { board.new.airport ≡ board.old.airport }
{
    match find_season(alloc, board.airport(), season, shelf) {
        Ok(visits) => ask_season(alloc, board, visits.as_slice()),
        Err(why) => why,
    }
}

// The visits of the season file of this name at the airport. `Err` says why none are asked.
fn find_season<F: Shelf>(
    alloc: Global,
    airport: &Airport,
    season: &str,
    shelf: &mut F,
) -> Result<Listed<NewVisit>, Imported>
    ensures finds { FindsSeason airport.now season.now (F.state shelf.old)
        (F.state shelf.new) result }
    ensures new { IfOk result (All (IsNewVisitOf airport.now)) }
{
    let text = match shelf.read_file(alloc, season, MAX_SEASON) {
        Ok(text) => text,
        Err(ShelfFault::Failed) => return Err(Imported::ShelfFault),
        Err(ShelfFault::TooLong) => return Err(Imported::TooLong),
        Err(ShelfFault::Memory) => return Err(Imported::Memory),
    };
    match read_season(alloc, airport, text.as_slice()) {
        Ok(visits) => Ok(visits),
        Err(SeasonFault::BadRow(number)) => Err(Imported::Refused(u64::from(number))),
        Err(SeasonFault::Memory) => Err(Imported::Memory),
    }
}

// Asks to add these visits of the board's airport, up to the first that is neither added nor there
// already.
fn ask_season<K: Keeper>(alloc: Global, board: &mut Board<'_, K>, visits: &[NewVisit]) -> Imported
    requires new { All (IsNewVisitOf board.old.airport) visits.now }
    ensures asks { AsksSeason board.old.airport visits.now (machine_state K.state board.old)
        (machine_state K.state board.new) result }
    ensures airport { board.new.airport ≡ board.old.airport }
{
    let before = board.history().len();
    for k in 0..visits.len() {
        if let Err(stop) = ask_visit(alloc, board, &visits[k], k as u64 + 2) {
            return stop;
        }
    }
    let added = board.history().len() - before;
    Imported::Whole {
        added: added as u64,
        present: (visits.len() - added) as u64,
    }
}

// Asks to add the visit of the record of this number, with the next call number. At `Err` it is
// neither added nor there, and the history is as it was.
fn ask_visit<K: Keeper>(
    alloc: Global,
    board: &mut Board<'_, K>,
    new: &NewVisit,
    number: u64,
) -> Result<(), Imported>
    requires new { IsNewVisitOf board.old.airport new.now }
    ensures met { OnOk result
        (AsksOnce board.old.airport (machine_state K.state board.old) new.now
        (machine_state K.state board.new)) }
    ensures stops { IfErr result
        (StopsImport board.old.airport number (machine_state K.state board.old) new.now
        (machine_state K.state board.new)) }
    ensures airport { board.new.airport ≡ board.old.airport }
{
    let call = board.next_call();
    if call == CALL_END {
        return Err(Imported::Spent);
    }
    let before = board.history().len();
    let ask = Ask {
        seen: 0,
        what: What::Change(Command::AddVisit(*new)),
    };
    match board.ask(alloc, call, &ask) {
        Acted::Reply(_) if before < board.history().len() => Ok(()),
        Acted::Reply(_) => find_visit(board.plan(), new, number),
        Acted::Memory => Err(Imported::Memory),
        Acted::Fault => Err(Imported::DiskFault),
        Acted::Spent => unreachable!(),
    }
}

// Whether the visit of the record of this number, which was asked and not added, is there already.
// At `Err` another has its name, or it has no place.
fn find_visit(plan: &Plan, new: &NewVisit, number: u64) -> Result<(), Imported>
    ensures there { OnOk result (IsThere plan.now.plan new.now) }
    ensures missing { IfErr result (IsMissing plan.now.plan new.now number) }
{
    match plan.visit_named(&new.name) {
        Some(visit) if new_of(visit) == *new => Ok(()),
        Some(_) => Err(Imported::Refused(number)),
        None => Err(Imported::Full(number)),
    }
}
