// Writers of a board's plan, with their screens.
ghost use Rattle.std.specs.Prelude.{◌≡◌};
ghost use Rattle.apron_base.specs.Histories.{Every};
ghost use Rattle.history_core.specs.History.{replay};
ghost use Rattle.shown_board.specs.Halls.{IsNewWriter};

use apron_base::SteadyKeeper;
use apron_rules::Airport;
use plan_core::Plan;
use screen_feed::{Screen, ScreenWriter};
use std::alloc::Global;
use std::sync::Wait;
use watch_list::{Shown, WatchBoard};

type Watched<'w, 'a> = WatchBoard<'w, 'a, SteadyKeeper, Shown, Shown>;

fn plan_of<'b>(airport: &Airport, board: &'b Watched<'_, '_>) -> &'b Plan
    requires airport { board.now.board.airport ≡ airport.now }
    ensures airport { result.now.plan.airport ≡ airport.now }
    ensures plan { result.now.plan ≡ replay board.now.board.airport board.now.board.history }
{
    board.board().plan()
}

/// A writer for each of these days, up to one that the plan lacks or for which there is no memory.
/// Their screens are put last.
pub(super) fn writers_of<W: Wait>(
    rt: &W,
    alloc: Global,
    airport: &Airport,
    board: &Watched<'_, '_>,
    days: &[u32],
    screens: &mut Vec<Screen>,
) -> Vec<ScreenWriter>
    requires airport { board.now.board.airport ≡ airport.now }
    ensures new { Every (IsNewWriter board.now.board.airport board.now.board.history) result.items }
{
    let mut writers = Vec::new(alloc);
    let plan = plan_of(airport, board);
    for day in days {
        let is_day = 1 <= *day && *day <= airport.parts().days;
        if !is_day || writers.reserve(1).is_err() || screens.reserve(1).is_err() {
            return writers;
        }
        let Ok((writer, screen)) = ScreenWriter::new(rt, alloc, airport, plan, *day) else {
            return writers;
        };
        writers.push_reserved(writer);
        screens.push_reserved(screen);
    }
    writers
}
