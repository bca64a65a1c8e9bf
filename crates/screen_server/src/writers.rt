// The writers of a board's plan, and their screens.
ghost use Rattle.std.specs.Prelude.{◌≡◌, ◌<◌, ◌≤◌, [], OnErr, OnOk, length, map};
ghost use Rattle.apron_base.specs.Histories.{Every};
ghost use Rattle.history_core.specs.History.{replay};
ghost use Rattle.shown_board.specs.Halls.{IsNewWriter, pairs_of};
ghost use Rattle.screen_server.specs.Looks.{IsNewScreen};

use apron_base::{Keeper, Memory};
use apron_rules::Airport;
use plan_core::Plan;
use screen_feed::{Screen, ScreenWriter};
use std::alloc::Global;
use std::sync::Wait;
use watch_list::{NoteTest, Stated, WatchBoard};

fn plan_of<'b, K: Keeper, R: Stated, T: NoteTest>(
    airport: &Airport,
    board: &'b WatchBoard<'_, '_, K, R, T>,
) -> &'b Plan
    requires airport { board.now.board.airport ≡ airport.now }
    ensures airport { result.now.plan.airport ≡ airport.now }
    ensures plan { result.now.plan ≡ replay board.now.board.airport board.now.board.history }
{
    board.board().plan()
}

/// This many writers of the board's plan on a day. Their screens are put last. At `Err` these are
/// fewer, since there is no memory for more.
pub(crate) fn writers_of<W: Wait, K: Keeper, R: Stated, T: NoteTest>(
    rt: &W,
    alloc: Global,
    airport: &Airport,
    board: &WatchBoard<'_, '_, K, R, T>,
    day: u32,
    count: usize,
    screens: &mut Vec<Screen>,
) -> (Vec<ScreenWriter>, Result<(), Memory>)
    requires airport { board.now.board.airport ≡ airport.now }
    requires day { 0 < count → (1 ≤ day) × (day ≤ airport.now.days) }
    requires none { screens.old.items ≡ [] }
    ensures new { Every (IsNewWriter board.now.board.airport board.now.board.history)
        result.0.items }
    ensures screens { Every (IsNewScreen airport.now board.now.board.history day)
        screens.new.items }
    ensures pairs { pairs_of result.0.items ≡ map (λ screen. screen.pair) screens.new.items }
    ensures all { OnOk result.1 (length result.0.items ≡ count) }
    ensures fewer { OnErr result.1 (length result.0.items < count) }
{
    let mut writers = Vec::new(alloc);
    let plan = plan_of(airport, board);
    for _made in 0..count {
        if writers.reserve(1).is_err() || screens.reserve(1).is_err() {
            return (writers, Err(Memory));
        }
        let Ok((writer, screen)) = ScreenWriter::new(rt, alloc, airport, plan, day) else {
            return (writers, Err(Memory));
        };
        writers.push_reserved(writer);
        screens.push_reserved(screen);
    }
    (writers, Ok(()))
}
