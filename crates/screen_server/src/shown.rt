// Desks at a board that is shown on screens, and these screens beside them.
ghost use Rattle.std.specs.Prelude.{◌≡◌, ◌<◌, ◌≤◌, IfErr, IfOk, None, length, map};
ghost use Rattle.std.specs.Thread.{IsSync};
ghost use Rattle.apron_base.specs.Histories.{Every};
ghost use Rattle.desk_workers.specs.Crew.{ServesBoard};
ghost use Rattle.desk_workers.specs.Feeds.{seat_sessions};
ghost use Rattle.desk_workers.specs.Watched.{fed_sessions, feed_texts, watch_text};
ghost use Rattle.history_core.specs.Board.{machine_state};
ghost use Rattle.shown_board.specs.Halls.{SeesFronts, hall_state, pairs_of};
ghost use Rattle.turn_board.specs.Views.{all_shares};
ghost use Rattle.screen_server.specs.Shown.{Opened, ShowsFrom};
ghost use Rattle.screen_server.specs.Walls.{ShowsAll, walls_of};

use crate::walls::show_all;
use crate::writers::writers_of;
use apron_base::{Keeper, Memory};
use apron_rules::Airport;
use desk_workers::{WorkEnd, Workplace, serve_board};
use screen_feed::Screen;
use shown_board::Hall;
use std::alloc::Global;
use std::sync::Wait;
use std::thread::Threads;
use watch_list::{NoteTest, Stated, WatchBoard};

/// How many connections each listener takes, and the day that the screens show, counted from 1.
#[derive(Clone, Copy)]
pub struct Task {
    pub connections: u32,
    pub day: u32,
}

/// How the workers of the desks and those of the screens ended.
#[derive(Clone, Copy)]
pub struct ShownEnd {
    pub desks: WorkEnd,
    pub screens: WorkEnd,
}

/// Serves the connections of desks at a board with watches that was just opened, and beside them
/// those of screens, which show a day of its plan; each listener by a worker in a thread of its
/// own. It gives back the hall in which the board has been since, which at `Ok` has a writer for
/// each screen. At `Err` there is no memory, and no listener was called.
pub fn serve_watched<
    'a,
    Rt: Threads + Wait + Sync,
    K: Keeper + Send,
    R: Stated + Sync,
    T: NoteTest + Sync,
    W: Workplace + Send,
>(
    rt: &'a Rt,
    alloc: Global,
    airport: &'a Airport,
    board: WatchBoard<'a, 'a, K, R, T>,
    listeners: &mut [W],
    walls: &mut [W],
    task: Task,
) -> (Result<ShownEnd, Memory>, Hall<'a, 'a, 'a, Rt, K, R, T>)
    requires airport { airport.now ≡ board.board.airport }
    requires next { board.next ≡ board.board.next }
    requires at_risk { (machine_state K.state board.board).at_risk ≡ None }
    requires few { length listeners.old < all_shares }
    requires day { 0 < length walls.old → (1 ≤ task.day) × (task.day ≤ airport.now.days) }
    ensures serves { IfOk result.0 (λ ends. ServesBoard W.states
        (fed_sessions (feed_texts R.tells board.entry.watches)) task.connections
        (record {
          listeners = map W.state listeners.old;
          board = machine_state K.state board.entry.board;
        })
        (record {
          listeners = map W.state listeners.new;
          board = machine_state K.state result.1.board.board;
        }) ends.desks) }
    ensures shows { let history = board.entry.board.history in
        let opened : Opened = record { airport = airport.now; history = history } in
        IfOk result.0 (λ ends. ShowsFrom W.states opened task (map W.state walls.old) (record {
          listeners = map W.state walls.new;
          history = result.1.board.board.history;
          end = ends.screens;
        })) }
    ensures writers { IfOk result.0 (λ _. length result.1.writers ≡ length walls.old) }
    ensures begun { IfOk result.0 (λ _. result.1.begun ≡ board.entry.next) }
    ensures refused { IfErr result.0 (λ _. (listeners.new ≡ listeners.old)
        × (walls.new ≡ walls.old) × (result.1.board.board ≡ board.entry.board)) }
{
    let mut screens = Vec::new(alloc);
    let (writers, made) = writers_of(
        rt,
        alloc,
        airport,
        &board,
        task.day,
        walls.len(),
        &mut screens,
    );
    let hall = Hall::new(rt, board, writers);
    if let Err(Memory) = made {
        return (Err(Memory), hall);
    }
    serve_hall(
        rt,
        alloc,
        airport,
        hall,
        listeners,
        screens.as_mut_slice(),
        walls,
        task.connections,
    )
}

/// Serves desks at the hall, and beside them each of the screens of its writers on the listener of
/// the same place, and gives the hall back with those writers. `Err` if there is no memory for this,
/// or there are not as many listeners as screens; then nothing was served.
pub fn serve_hall<
    'a,
    Rt: Threads + Wait + Sync,
    K: Keeper + Send,
    R: Stated + Sync,
    T: NoteTest + Sync,
    W: Workplace + Send,
>(
    rt: &'a Rt,
    alloc: Global,
    airport: &Airport,
    hall: Hall<'a, 'a, 'a, Rt, K, R, T>,
    listeners: &mut [W],
    screens: &mut [Screen],
    walls: &mut [W],
    connections: u32,
) -> (Result<ShownEnd, Memory>, Hall<'a, 'a, 'a, Rt, K, R, T>)
    requires airport { airport.now ≡ hall.board.board.airport }
    requires at_risk { (hall_state K.state hall).at_risk ≡ None }
    requires few { length listeners.old < all_shares }
    requires pairs { pairs_of hall.writers ≡ map (λ screen. screen.pair) screens.old }
    ensures serves { IfOk result.0 (λ ends. ServesBoard W.states
        (λ fixed. seat_sessions (watch_text R.tells fixed.watched) fixed.watched.airport)
        connections
        (record {
          listeners = map W.state listeners.old;
          board = hall_state K.state hall.entry;
        })
        (record {
          listeners = map W.state listeners.new;
          board = hall_state K.state result.1;
        }) ends.desks) }
    ensures shows { IfOk result.0 (λ ends. ShowsAll W.states connections
        (walls_of W.state walls.old screens.old) (walls_of W.state walls.new screens.new)
        ends.screens) }
    ensures fronts { let board = result.1.board.board in
        IfOk result.0 (λ _. Every (SeesFronts board.airport board.history) screens.new) }
    ensures pairs { IfOk result.0
        (λ _. pairs_of result.1.writers ≡ map (λ screen. screen.pair) screens.new) }
    ensures writers { IfOk result.0 (λ _. length result.1.writers ≡ length walls.old) }
    ensures begun { IfOk result.0 (λ _. result.1.begun ≡ hall.entry.begun) }
    ensures refused { IfErr result.0 (λ _. (listeners.new ≡ listeners.old)
        × (walls.new ≡ walls.old) × (result.1 ≡ hall.entry)) }
{
    if screens.len() != walls.len() {
        return (Err(Memory), hall);
    }
    let mut job = ||
        requires { IsSync Rt.row × (length screens.now ≡ length walls.now) }
        ensures shows { ShowsAll W.states connections
            (walls_of W.state walls.entry.now screens.entry.now)
            (walls_of W.state walls.exit.now screens.exit.now) result }
    { show_all(rt, alloc, screens, walls, connections) };
    let (ended, mut hall) = serve_board(rt, alloc, airport, hall, listeners, connections, &mut job);
    match ended {
        Ok((desks, looks)) => {
            hall.knows(screens);
            let ends = ShownEnd {
                desks,
                screens: looks,
            };
            (Ok(ends), hall)
        }
        Err(Memory) => (Err(Memory), hall),
    }
}
