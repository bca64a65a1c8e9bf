// Threads that ask a machine in turns, each with a seat of its own.
ghost use Rattle.std.specs.Prelude.{◌≡◌, ◌≤◌, ◌<◌};
ghost use Rattle.std.specs.Thread.{IsSync};
ghost use Rattle.turn_board.specs.Board.{Sits};
ghost use Rattle.turn_board.specs.Views.{call_end};

use super::machine::Worker;
use apron_base::{Acted, Machine};
use std::alloc::Global;
use std::sync::Wait;
use std::thread::{Threads, join_mut};
use std::time::Clock;
use turn_board::{Seat, TurnBoard};

/// This many threads ask this often each, and all wait for one another's turns. It gives whether
/// each ask got a reply.
pub(crate) fn ask_by_turns<'r, R: Threads + Wait + Clock + Sync>(
    rt: &'r R,
    alloc: Global,
    worker: Worker<'r, R>,
    threads: u32,
    times: u64,
) -> bool
    requires threads { threads ≤ 16 }
    requires next { worker.next ≡ 1 }
{
    let Ok((board, mut seat)) = TurnBoard::new(alloc, worker) else {
        return false;
    };
    let replied = ask_in_threads(rt, alloc, &board, &mut seat, threads, times);
    board.close(seat);
    replied
}

// Asks this often, and gives whether each ask got a reply.
fn ask_often<'r, R: Wait + Clock>(
    rt: &'r R,
    alloc: Global,
    board: &TurnBoard<Worker<'r, R>>,
    seat: &mut Seat<Worker<'r, R>>,
    times: u64,
) -> bool
    requires sits { Sits board.now seat.old }
    ensures sits { Sits board.now seat.new }
    ensures share { seat.new.share ≡ seat.old.share }
{
    let mut replied = true;
    for _asked in 0..times {
        replied &= matches!(board.ask(rt, alloc, seat, &()), Acted::Reply(_));
    }
    replied
}

fn ask_in_threads<'s, 'r, R: Threads + Wait + Clock + Sync>(
    rt: &'r R,
    alloc: Global,
    board: &'s TurnBoard<Worker<'r, R>>,
    seat: &mut Seat<Worker<'r, R>>,
    threads: u32,
    times: u64,
) -> bool
    requires sits { Sits board.now seat.old }
    requires shares { threads < seat.old.share }
    ensures sits { Sits board.now seat.new }
    ensures share { seat.new.share ≡ seat.old.share }
{
    if threads == 0 {
        return true;
    }
    let fewer = threads - 1;
    let mut own = board.split(seat);
    let mine = &mut own;
    let (here, there) = join_mut(
        rt,
        &mut ||
            requires { Sits board.now mine.now }
            ensures { Sits board.entry.now mine.exit.now
                × (mine.exit.now.share ≡ mine.entry.now.share) }
        { ask_often(rt, alloc, board, mine, times) },
        &mut ||
            requires { IsSync R.row × Sits board.now seat.now × (fewer < seat.now.share) }
            ensures { Sits board.entry.now seat.exit.now
                × (seat.exit.now.share ≡ seat.entry.now.share) }
        { ask_in_threads(rt, alloc, board, seat, fewer, times) },
    );
    board.meet(seat, own);
    here && there
}
