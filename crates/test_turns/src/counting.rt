// Many threads that ask a machine which counts.
ghost use Rattle.std.specs.Prelude.{◌≡◌, ◌<◌, ◌≤◌, ℕ};
ghost use Rattle.std.specs.Thread.{IsSync};
ghost use Rattle.turn_board.specs.Board.{Sits};

use apron_base::{Acted, CALL_END, Listed, Machine};
use std::alloc::Global;
use std::marker::Model;
use std::sync::Wait;
use std::test::Fail;
use std::thread::{Threads, join_mut};
use turn_board::{Seat, TurnBoard};

// How many threads ask, and how often each does.
const THREADS: u32 = 16;

const TIMES: u32 = 10_000;

/// Keeps the number of each call.
#[derive(Drop)]
struct Tally {
    calls: Vec<u64>,
    next: u64,
}

impl Model for Tally {
    ghost use Rattle.std.specs.Prelude.{◌≤◌, ◌^◌, ℕ, None};
    ghost use Rattle.apron_base.specs.Histories.{Rises};
    ghost use Rattle.apron_base.specs.Machine.{MachineState};

    ghost Value = { MachineState ℕ (Unit {0}) };

    ghost view = { λ t. record { fixed = tt; history = t.calls.items; at_risk = None; next = t.next; faults = 0 } };

    ghost invariant = { λ t. Rises (λ call. call) 1 t.next t.calls.items × (t.next ≤ 2 ^ 62) };
}

impl Tally {
    /// No call yet, and the least number of the next one.
    fn new(alloc: Global, next: u64) -> Tally
        requires some { 1 ≤ next }
        requires end { next ≤ CALL_END }
        ensures next { result.next ≡ next }
    {
        Tally {
            calls: Vec::new(alloc),
            next,
        }
    }

    /// Whether the calls have exactly the numbers from 1 on, this many, each once and in order.
    fn is_complete(&self, count: u32) -> bool {
        self.calls.len() == count as usize
            && self
                .calls
                .iter()
                .enumerate()
                .all(|(before, call)| *call == before as u64 + 1)
    }
}

impl Machine for Tally {
    type Ask = ();

    type Entry = u64;

    type Fixed = ();

    ghost state = { λ t. t };

    ghost number = { λ call. call };

    ghost valid = { λ fixed ask. Unit {0} };

    ghost adds = { λ ask call. Unit {0} };

    ghost answers = { λ fixed before call ask answer after. Unit {0} };

    fn next_call(&self) -> u64 {
        self.next
    }

    fn length(&self) -> u64 {
        self.calls.len() as u64
    }

    fn act(&mut self, alloc: Global, call: u64, _ask: &()) -> Acted {
        self.next = call + 1;
        if self.calls.reserve(1).is_err() {
            return Acted::Memory;
        }
        self.calls.push_reserved(call);
        Acted::Reply(Listed::new(alloc))
    }
}

fn is_reply(answer: &Acted) -> bool {
    matches!(answer, Acted::Reply(_))
}

fn is_spent(answer: &Acted) -> bool {
    matches!(answer, Acted::Spent)
}

// Asks this often, and gives whether each ask got a reply.
fn ask_often<R: Wait>(
    rt: &R,
    alloc: Global,
    board: &TurnBoard<Tally>,
    seat: &mut Seat<Tally>,
    times: u32,
) -> bool
    requires sits { Sits board.now seat.old }
    ensures sits { Sits board.now seat.new }
    ensures share { seat.new.share ≡ seat.old.share }
{
    let mut replied = true;
    for _asked in 0..times {
        replied &= is_reply(&board.ask(rt, alloc, seat, &()));
    }
    replied
}

// This many threads, each with a seat of its own, ask this often each. It gives whether each ask
// got a reply.
fn ask_in_threads<'s, R: Threads + Wait + Sync>(
    rt: &'s R,
    alloc: Global,
    board: &'s TurnBoard<Tally>,
    seat: &mut Seat<Tally>,
    threads: u32,
    times: u32,
) -> bool
    requires sits { Sits board.now seat.old }
    requires shares { threads < seat.old.share }
    ensures sits { Sits board.now seat.new }
    ensures share { seat.new.share ≡ seat.old.share }
{
    if threads == 0 {
        return true;
    }
    let fewer = threads - 1;
    let mut own = board.split(seat);
    let mine = &mut own;
    let (here, there) = join_mut(
        rt,
        &mut ||
            requires { Sits board.now mine.now }
            ensures { Sits board.entry.now mine.exit.now × (mine.exit.now.share ≡ mine.entry.now.share) }
        { ask_often(rt, alloc, board, mine, times) },
        &mut ||
            requires { IsSync R.row × Sits board.now seat.now × (fewer < seat.now.share) }
            ensures { Sits board.entry.now seat.exit.now × (seat.exit.now.share ≡ seat.entry.now.share) }
        { ask_in_threads(rt, alloc, board, seat, fewer, times) },
    );
    board.meet(seat, own);
    here && there
}

#[test]
fn in_sixteen_threads_each_ask_has_its_entry_once(rt: HostRuntime) -> Result<(), Fail> {
    let alloc = rt.alloc();
    let Ok((board, mut seat)) = TurnBoard::new(alloc, Tally::new(alloc, 1)) else {
        return Err(Fail::new("memory"));
    };
    let replied = ask_in_threads(&rt, alloc, &board, &mut seat, THREADS, TIMES);
    let tally = board.close(seat);
    assert!(rt; replied);
    assert!(rt; tally.is_complete(THREADS * TIMES));
    Ok(())
}

#[test]
fn where_no_number_is_left_every_ask_is_spent(rt: HostRuntime) -> Result<(), Fail> {
    let alloc = rt.alloc();
    let tally = Tally::new(alloc, 4_611_686_018_427_387_904);
    let Ok((board, mut one)) = TurnBoard::new(alloc, tally) else {
        return Err(Fail::new("memory"));
    };
    let mut two = board.split(&mut one);
    let first = is_spent(&board.ask(&rt, alloc, &mut one, &()));
    let second = is_spent(&board.ask(&rt, alloc, &mut two, &()));
    let third = is_spent(&board.ask(&rt, alloc, &mut one, &()));
    board.meet(&mut one, two);
    let tally = board.close(one);
    assert!(rt; first && second && third);
    assert!(rt; tally.is_complete(0));
    Ok(())
}
