// Sixteen seats, one of which has a long turn in which the others sleep.
ghost use Rattle.std.specs.Prelude.{◌≡◌, ◌≤◌, ◌<◌};
ghost use Rattle.std.specs.Thread.{IsSync};
ghost use Rattle.turn_board.specs.Board.{Sits};

use apron_base::{Acted, Listed, Machine};
use std::alloc::Global;
use std::marker::Model;
use std::sync::Wait;
use std::test::Fail;
use std::thread;
use std::thread::{Threads, join_mut};
use std::time::{Clock, Duration, Instant};
use turn_board::{Seat, TurnBoard};

const SEATS: u32 = 16;

// How often a scene is played at most, until it has gone well this often: other programs may take
// the processors in some of them.
const SCENES: u32 = 8;

const ENOUGH: u32 = 2;

// A seat that nobody wakes sleeps for longer than this, in milliseconds.
const AT_ONCE: u128 = 40;

/// When the seats ask, in milliseconds: the first at once, for a turn of this length; the second and
/// the others after these pauses, for turns without length. All sleep when the first ends its turn.
/// And what is wanted then.
#[derive(Clone, Copy)]
struct Scene {
    first: u64,
    second: u64,
    others: u64,
    want: Want,
}

#[derive(Clone, Copy)]
enum Want {
    /// Two of the others have their turns at once.
    Two,
    /// The second seat has the next turn, at once.
    Second,
}

/// While the first has its turn, each other seat comes to its seventh sleep, of 64 ms.
const ALL_SLEEP: Scene = Scene {
    first: 90,
    second: 10,
    others: 10,
    want: Want::Two,
};

/// While the first has its turn, the second sleeps ten times, draws a number, and comes to its
/// seventh sleep after that, and each other seat to its seventh sleep.
const SECOND_HAS_DRAWN: Scene = Scene {
    first: 405,
    second: 5,
    others: 300,
    want: Want::Second,
};

/// How long the turn of a seat is, in milliseconds.
#[derive(Clone, Copy)]
struct Shift {
    seat: u32,
    length: u64,
}

/// When a seat's turn began and ended, in milliseconds.
#[derive(Clone, Copy)]
struct Turn {
    seat: u32,
    began: u128,
    ended: u128,
}

/// Keeps no entry, but when each turn was.
#[derive(Drop)]
struct Watch<'r, R: Clock> {
    clock: &'r R,
    start: Instant,
    next: u64,
    turns: Vec<Turn>,
}

impl<'r, R: Clock> Model for Watch<'r, R> {
    ghost use Rattle.std.specs.Prelude.{◌≤◌, [], ℕ, None};
    ghost use Rattle.apron_base.specs.Machine.{MachineState};

    ghost Value = { MachineState (Unit {0}) (Unit {0}) };

    ghost view = { λ w. record { fixed = tt; history = []; at_risk = None; next = w.next; faults = 0 } };

    ghost invariant = { λ w. 1 ≤ w.next };
}

impl<'r, R: Clock> Watch<'r, R> {
    fn new(clock: &'r R, start: Instant, turns: Vec<Turn>) -> Watch<'r, R>
        ensures next { result.next ≡ 1 }
        ensures at_risk { result.at_risk ≡ None }
    {
        Watch {
            clock,
            start,
            next: 1,
            turns,
        }
    }

    // The time since the start, in milliseconds.
    fn time(&self) -> u128 {
        match self.start.elapsed(self.clock) {
            Ok(time) => time.as_millis(),
            Err(_) => 0,
        }
    }

    // The turn that is to come at once after the first one, if it is there.
    fn wanted(&self, want: Want) -> Option<&Turn> {
        match (want, self.turns.get(1)) {
            (Want::Two, _) => self.turns.get(2),
            (Want::Second, Some(next)) if next.seat == 2 => Some(next),
            _ => None,
        }
    }

    fn has(&self, want: Want) -> bool {
        match (self.turns.first(), self.wanted(want)) {
            (Some(first), Some(turn)) => turn.ended.saturating_sub(first.ended) < AT_ONCE,
            _ => false,
        }
    }
}

impl<'r, R: Clock> Machine for Watch<'r, R> {
    type Ask = Shift;

    type Entry = ();

    type Fixed = ();

    ghost state = { λ w. w };

    ghost number = { λ entry. 0 };

    ghost valid = { λ fixed ask. Unit {0} };

    ghost adds = { λ ask entry. Unit {0} };

    ghost answers = { λ fixed before call ask answer after. Unit {0} };

    fn next_call(&self) -> u64 {
        self.next
    }

    fn length(&self) -> u64 {
        let _next = self.next;
        0
    }

    fn act(&mut self, alloc: Global, call: u64, ask: &Shift) -> Acted {
        self.next = call + 1;
        let began = self.time();
        if ask.length > 0 {
            thread::sleep(self.clock, Duration::from_millis(ask.length));
        }
        let ended = self.time();
        if self.turns.reserve(1).is_err() {
            return Acted::Memory;
        }
        self.turns.push_reserved(Turn {
            seat: ask.seat,
            began,
            ended,
        });
        Acted::Reply(Listed::new(alloc))
    }
}

// A seat asks when the scene says so.
fn ask_in_scene<'r, R: Wait + Clock>(
    rt: &'r R,
    alloc: Global,
    board: &TurnBoard<Watch<'r, R>>,
    place: &mut Seat<Watch<'r, R>>,
    seat: u32,
    scene: Scene,
)
    requires sits { Sits board.now place.old }
    ensures sits { Sits board.now place.new }
    ensures share { place.new.share ≡ place.old.share }
{
    let (pause, length) = match seat {
        1 => (0, scene.first),
        2 => (scene.second, 0),
        _ => (scene.others, 0),
    };
    thread::sleep(rt, Duration::from_millis(pause));
    board.ask(rt, alloc, place, &Shift { seat, length });
}

// The seats up to this one ask, each in a thread.
fn ask_in_threads<'s, 'r, R: Threads + Wait + Clock + Sync>(
    rt: &'r R,
    alloc: Global,
    board: &'s TurnBoard<Watch<'r, R>>,
    place: &mut Seat<Watch<'r, R>>,
    seat: u32,
    scene: Scene,
)
    requires sits { Sits board.now place.old }
    requires shares { seat < place.old.share }
    ensures sits { Sits board.now place.new }
    ensures share { place.new.share ≡ place.old.share }
{
    if seat == 0 {
        return;
    }
    let fewer = seat - 1;
    let mut own = board.split(place);
    let mine = &mut own;
    join_mut(
        rt,
        &mut ||
            requires { Sits board.now mine.now }
            ensures { Sits board.entry.now mine.exit.now × (mine.exit.now.share ≡ mine.entry.now.share) }
        { ask_in_scene(rt, alloc, board, mine, seat, scene) },
        &mut ||
            requires { IsSync R.row × Sits board.now place.now × (fewer < place.now.share) }
            ensures { Sits board.entry.now place.exit.now × (place.exit.now.share ≡ place.entry.now.share) }
        { ask_in_threads(rt, alloc, board, place, fewer, scene) },
    );
    board.meet(place, own);
}

// The machine after a scene.
fn play<'r, R: Threads + Wait + Clock + Sync>(
    rt: &'r R,
    alloc: Global,
    scene: Scene,
) -> Result<Watch<'r, R>, Fail> {
    let Ok(start) = Instant::now(rt) else {
        return Err(Fail::new("the clock"));
    };
    let watch = Watch::new(rt, start, Vec::new(alloc));
    let Ok((board, mut place)) = TurnBoard::new(alloc, watch) else {
        return Err(Fail::new("memory"));
    };
    ask_in_threads(rt, alloc, &board, &mut place, SEATS, scene);
    Ok(board.close(place))
}

fn goes_well<R: Threads + Wait + Clock + Sync>(
    rt: &R,
    alloc: Global,
    scene: Scene,
) -> Result<bool, Fail> {
    let mut good: u32 = 0;
    for _scene in 0..SCENES {
        if play(rt, alloc, scene)?.has(scene.want) {
            good = good.saturating_add(1);
        }
        if good == ENOUGH {
            return Ok(true);
        }
    }
    Ok(false)
}

#[test]
fn seats_that_sleep_are_woken_one_after_the_other(rt: HostRuntime) -> Result<(), Fail> {
    let well = goes_well(&rt, rt.alloc(), ALL_SLEEP)?;
    assert!(rt; well);
    Ok(())
}

#[test]
fn a_seat_that_waited_long_is_next_and_is_woken(rt: HostRuntime) -> Result<(), Fail> {
    let well = goes_well(&rt, rt.alloc(), SECOND_HAS_DRAWN)?;
    assert!(rt; well);
    Ok(())
}
