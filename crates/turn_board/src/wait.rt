// How a seat waits for the machine.
ghost use Rattle.std.specs.Prelude.{◌≡◌};
ghost use Rattle.turn_board.specs.Turns.{IsTurnTable};

use crate::steps::{SERVING, SharedTable};
use apron_base::Machine;
use std::hint;
use std::sync::Wait;
use std::sync::atomic::{AtomicU64, Ordering};
use std::time::Duration;

/// How often a seat looks before it sleeps: about as long as a few short acts take.
const LOOKS: u32 = 100;
/// How often a seat sleeps before it draws a number although the machine is not free.
const SLEEPS: u32 = 10;
/// A seat sleeps for one millisecond at first if no wake comes, and each time for twice as long, up
/// to this many times.
const DOUBLINGS: u32 = 6;

/// A sleep is on the low half of a word: this is the least number above that half.
const LOW: u64 = 1 << 32;

/// What the seats of a board know of those among them that sleep: 1 if one may sleep that no end of
/// a turn has woken, and 0 otherwise.
#[derive(Drop)]
pub(crate) struct Sleepers {
    any: AtomicU64,
}

impl Sleepers {
    pub(crate) fn new() -> Sleepers {
        Sleepers {
            any: AtomicU64::new(0),
        }
    }

    // Has the next end of a turn wake a seat.
    fn order_wake(&self) {
        self.any.store(1, Ordering::SeqCst);
    }

    /// Wakes a seat that sleeps, if one may, after a turn has ended: all of them if the next number
    /// is awaited, since only the seat that has drawn it can go on.
    pub(crate) fn wake<M: Machine>(&self, table: &SharedTable<M>, is_awaited: bool)
        requires table { IsTurnTable table.now.table_id }
    {
        if self.any.load(Ordering::SeqCst) == 0 {
            return;
        }
        self.any.store(0, Ordering::SeqCst);
        if is_awaited {
            table.wake_all(SERVING);
        } else {
            table.wake_one(SERVING);
        }
    }
}

/// How long a seat has waited.
#[derive(Drop)]
pub(crate) struct Patience {
    looks: u32,
    sleeps: u32,
}

impl Patience {
    pub(crate) fn new() -> Patience {
        Patience {
            looks: 0,
            sleeps: 0,
        }
    }

    /// Whether the seat has waited so long that it draws a number, after which all are served in
    /// the order of their numbers.
    pub(crate) fn is_over(&self) -> bool {
        self.sleeps >= SLEEPS
    }

    /// Has the end of this seat's turn wake another, if the seat has slept: the wake that it got
    /// may have been the only one.
    pub(crate) fn pass_on(&self, sleepers: &Sleepers) {
        if self.sleeps > 0 {
            sleepers.order_wake();
        }
    }

    /// Lets time pass after a look that found `serving`, if another seat has its turn. After some
    /// looks the seat sleeps until the end of a turn wakes it, and for some milliseconds at most.
    pub(crate) fn wait<M: Machine, R: Wait>(
        &mut self,
        rt: &R,
        table: &SharedTable<M>,
        sleepers: &Sleepers,
        serving: u64,
    )
        requires table { IsTurnTable table.now.table_id }
    {
        if self.looks < LOOKS {
            self.looks += 1;
            hint::spin_loop();
        } else {
            sleepers.order_wake();
            let longest = Duration::from_millis(1 << self.sleeps.min(DOUBLINGS));
            table.park_timeout(rt, SERVING, (serving % LOW) as u32, longest);
            self.looks = 0;
            self.sleeps = self.sleeps.saturating_add(1);
        }
    }
}
