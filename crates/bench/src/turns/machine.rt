// A machine that does nothing, or takes its time.
ghost use Rattle.std.specs.Prelude.{◌≡◌, ◌≤◌};

use apron_base::{Acted, Listed, Machine};
use std::alloc::Global;
use std::marker::Model;
use std::thread;
use std::time::{Clock, Duration};

/// Keeps no entry. Its act sleeps this many microseconds, or does nothing.
#[derive(Drop)]
pub(crate) struct Worker<'r, R: Clock> {
    clock: &'r R,
    micros: u64,
    next: u64,
}

impl<'r, R: Clock> Model for Worker<'r, R> {
    ghost use Rattle.std.specs.Prelude.{◌≤◌, [], ℕ, None};
    ghost use Rattle.apron_base.specs.Machine.{MachineState};

    ghost Value = { MachineState (Unit {0}) (Unit {0}) };

    ghost view = { λ w. record {
      fixed = tt;
      history = [];
      at_risk = None;
      next = w.next;
      faults = 0;
    } };

    ghost invariant = { λ w. 1 ≤ w.next };
}

impl<'r, R: Clock> Worker<'r, R> {
    /// One that was not called yet.
    pub(crate) fn new(clock: &'r R, micros: u64) -> Worker<'r, R>
        ensures next { result.next ≡ 1 }
    {
        Worker {
            clock,
            micros,
            next: 1,
        }
    }
}

impl<'r, R: Clock> Machine for Worker<'r, R> {
    type Ask = ();

    type Entry = ();

    type Fixed = ();

    ghost state = { λ w. w };

    ghost number = { λ entry. 0 };

    ghost valid = { λ fixed ask. Unit {0} };

    ghost adds = { λ ask entry. Unit {0} };

    ghost answers = { λ fixed before call ask answer after. Unit {0} };

    fn next_call(&self) -> u64 {
        self.next
    }

    fn length(&self) -> u64 {
        let _next = self.next;
        0
    }

    fn act(&mut self, alloc: Global, call: u64, _ask: &()) -> Acted {
        if self.micros > 0 {
            thread::sleep(self.clock, Duration::from_micros(self.micros));
        }
        self.next = call + 1;
        Acted::Reply(Listed::new(alloc))
    }
}
