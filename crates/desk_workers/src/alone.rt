// One desk that has a machine to itself.
ghost use Rattle.std.specs.Prelude.{◌≡◌, ◌≢◌, ◌≤◌, ℕ};
ghost use Rattle.desk_asks.specs.declared.asks.Ask.{Ask};
ghost use Rattle.history_core.specs.History.{IsAskOf, IsLegal, call_limit};
ghost use Rattle.desk_http.specs.Alone.{AloneAsks, port_over};
ghost use Rattle.desk_http.specs.Ports.{ShowsAsk};
ghost use Rattle.desk_workers.specs.Alone.{ActsNext};

use crate::machine::DeskMachine;
use crate::seat_port::answer_if_uncopied;
use apron_base::{Acted, CALL_END, Machine, Memory, Name};
use apron_rules::Airport;
use desk_asks::{Ask, What};
use desk_http::{DeskPort, FeedPort};
use std::alloc::Global;
use std::marker::Model;
use watch_list::WatchAsk;

/// The port of a desk that has a board with watches to itself, which may have something around it.
/// It numbers its calls from the machine's next one on, and waits for nobody.
///
/// Contracts see the machine, and the number that the first call has.
pub struct AlonePort<'a, M: DeskMachine> {
    airport: &'a Airport,
    machine: M,
    first: u64,
}

impl<'a, M: DeskMachine> Model for AlonePort<'a, M> {
    ghost use Rattle.std.specs.Prelude.{◌≡◌, ◌≤◌};
    ghost use Rattle.desk_workers.specs.Alone.{AloneMachine};

    ghost Value = { AloneMachine M };

    ghost view = { λ a. record { machine = a.machine; first = a.first } };

    ghost invariant = { λ a. (a.first ≤ (M.state a.machine).next)
        × (a.airport.now ≡ M.airport (M.state a.machine).fixed) };
}

impl<'a, M: DeskMachine> AlonePort<'a, M> {
    /// A desk that has made no call yet, at a machine whose airport this is.
    pub fn new(airport: &'a Airport, machine: M) -> AlonePort<'a, M>
        requires airport { airport.now ≡ M.airport (M.state machine).fixed }
        ensures machine { result.machine ≡ machine }
        ensures first { result.first ≡ (M.state machine).next }
    {
        let first = machine.next_call();
        AlonePort {
            airport,
            machine,
            first,
        }
    }

    /// The machine after the desk's calls.
    pub fn into_machine(self) -> M
        ensures machine { result ≡ self.entry.machine }
    {
        let AlonePort {
            airport: _,
            machine,
            first: _,
        } = self;
        machine
    }
}

impl<'a, M: DeskMachine> DeskPort for AlonePort<'a, M> {
    ghost use Rattle.desk_http.specs.Alone.{AloneAsks, port_over};

    type Fixed = M::Fixed;

    ghost airport_of = { λ a. M.airport (M.state a.machine).fixed };

    ghost fixed = { λ a. (M.state a.machine).fixed };

    ghost port = { λ a. port_over a.first (M.state a.machine) };

    ghost asks = { AloneAsks };

    ghost takes_turns = { λ airport before after ask given asked. asked.0 };

    fn airport(&self) -> &Airport {
        self.airport
    }

    fn ask(&mut self, alloc: Global, ask: &Ask) -> Acted {
        ask_next(alloc, &mut self.machine, ask)
    }
}

impl<'a, M: DeskMachine> FeedPort for AlonePort<'a, M> {
    ghost use Rattle.desk_workers.specs.Alone.{AloneFeeds};
    ghost use Rattle.std.specs.Prelude.{◌≡◌, IfSome};
    ghost use Rattle.std.proofs.Common.{subst, sym};

    ghost feed_text = { λ fixed airport. M.feed_text fixed };

    ghost feeds = { λ fixed. AloneFeeds (M.feed_text fixed) };

    ghost feeds_take_turns = { λ fixed airport before after ask given feeds. record {
      turn = feeds.0.0;
      gives = subst (λ history. IfSome given (λ told. told ≡ M.feed_text fixed ask history))
          (sym feeds.0.1) feeds.1;
    } };

    fn feed(&mut self, alloc: Global, seen: u32, watch: &Name, after: u32) -> Acted {
        let feed = WatchAsk::Feed {
            seen,
            watch: *watch,
            after,
        };
        act_next(alloc, &mut self.machine, &feed)
    }
}

// Asks a machine what a desk asks. An ask that no memory is there to copy is answered so after a
// call all the same.
fn ask_next<M: DeskMachine>(alloc: Global, machine: &mut M, ask: &Ask) -> Acted
    requires valid { IsAskOf (M.airport (M.state machine.old).fixed) ask.now }
    ensures fixed { (M.state machine.new).fixed ≡ (M.state machine.old).fixed }
    ensures next { (M.state machine.old).next ≤ (M.state machine.new).next }
    ensures shows { (first : ℕ)
        → first ≤ (M.state machine.old).next
        → ShowsAsk AloneAsks (M.airport (M.state machine.old).fixed)
        (port_over first (M.state machine.old)) ask.now result
        (port_over first (M.state machine.new)) }
{
    match ask.copy(alloc) {
        Ok(own) => act_next(alloc, machine, &WatchAsk::Plain(own)),
        Err(Memory) => call_uncopied(alloc, machine),
    }
}

// Makes a call that asks for the version, and answers that there is no memory, or `Spent` if the
// numbers have run out.
fn call_uncopied<M: DeskMachine>(alloc: Global, machine: &mut M) -> Acted
    ensures fixed { (M.state machine.new).fixed ≡ (M.state machine.old).fixed }
    ensures next { (M.state machine.old).next ≤ (M.state machine.new).next }
    ensures shows { (first : ℕ) (ask : Ask)
        → first ≤ (M.state machine.old).next
        → ShowsAsk AloneAsks (M.airport (M.state machine.old).fixed)
        (port_over first (M.state machine.old)) ask result
        (port_over first (M.state machine.new)) }
{
    let version = WatchAsk::Plain(Ask {
        seen: 0,
        what: What::Version,
    });
    answer_if_uncopied(act_next(alloc, machine, &version))
}

// Asks a machine with the number of its next call. If there is no such number, the answer is
// `Spent`, and the machine is not asked.
fn act_next<M: DeskMachine>(alloc: Global, machine: &mut M, ask: &WatchAsk) -> Acted
    requires valid { M.valid (M.state machine.old).fixed ask.now }
    ensures unasked { result ≡ Acted.Spent
        → (M.state machine.new ≡ M.state machine.old) × ((M.state machine.old).next ≡ call_limit) }
    ensures asked { result ≢ Acted.Spent
        → ActsNext M.number M.adds M.answers (M.state machine.old)
        (record { ask = ask.now; answer = result }) (M.state machine.new) }
    ensures legal { IsLegal (M.airport (M.state machine.old).fixed) (M.state machine.old).history }
    ensures fixed { (M.state machine.new).fixed ≡ (M.state machine.old).fixed }
    ensures next { (M.state machine.old).next ≤ (M.state machine.new).next }
{
    machine.is_board();
    let call = machine.next_call();
    if call == CALL_END {
        return Acted::Spent;
    }
    machine.act(alloc, call, ask)
}
