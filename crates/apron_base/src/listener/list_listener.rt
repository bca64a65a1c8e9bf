// A listener in memory, for tests, with calls that fail on command.
ghost use Rattle.std.specs.Prelude.{◌≡◌, [], is_err, IfOk};
ghost use Rattle.apron_base.specs.Fails.{fails_after_count, fails_from};
ghost use Rattle.apron_base.specs.Listener.{Accepts};
ghost use Rattle.apron_base.specs.ListListener.{list_listener_state, refuses_accept};

use crate::fails::FailingCalls;
use crate::{Failed, Finished, Listener, Outcome, Sink, Source};
use std::alloc::{AllocError, Global};
use std::collections::VecDeque;
use std::marker::Model;
use std::sync::Wait;

/// A listener of given connections, with calls that fail. Contracts see the connections to come,
/// the finished ones, how many were accepted and the calls that fail.
#[derive(Drop)]
pub struct ListListener<I, O> {
    to_come: VecDeque<(I, O)>,
    finished: Vec<Finished<I, O>>,
    accepted: u64,
    fails: FailingCalls,
}

impl<I, O> Model for ListListener<I, O> {
    ghost use Rattle.apron_base.specs.ListListener.{HasPlaces, ListenerHeld};

    ghost Value = { ListenerHeld I O };

    ghost view = { λ l. record {
      to_come = l.to_come.items;
      finished = l.finished.items;
      accepted = l.accepted;
      fails = l.fails;
    } };

    ghost invariant = { λ l. HasPlaces l.to_come.items l.finished l.accepted };
}

impl<I: Drop, O: Drop> ListListener<I, O> {
    /// `fails` are the numbers of the accepts that fail, from 0, in any order. An accept that fails
    /// takes no connection. An accept also fails if no connection is to come. `Err` if there is no
    /// memory for as many finished connections as there are to come.
    pub fn new(alloc: Global, to_come: Vec<(I, O)>, fails: Vec<u64>) -> Result<Self, AllocError>
        ensures ok { IfOk result (λ listener. listener
            ≡ record {
              to_come = to_come.items;
              finished = [];
              accepted = 0;
              fails = fails_from fails.items;
            }) }
    {
        Ok(ListListener {
            finished: Vec::with_capacity(alloc, to_come.len())?,
            to_come: VecDeque::from(to_come),
            accepted: 0,
            fails: FailingCalls::new(fails),
        })
    }

    /// The finished connections, in the order in which they were finished.
    pub fn finished(&self) -> &[Finished<I, O>]
        ensures finished { result.now ≡ self.now.finished }
    {
        &self.finished
    }
}

impl<I: Source + Drop, O: Sink + Drop> Listener for ListListener<I, O> {
    type In = I;

    type Out = O;

    ghost state = { list_listener_state };

    fn accept<R: Wait>(&mut self, _rt: &R) -> Result<(I, O), Failed>
        ensures accepts { Accepts (list_listener_state self.old)
            (list_listener_state self.new) result }

        // Exactly the given calls, and those with no connection to come, fail.
        ensures refused { is_err result ≡ refuses_accept self.old }
        ensures called { self.new.fails ≡ fails_after_count (is_err result) self.old.fails }
    {
        if self.fails.is_next() {
            return Err(self.fails.fail());
        }
        let Some(first) = self.to_come.pop_front() else {
            return Err(self.fails.fail());
        };
        self.accepted += 1;
        Ok(first)
    }

    fn finish(&mut self, input: I, output: O, outcome: Outcome) {
        self.finished.push_reserved(Finished {
            source: input,
            sink: output,
            outcome,
        });
    }
}
