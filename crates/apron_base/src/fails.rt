// Calls that fail on command, for the types that keep what is outside in memory.
ghost use Rattle.std.specs.Prelude.{◌≡◌, true};
ghost use Rattle.apron_base.specs.Counts.{Counts};
ghost use Rattle.apron_base.specs.Fails.{after_fault, fails_after_call, fails_from, is_to_fail};

use crate::Failed;
use std::marker::Model;

/// The numbers of the calls that fail, from 0. Contracts see them, how many calls there were, and
/// how many have failed.
#[derive(Drop)]
pub(crate) struct FailingCalls {
    numbers: Vec<u64>,
    calls: u64,
    faults: u64,
}

impl Model for FailingCalls {
    ghost use Rattle.apron_base.specs.Fails.{FailsHeld};

    ghost Value = { FailsHeld };

    ghost view = { λ f. record { numbers = f.numbers.items; calls = f.calls; faults = f.faults } };
}

impl FailingCalls {
    /// The calls of these numbers, in any order, are to fail.
    pub(crate) fn new(numbers: Vec<u64>) -> FailingCalls
        ensures held { result ≡ fails_from numbers.items }
    {
        FailingCalls {
            numbers,
            calls: 0,
            faults: 0,
        }
    }

    /// Counts a call, and says whether it is to fail.
    pub(crate) fn is_next(&mut self) -> bool
        ensures told { result ≡ is_to_fail self.old }
        ensures counted { self.new ≡ fails_after_call self.old }
    {
        let call = self.calls;
        self.calls = self.calls.saturating_add(1);
        self.numbers.contains(&call)
    }

    /// Counts a fault.
    pub(crate) fn fail(&mut self) -> Failed
        ensures counted { self.new ≡ after_fault self.old }
        ensures rose { Counts true self.old.faults self.new.faults }
    {
        self.faults = self.faults.saturating_add(1);
        Failed
    }
}
