// A board as a machine, at which several desks can take turns.
use crate::Board;
use apron_base::{Acted, Keeper, Machine};
use apron_rules::AirportParts;
use desk_asks::{Ask, Entry};
use std::alloc::Global;

impl<'a, K: Keeper> Machine for Board<'a, K> {
    ghost use Rattle.std.specs.Prelude.{◌≡◌};
    ghost use Rattle.desk_asks.specs.declared.asks.What.TheVariants.{Change};
    ghost use Rattle.history_core.specs.Answer.{ActsLegally};
    ghost use Rattle.history_core.specs.Board.{machine_state};
    ghost use Rattle.history_core.specs.History.{IsAskOf, call_of};

    type Ask = Ask;

    type Entry = Entry;

    type Fixed = AirportParts;

    ghost state = { machine_state K.state };

    ghost number = { call_of };

    ghost valid = { IsAskOf };

    ghost adds = { λ ask entry. ask.what ≡ Change entry.command };

    ghost answers = { ActsLegally };

    fn next_call(&self) -> u64 {
        self.next_call()
    }

    fn length(&self) -> u64 {
        self.history().len() as u64
    }

    fn act(&mut self, alloc: Global, call: u64, ask: &Ask) -> Acted {
        self.ask(alloc, call, ask)
    }
}
