// One desk alone over a board.
ghost use Rattle.std.specs.Prelude.{◌≡◌};

use crate::DeskPort;
use apron_base::{Acted, CALL_END, Keeper};
use apron_rules::Airport;
use desk_asks::Ask;
use history_core::Board;
use std::alloc::Global;
use std::marker::Model;

/// The port of a desk that has a board to itself. It numbers its calls from the board's next one
/// on, and waits for nobody.
#[derive(Drop)]
pub struct Alone<'a, K: Keeper> {
    board: Board<'a, K>,
    first: u64,
}

impl<'a, K: Keeper> Model for Alone<'a, K> {
    ghost use Rattle.std.specs.Prelude.{◌≤◌};
    ghost use Rattle.desk_http.specs.Alone.{AloneHeld, IsAlone};

    ghost Value = { AloneHeld K };

    ghost view = { λ a. record { board = a.board; first = a.first } };

    ghost invariant = { λ a. IsAlone a.board.airport a.board.history a.board.next a.first };
}

impl<'a, K: Keeper> Alone<'a, K> {
    /// A desk that has made no call yet.
    pub fn new(board: Board<'a, K>) -> Alone<'a, K>
        ensures board { result.board ≡ board.entry }
        ensures first { result.first ≡ board.entry.next }
    {
        let first = board.next_call();
        Alone { board, first }
    }

    /// The board after the desk's calls.
    pub fn into_board(self) -> Board<'a, K>
        ensures board { result ≡ self.entry.board }
    {
        self.board
    }
}

impl<'a, K: Keeper> DeskPort for Alone<'a, K> {
    ghost use Rattle.desk_http.specs.Alone.{AloneAsks, alone_port};

    type Fixed = ();

    ghost airport_of = { λ a. a.board.airport };

    ghost fixed = { λ a. tt };

    ghost port = { alone_port K.state };

    ghost asks = { AloneAsks };

    ghost takes_turns = { λ airport before after ask given asked. asked.0 };

    fn airport(&self) -> &Airport {
        self.board.airport()
    }

    fn ask(&mut self, alloc: Global, ask: &Ask) -> Acted {
        let call = self.board.next_call();
        if call == CALL_END {
            return Acted::Spent;
        }
        self.board.ask(alloc, call, ask)
    }
}
