// One of several desks that take turns at a board without watches.
ghost use Rattle.std.specs.Prelude.{◌≡◌};
ghost use Rattle.turn_board.specs.Board.{Sits};

use apron_base::{Acted, Keeper};
use apron_rules::Airport;
use desk_asks::Ask;
use desk_http::DeskPort;
use history_core::Board;
use std::alloc::Global;
use std::marker::Model;
use std::sync::Wait;
use turn_board::{Seat, TurnBoard};

/// The port of a desk that has a seat of its own at a board. An ask waits for its turn.
///
/// Contracts see the board and the seat.
pub struct Served<'s, 'a, R, K: Keeper> {
    rt: &'s R,
    board: &'s TurnBoard<Board<'a, K>>,
    airport: &'a Airport,
    seat: Seat<Board<'a, K>>,
}

impl<'s, 'a, R, K: Keeper> Model for Served<'s, 'a, R, K> {
    ghost use Rattle.std.specs.Prelude.{◌≡◌};
    ghost use Rattle.apron_rules.specs.declared.parts.AirportParts.{AirportParts};
    ghost use Rattle.turn_board.specs.Board.{Sits};
    ghost use Rattle.desk_workers.specs.Seats.{ServedState};

    ghost Value = { ServedState AirportParts };

    ghost view = { λ s. record { board = s.board.now; seat = s.seat } };

    ghost invariant = { λ s. Sits s.board.now s.seat
        × (s.airport.now ≡ s.board.now.start.fixed) };
}

impl<'s, 'a, R, K: Keeper> Served<'s, 'a, R, K> {
    /// The port of a seat of this board, whose airport this is.
    pub fn new(
        rt: &'s R,
        board: &'s TurnBoard<Board<'a, K>>,
        airport: &'a Airport,
        seat: Seat<Board<'a, K>>,
    ) -> Served<'s, 'a, R, K>
        requires sits { Sits board.now seat }
        requires airport { airport.now ≡ board.now.start.fixed }
        ensures board { result.board ≡ board.now }
        ensures seat { result.seat ≡ seat.entry }
    {
        Served {
            rt,
            board,
            airport,
            seat,
        }
    }

    /// The seat after the desk's calls.
    pub fn into_seat(self) -> Seat<Board<'a, K>>
        ensures seat { result ≡ self.entry.seat }
        ensures sits { Sits self.entry.board result }
    {
        let Served {
            rt: _,
            board: _,
            airport: _,
            seat,
        } = self;
        seat
    }
}

impl<'s, 'a, R: Wait, K: Keeper> DeskPort for Served<'s, 'a, R, K> {
    ghost use Rattle.desk_workers.specs.Seats.{SeatTurn, board_and_share, fixed_of, port_of};

    type Fixed = (TurnBoard<Board<'a, K>>, u64);

    ghost airport_of = { fixed_of };

    ghost fixed = { board_and_share };

    ghost port = { port_of };

    ghost asks = { SeatTurn };

    ghost takes_turns = { λ airport before after ask given turn. turn.0 };

    fn airport(&self) -> &Airport {
        self.airport
    }

    fn ask(&mut self, alloc: Global, ask: &Ask) -> Acted {
        self.board.ask(self.rt, alloc, &mut self.seat, ask)
    }
}
