// One of several desks that take turns at a board with watches.
ghost use Rattle.std.specs.Prelude.{◌≡◌};
ghost use Rattle.desk_asks.specs.declared.asks.Ask.{Ask};
ghost use Rattle.history_core.specs.History.{IsAskOf};
ghost use Rattle.turn_board.specs.Board.{Sits};
ghost use Rattle.desk_workers.specs.Machines.{AsksPlainly, answer_if_uncopied};

use crate::machine::DeskMachine;
use apron_base::{Acted, Memory, Name};
use apron_rules::Airport;
use desk_asks::{Ask, What};
use desk_http::{DeskPort, FeedPort};
use std::alloc::Global;
use std::marker::Model;
use std::sync::Wait;
use turn_board::{Seat, TurnBoard};
use watch_list::WatchAsk;

/// The port of a desk that has a seat of its own at a board with watches, which may have something
/// around it. An ask waits for its turn.
///
/// Contracts see the board and the seat.
pub struct SeatPort<'s, R, M: DeskMachine> {
    rt: &'s R,
    board: &'s TurnBoard<M>,
    airport: &'s Airport,
    seat: Seat<M>,
}

impl<'s, R, M: DeskMachine> Model for SeatPort<'s, R, M> {
    ghost use Rattle.std.specs.Prelude.{◌≡◌};
    ghost use Rattle.turn_board.specs.Board.{Sits};
    ghost use Rattle.desk_workers.specs.Seats.{ServedState};

    ghost Value = { ServedState M.Fixed };

    ghost view = { λ s. record { board = s.board.now; seat = s.seat } };

    ghost invariant = { λ s. Sits s.board.now s.seat
        × (s.airport.now ≡ M.airport s.board.now.start.fixed) };
}

impl<'s, R, M: DeskMachine> SeatPort<'s, R, M> {
    /// The port of a seat of this board, whose airport this is.
    pub fn new(
        rt: &'s R,
        board: &'s TurnBoard<M>,
        airport: &'s Airport,
        seat: Seat<M>,
    ) -> SeatPort<'s, R, M>
        requires sits { Sits board.now seat }
        requires airport { airport.now ≡ M.airport board.now.start.fixed }
        ensures board { result.board ≡ board.now }
        ensures seat { result.seat ≡ seat }
    {
        SeatPort {
            rt,
            board,
            airport,
            seat,
        }
    }

    /// The seat after the desk's calls.
    pub fn into_seat(self) -> Seat<M>
        ensures seat { result ≡ self.entry.seat }
        ensures sits { Sits self.entry.board result }
    {
        let SeatPort {
            rt: _,
            board: _,
            airport: _,
            seat,
        } = self;
        seat
    }
}

impl<'s, R: Wait, M: DeskMachine> DeskPort for SeatPort<'s, R, M> {
    ghost use Rattle.desk_workers.specs.Seats.{SeatTurn, board_and_share, fixed_of, port_of};

    type Fixed = (TurnBoard<M>, u64);

    ghost airport_of = { λ s. M.airport (fixed_of s) };

    ghost fixed = { board_and_share };

    ghost port = { port_of };

    ghost asks = { SeatTurn };

    ghost takes_turns = { λ airport before after ask given turn. turn.0 };

    fn airport(&self) -> &Airport {
        self.airport
    }

    fn ask(&mut self, alloc: Global, ask: &Ask) -> Acted {
        ask_copy(self.rt, alloc, self.board, &mut self.seat, ask)
    }
}

impl<'s, R: Wait, M: DeskMachine> FeedPort for SeatPort<'s, R, M> {
    ghost use Rattle.desk_workers.specs.Feeds.{FeedTurns};

    ghost feed_text = { λ fixed airport. M.feed_text fixed.0.start.fixed };

    ghost feeds = { λ fixed. FeedTurns (M.feed_text fixed.0.start.fixed) };

    ghost feeds_take_turns = { λ fixed airport before after ask given turn. turn.0 };

    fn feed(&mut self, alloc: Global, seen: u32, watch: &Name, after: u32) -> Acted {
        let feed = WatchAsk::Feed {
            seen,
            watch: *watch,
            after,
        };
        self.board.ask(self.rt, alloc, &mut self.seat, &feed)
    }
}

// Asks at a seat. An ask that no memory is there to copy is answered so after a call all the same.
fn ask_copy<R: Wait, M: DeskMachine>(
    rt: &R,
    alloc: Global,
    board: &TurnBoard<M>,
    seat: &mut Seat<M>,
    ask: &Ask,
) -> Acted
    requires sits { Sits board.now seat.old }
    requires valid { IsAskOf (M.airport board.now.start.fixed) ask.now }
    ensures sits { Sits board.now seat.new }
    ensures share { seat.new.share ≡ seat.old.share }
    ensures asks { AsksPlainly M.state M.airport seat.old (record { ask = ask.now; answer = result })
        seat.new }
{
    match ask.copy(alloc) {
        Ok(own) => ask_plainly(rt, alloc, board, seat, own),
        Err(Memory) => call_uncopied(rt, alloc, board, seat),
    }
}

// Asks at a seat. It is answered as by a board.
fn ask_plainly<R: Wait, M: DeskMachine>(
    rt: &R,
    alloc: Global,
    board: &TurnBoard<M>,
    seat: &mut Seat<M>,
    ask: Ask,
) -> Acted
    requires sits { Sits board.now seat.old }
    requires valid { IsAskOf (M.airport board.now.start.fixed) ask }
    ensures sits { Sits board.now seat.new }
    ensures share { seat.new.share ≡ seat.old.share }
    ensures asks { AsksPlainly M.state M.airport seat.old
        (record { ask = ask; answer = result }) seat.new }
{
    board.ask(rt, alloc, seat, &WatchAsk::Plain(ask))
}

// Makes a call that asks for the version, and answers that there is no memory, or `Spent` if the
// numbers have run out.
fn call_uncopied<R: Wait, M: DeskMachine>(
    rt: &R,
    alloc: Global,
    board: &TurnBoard<M>,
    seat: &mut Seat<M>,
) -> Acted
    requires sits { Sits board.now seat.old }
    ensures sits { Sits board.now seat.new }
    ensures share { seat.new.share ≡ seat.old.share }
    ensures asks { (ask : Ask)
        → AsksPlainly M.state M.airport seat.old (record { ask = ask; answer = result }) seat.new }
{
    let version = Ask {
        seen: 0,
        what: What::Version,
    };
    answer_if_uncopied(ask_plainly(rt, alloc, board, seat, version))
}

/// The answer to an ask that could not be copied, by that to the call that was made in its place.
pub(crate) fn answer_if_uncopied(answer: Acted) -> Acted
    ensures is { result ≡ answer_if_uncopied answer }
{
    match answer {
        Acted::Spent => Acted::Spent,
        _ => Acted::Memory,
    }
}
