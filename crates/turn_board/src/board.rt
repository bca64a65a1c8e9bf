// The board and its seats.
ghost use Rattle.std.specs.Prelude.{◌≡◌, ◌≢◌, ◌↔◌, ◌-◌, ◌≤◌, [], false, true, IfErr, IfOk, IsSome, None, Some};
ghost use Rattle.apron_base.specs.declared.outside.Acted.TheVariants.{Spent};
ghost use Rattle.turn_board.specs.Board.{Closes, GotTurn, Meets, OpensTurnBoard, Sits};

use crate::plays::{InTurns, LookStep, Shares};
use crate::steps::{SERVING, SeatHandle, draw_number, finish_call, take_machine};
use crate::view::View;
use crate::wait::Sleepers;
use apron_base::{Acted, CALL_END, Machine};
use atomic_table::Table;
use std::alloc::Global;
use std::marker::Model;
use std::snapshot::Snapshot;
use std::sync::Wait;

/// The shares of all seats of a board together.
pub const SHARES: u64 = 1_000;

/// What one desk knows of a board: the history that it has seen; its own calls, with the counts of
/// faults that each found and left; whether the numbers had run out; and its share.
pub struct Seat<M: Machine> {
    place: SeatHandle<M>,
}

impl<M: Machine> Model for Seat<M> {
    ghost use Rattle.std.specs.Prelude.{◌≡◌, ◌<◌, []};
    ghost use Rattle.turn_board.specs.Board.{SeatState, seat_of};
    ghost use Rattle.turn_board.specs.declared.view.Stage.TheVariants.{Idle};

    ghost Value = { SeatState M.Entry M.Fixed };

    ghost view = { λ s. seat_of s.place.table_id s.place.me.0 };

    ghost invariant = { λ s. (s.place.me.1 ≡ [])
        × (s.place.me.0.stage ≡ Idle)
        × (0 < s.place.me.0.share) };
}

/// A machine that seats ask in turns, from any thread.
pub struct TurnBoard<M: Machine> {
    table: Table<Option<M>, View<M::Entry, M::Fixed>, Snapshot<M>, InTurns, Global>,
    sleepers: Sleepers,
}

impl<M: Machine> Model for TurnBoard<M> {
    ghost use Rattle.turn_board.specs.Board.{TurnBoardState};
    ghost use Rattle.turn_board.specs.Turns.{IsTurnTable};
    ghost use Rattle.turn_board.specs.Views.{start_of};

    ghost Value = { TurnBoardState M.Fixed };

    ghost view = { λ b. record {
      table = b.table.shared.table_id;
      start = start_of (M.state b.table.shared.key.value);
    } };

    ghost invariant = { λ b. IsTurnTable b.table.shared.table_id };
}

// The machine in a slot.
fn machine_of<M>(slot: Option<M>) -> M
    requires some { IsSome slot }
    ensures is { slot ≡ Some result }
{
    let Some(machine) = slot else { unreachable!() };
    machine
}

impl<M: Machine> TurnBoard<M> {
    /// A board over this machine, which has no entry at risk, and its first seat, which has all
    /// shares. Call numbers go on from the machine's next one. `Err` if there is no memory: the
    /// machine then comes back as it was.
    pub fn new(alloc: Global, machine: M) -> Result<(TurnBoard<M>, Seat<M>), M>
        requires next { (M.state machine).next ≤ CALL_END }
        requires at_risk { (M.state machine).at_risk ≡ None }
        ensures ok { IfOk result (λ made. OpensTurnBoard (M.state machine) made.0 made.1) }
        ensures err { IfErr result (λ back. back ≡ machine) }
    {
        let words = [machine.next_call(), machine.next_call(), machine.length()];
        let about = Snapshot::of(&machine);
        let mut slots = Vec::new(alloc);
        if let Err(failed) = slots.push(Some(machine)) {
            slots.destroy_empty();
            return Err(machine_of(failed.value));
        }
        match Table::new(alloc, &words, slots, &about) {
            Ok((table, place)) => {
                let sleepers = Sleepers::new();
                Ok((TurnBoard { table, sleepers }, Seat { place }))
            }
            Err(refused) => {
                let mut slots = refused.slots;
                let Some(slot) = slots.pop() else {
                    unreachable!()
                };
                slots.destroy_empty();
                Err(machine_of(slot))
            }
        }
    }

    /// Waits until the machine is free, draws a number, and gives the machine's answer. A seat that
    /// others overtake too often draws first and waits until its number is served. The answer is
    /// `Spent` exactly if the numbers have run out, and then nothing was drawn or asked. A lack of
    /// memory and faults are the machine's.
    pub fn ask<R: Wait>(&self, rt: &R, alloc: Global, seat: &mut Seat<M>, ask: &M::Ask) -> Acted
        requires sits { Sits self.now seat.old }
        requires valid { M.valid self.now.start.fixed ask.now }
        ensures sits { Sits self.now seat.new }
        ensures share { seat.new.share ≡ seat.old.share }
        ensures spent { result ≡ Spent ↔ (seat.new.exhausted ≡ true) }
        ensures unasked { result ≡ Spent → seat.new ≡ record seat.old { exhausted = true } }
        ensures answered { result ≢ Spent
            → GotTurn M.state M.number M.adds M.answers seat.old
            (record { ask = ask.now; answer = result }) seat.new }
    {
        let table = &self.table.shared;
        let sleepers = &self.sleepers;
        let place = &mut seat.place;
        let Some(call) = draw_number(rt, table, sleepers, place) else {
            return Acted::Spent;
        };
        let mut machine = take_machine(rt, table, sleepers, place, call);
        let before = machine.length();
        let answer = machine.act(alloc, call, ask);
        let added = machine.length() > before;
        finish_call(table, sleepers, place, machine, added);
        answer
    }

    /// A new seat with a share of one, which has seen as much as this one and has called nothing.
    /// It takes no memory.
    pub fn split(&self, seat: &mut Seat<M>) -> Seat<M>
        requires sits { Sits self.now seat.old }
        requires share { 2 ≤ seat.old.share }
        ensures seat { seat.new ≡ record seat.old { share = seat.old.share - 1 } }
        ensures new { result ≡ record seat.old { calls = []; exhausted = false; share = 1 } }
    {
        let place = self.table.shared.split_seat::<Shares>(&mut seat.place);
        Seat { place }
    }

    /// Takes in the other seat, with its history, its calls and its share. It takes no memory.
    pub fn meet(&self, seat: &mut Seat<M>, other: Seat<M>)
        requires seat { Sits self.now seat.old }
        requires other { Sits self.now other }
        ensures sits { Sits self.now seat.new }
        ensures meets { Meets M.number seat.old other seat.new }
    {
        let table = &self.table.shared;
        let Seat { place: other } = other;
        let place = &mut seat.place;
        table.join_seat::<Shares>(place, other);
        table.load::<LookStep>(place, SERVING);
    }

    /// The machine, once one seat has all shares, so that every other seat was taken in.
    pub fn close(self, seat: Seat<M>) -> M
        requires sits { Sits self seat }
        requires share { seat.share ≡ SHARES }
        ensures closes { Closes M.number self seat (M.state result) }
    {
        let TurnBoard { table, sleepers: _ } = self;
        let Seat { place } = seat;
        let mut closed = table.close_with(place);
        let slot = closed.take(0);
        closed.free();
        machine_of(slot)
    }
}
