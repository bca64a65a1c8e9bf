// The steps of one call, on the table that the seats share.
ghost use Rattle.std.specs.Prelude.{◌≡◌, ◌+◌, ◌<◌, ◌≤◌, [], ◌∷◌, length, cond, false, IfSome, IfNone, None, Some};
ghost use Rattle.turn_board.specs.Plays.{IsMachineTaken};
ghost use Rattle.turn_board.specs.Totals.{AreBelow};
ghost use Rattle.turn_board.specs.Turns.{HasActed, HasLeftAtRisk, IsOver, IsSeatOf};
ghost use Rattle.turn_board.specs.Views.{after_act, after_count, after_draw, after_end, after_take, call_end, run_out};
ghost use Rattle.turn_board.specs.declared.view.Stage.TheVariants.{Idle, Noted, Waiting};
ghost use Rattle.turn_board.specs.declared.view.Start.{Start};

use crate::plays::{CountStep, DrawStep, EndStep, InTurns, NoteStep, TakeStep};
use crate::view::View;
use crate::wait::{Patience, Sleepers};
use apron_base::{CALL_END, Machine};
use atomic_table::{Seat, Shared};
use std::snapshot::Snapshot;
use std::sync::Wait;

/// The word with the next ticket.
pub(crate) const TICKET: usize = 0;
/// The word with the ticket that is served.
pub(crate) const SERVING: usize = 1;
/// The word with the number of entries.
pub(crate) const COUNT: usize = 2;

/// What the seats of a board share.
pub(crate) type SharedTable<M> = Shared<
    Option<M>,
    View<<M as Machine>::Entry, <M as Machine>::Fixed>,
    Snapshot<M>,
    InTurns,
>;

/// A seat of the table.
pub(crate) type SeatHandle<M> = Seat<Option<M>, View<<M as Machine>::Entry, <M as Machine>::Fixed>>;

// The ticket word after a draw.
fn after(ticket: u64) -> u64
    ensures next { ticket < call_end → result ≡ ticket + 1 }
    ensures full { call_end ≤ ticket → result ≡ ticket }
{
    if ticket < CALL_END {
        ticket + 1
    } else {
        ticket
    }
}

/// The next number, drawn once the machine is free or patience is over; `None` if the numbers have
/// run out.
pub(crate) fn draw_number<M: Machine, R: Wait>(
    rt: &R,
    table: &SharedTable<M>,
    sleepers: &Sleepers,
    place: &mut SeatHandle<M>,
) -> Option<u64>
    requires table { IsSeatOf table.now.table_id place.old.table_id }
    requires idle { (place.old.me.0.stage ≡ Idle) × (0 < place.old.me.0.share) }
    ensures table { place.new.table_id ≡ place.old.table_id }
    ensures slots { place.new.me.1 ≡ place.old.me.1 }
    ensures none { IfNone result (place.new.me.0 ≡ run_out place.old.me.0) }
    ensures drawn { IfSome result (λ number. (number < call_end)
        × (place.new.me.0 ≡ after_draw number place.old.me.0)
        × AreBelow number place.old.me.0.calls
        × (place.old.me.0.exhausted ≡ false)) }
{
    let mut patience = Patience::new();
    for _ in rt.forever() {
        // The number served only rises, up to the ticket: if they are equal in this order and the
        // draw succeeds, the machine is free.
        let serving = table.peek(SERVING);
        let guess = table.peek(TICKET);
        if guess != serving && !patience.is_over() {
            patience.wait(rt, table, sleepers, serving);
            continue;
        }
        let next = after(guess);
        let found = table.compare_exchange::<DrawStep>(place, TICKET, guess, next);
        if found == CALL_END {
            return None;
        }
        if found == guess {
            patience.pass_on(sleepers);
            return Some(found);
        }
    }
    unreachable!()
}

/// The machine, once the number is served.
pub(crate) fn take_machine<M: Machine, R: Wait>(
    rt: &R,
    table: &SharedTable<M>,
    sleepers: &Sleepers,
    place: &mut SeatHandle<M>,
    number: u64,
) -> M
    requires table { IsSeatOf table.now.table_id place.old.table_id }
    requires waits { (place.old.me.0.stage ≡ Waiting)
        × (0 < place.old.me.0.share)
        × (place.old.me.0.number ≡ number)
        × (place.old.me.1 ≡ []) }
    ensures table { place.new.table_id ≡ place.old.table_id }
    ensures turn { place.new.me ≡ (after_take (M.state result) place.old.me.0, (0, None) ∷ []) }
    ensures taken { IsMachineTaken M.number place.old.me.0 number (M.state result) }
{
    let mut patience = Patience::new();
    for _ in rt.forever() {
        let found = table.load::<TakeStep>(place, SERVING);
        if found == number {
            let Some(machine) = table.exchange(place, 0, None) else {
                unreachable!()
            };
            return machine;
        }
        patience.wait(rt, table, sleepers, found);
    }
    unreachable!()
}

// Puts the machine back beside its slot, and notes what its act left.
fn note_act<M: Machine>(table: &SharedTable<M>, place: &mut SeatHandle<M>, machine: M)
    requires table { IsSeatOf table.now.table_id place.old.table_id }
    requires acted { HasActed M.number place.old.me (M.state machine) }
    requires at_risk { HasLeftAtRisk M.number place.old.me (M.state machine) }
    ensures table { place.new.table_id ≡ place.old.table_id }
    ensures noted { place.new.me
        ≡ (after_act (M.state machine) place.old.me.0, (0, Some machine) ∷ []) }
{
    let left = table.exchange(place, 0, Some(machine));
    let None = left else { unreachable!() };
    table.load::<NoteStep>(place, SERVING);
}

// Adds to the count if an entry was added.
fn count_entry<M: Machine>(table: &SharedTable<M>, place: &mut SeatHandle<M>, added: bool)
    requires table { IsSeatOf table.now.table_id place.old.table_id }
    requires acted { (place.old.me.0.stage ≡ Noted)
        × (0 < place.old.me.0.share)
        × (place.old.me.0.owes ≡ cond added 1 0) }
    ensures table { place.new.table_id ≡ place.old.table_id }
    ensures counted { place.new.me
        ≡ (cond added (after_count place.old.me.0) place.old.me.0, place.old.me.1) }
{
    if added {
        table.fetch_add::<CountStep>(place, COUNT, 1);
    }
}

// Gives the machine back to its slot, lets the next number be served, and wakes a seat that sleeps.
fn end_call<M: Machine>(table: &SharedTable<M>, sleepers: &Sleepers, place: &mut SeatHandle<M>)
    requires table { IsSeatOf table.now.table_id place.old.table_id }
    requires over { (machine : _) × IsOver M.state place.old.me machine }
    ensures table { place.new.table_id ≡ place.old.table_id }
    ensures ended { place.new.me ≡ (after_end place.old.me.0, []) }
{
    let is_awaited = table.peek(TICKET).saturating_sub(table.peek(SERVING)) > 1;
    table.fetch_add::<EndStep>(place, SERVING, 1);
    sleepers.wake(table, is_awaited);
}

/// Ends a call after the machine's act: the machine is back before the next number is served.
pub(crate) fn finish_call<M: Machine>(
    table: &SharedTable<M>,
    sleepers: &Sleepers,
    place: &mut SeatHandle<M>,
    machine: M,
    added: bool,
)
    requires table { IsSeatOf table.now.table_id place.old.table_id }
    requires acted { HasActed M.number place.old.me (M.state machine) }
    requires at_risk { HasLeftAtRisk M.number place.old.me (M.state machine) }
    requires added { length (M.state machine).history
        ≡ length place.old.me.0.seen + cond added 1 0 }
    requires next { (M.state machine).next ≡ place.old.me.0.number + 1 }
    requires start { (start : Start M.Fixed)
        × (place.old.me.0.start ≡ Some start)
        × ((M.state machine).fixed ≡ start.fixed) }
    ensures table { place.new.table_id ≡ place.old.table_id }
    ensures ended { place.new.me ≡ (after_end (after_act (M.state machine) place.old.me.0), []) }
{
    note_act(table, place, machine);
    count_entry(table, place, added);
    end_call(table, sleepers, place);
}
