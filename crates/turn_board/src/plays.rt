// The rule of the table, and what each step on it shows.
use crate::view::View;
use apron_base::Machine;
use atomic_table::{Join, Play, Split, TableRule};
use std::snapshot::Snapshot;

/// The rule of the turns.
pub(crate) struct InTurns;

impl<M: Machine> TableRule<Option<M>, View<M::Entry, M::Fixed>, Snapshot<M>> for InTurns {
    ghost use Rattle.turn_board.specs.Rule.{TurnRule};
    ghost use Rattle.turn_board.specs.Views.{first_view};

    ghost holds = { λ key. TurnRule M.number M.state (M.state key.value) };

    ghost first = { λ key. first_view (M.state key.value) };
}

/// A number is drawn.
pub(crate) struct DrawStep;

impl<M: Machine> Play<Option<M>, View<M::Entry, M::Fixed>> for DrawStep {
    ghost use Rattle.turn_board.specs.Plays.{DrawsNumber};

    ghost then = { DrawsNumber };
}

/// The machine is taken.
pub(crate) struct TakeStep;

impl<M: Machine> Play<Option<M>, View<M::Entry, M::Fixed>> for TakeStep {
    ghost use Rattle.turn_board.specs.Plays.{Takes};

    ghost then = { Takes M.state M.number };
}

/// What the machine left is noted.
pub(crate) struct NoteStep;

impl<M: Machine> Play<Option<M>, View<M::Entry, M::Fixed>> for NoteStep {
    ghost use Rattle.turn_board.specs.Plays.{Notes};

    ghost then = { Notes M.state };
}

/// An entry is counted.
pub(crate) struct CountStep;

impl<M: Machine> Play<Option<M>, View<M::Entry, M::Fixed>> for CountStep {
    ghost use Rattle.turn_board.specs.Plays.{CountsEntry};

    ghost then = { CountsEntry };
}

/// A call ends.
pub(crate) struct EndStep;

impl<M: Machine> Play<Option<M>, View<M::Entry, M::Fixed>> for EndStep {
    ghost use Rattle.turn_board.specs.Plays.{EndsCall};

    ghost then = { EndsCall };
}

/// A seat looks at what it took in.
pub(crate) struct LookStep;

impl<M: Machine> Play<Option<M>, View<M::Entry, M::Fixed>> for LookStep {
    ghost use Rattle.turn_board.specs.Plays.{LooksAfterMeeting};

    ghost then = { LooksAfterMeeting M.number };
}

/// A new seat gets a share of one, and is taken in with its shares.
pub(crate) struct Shares;

impl<E, F> Split<View<E, F>> for Shares {
    ghost use Rattle.turn_board.specs.Views.{less_one, split_off};

    ghost left = { less_one };

    ghost right = { split_off };
}

impl<E, F> Join<View<E, F>> for Shares {
    ghost use Rattle.turn_board.specs.Views.{both, spent_view};

    ghost both = { both };

    ghost spent = { spent_view };
}
