// A board whose plan is shown on screens, as a machine.
ghost use Rattle.std.specs.Prelude.{◌≡◌, ◌≤◌, ◌<◌, false, map};
ghost use Rattle.std.specs.List.{AllZip};
ghost use Rattle.apron_base.specs.Histories.{Every, Rises};
ghost use Rattle.apron_base.specs.Machine.{Acts, ActsAtRisk, history_at_risk_of, is_fault};
ghost use Rattle.history_core.specs.History.{IsLegal, call_limit, call_of};
ghost use Rattle.watch_list.specs.WatchBoards.{CanAdd, IsWatchAskOf, WatchAnswers, watch_fixed};
ghost use Rattle.shown_board.specs.Halls.{IsHall, IsNewWriter, IsShown, SeesFronts, hall_note, hall_plan, hall_state, pairs_of};

use crate::charts::Charts;
use crate::note::HallNote;
use crate::show::{close_all, know_all, show_on_all};
use apron_base::{Acted, Keeper, Machine};
use desk_asks::Entry;
use screen_feed::{Screen, ScreenWriter};
use std::alloc::Global;
use std::marker::Model;
use std::sync::Wait;
use watch_list::{NoteTest, Stated, WatchAsk, WatchBoard, WatchFixed};

/// A board with watches, and the writers of screens, on which its plan is shown after each act.
///
/// Contracts see the board, what each writer has shown, whether the last act missed a show, and the
/// number that the next call might have as the hall was made.
/// Each sheet of a writer is the chart of the plan that a front of the board's history makes, with
/// as many entries as the sheet's version says. It is not `Drop`: end it by `into_board`.
pub struct Hall<'s, 'w, 'a, W, K: Keeper, R: Stated, T: NoteTest> {
    rt: &'s W,
    board: WatchBoard<'w, 'a, K, R, T>,
    writers: Vec<ScreenWriter>,
    missed: bool,
    begun: u64,
}

/// What no act changes of a hall: the airport and the watches of its board, the pairs of its
/// writers, and with which call it began. No value of it is made.
pub struct HallFixed<R> {
    watched: WatchFixed<R>,
    writers: Vec<ScreenWriter>,
    begun: u64,
}

impl<R> Model for HallFixed<R> {
    ghost use Rattle.shown_board.specs.Halls.{HallFixedState, pairs_of};

    ghost Value = { HallFixedState R };

    ghost view = { λ f. record {
      watched = f.watched;
      pairs = pairs_of f.writers.items;
      begun = f.begun;
    } };
}

impl<'s, 'w, 'a, W, K: Keeper, R: Stated, T: NoteTest> Model for Hall<'s, 'w, 'a, W, K, R, T> {
    ghost use Rattle.shown_board.specs.Halls.{HallHeld, IsHall};

    ghost Value = { HallHeld K R };

    ghost view = { λ h. record {
      board = h.board;
      writers = h.writers.items;
      missed = h.missed;
      begun = h.begun;
    } };

    ghost invariant = { λ h. IsHall (record {
      board = h.board;
      writers = h.writers.items;
      missed = h.missed;
      begun = h.begun;
    }) };
}

impl<'s, 'w, 'a, W: Wait, K: Keeper, R: Stated, T: NoteTest> Hall<'s, 'w, 'a, W, K, R, T> {
    /// The board with these writers, which have shown its plan and nothing else. It takes no
    /// memory.
    pub fn new(
        rt: &'s W,
        board: WatchBoard<'w, 'a, K, R, T>,
        writers: Vec<ScreenWriter>,
    ) -> Hall<'s, 'w, 'a, W, K, R, T>
        requires writers { Every
            (IsNewWriter board.board.airport board.board.history) writers.items }
        ensures board { result.board ≡ board.entry }
        ensures writers { result.writers ≡ writers.items }
        ensures missed { result.missed ≡ false }
        ensures begun { result.begun ≡ board.entry.next }
    {
        // It is legal, so that it has as many entries as its plan's version says.
        let _history = board.board().history();
        let begun = board.next_call();
        Hall {
            rt,
            board,
            writers,
            missed: false,
            begun,
        }
    }

    /// Whether some writer does not show the version of the board's plan, since a show of the last
    /// act had no memory. False before the first act. It takes no memory.
    pub fn missed(&self) -> bool
        ensures value { result ≡ self.now.missed }
        ensures shows { IsHall self.now }
    {
        self.missed
    }

    /// What it has noted, for those who end it: None if it has no writer. It takes no memory.
    pub fn note(&self) -> Option<HallNote>
        ensures value { result ≡ hall_note self.now }
        ensures shows { IsHall self.now }
    {
        if self.writers.is_empty() {
            return None;
        }
        Some(HallNote {
            begun: self.begun,
            version: self.board.board().plan().version(),
            writers: self.writers.len(),
            missed: self.missed,
        })
    }

    /// Nothing is done: it shows that each sheet which a screen of these writers has seen is the
    /// chart of a front of the board's history.
    pub fn knows(&mut self, screens: &[Screen])
        requires pairs { pairs_of self.old.writers ≡ map (λ screen. screen.pair) screens.now }
        ensures same { self.new ≡ self.old }
        ensures fronts { let board = self.old.board.board in
            Every (SeesFronts board.airport board.history) screens.now }
    {
        know_all(self.writers.as_mut_slice(), screens);
    }

    /// Ends the writers, and gives the board back. It may wait for screens that are looking, and
    /// takes no memory.
    pub fn into_board(self) -> WatchBoard<'w, 'a, K, R, T>
        ensures board { result ≡ self.entry.board }
    {
        let Hall {
            rt,
            board,
            writers,
            missed: _,
            begun: _,
        } = self;
        close_all(rt, writers);
        board
    }

    /// The least number that the next call may have. The entries' numbers are lower.
    pub fn next_call(&self) -> u64
        ensures value { result ≡ self.now.board.next }
        ensures few { result ≤ call_limit }
        ensures numbers { Rises call_of 1 result self.now.board.board.history }
        ensures legal { IsLegal self.now.board.board.airport self.now.board.board.history }
    {
        self.board.next_call()
    }

    /// What the board answers. Then each writer whose version is another shows the board's plan,
    /// whatever the answer is, and it is noted anew whether one does not. The answer is the same if
    /// memory runs out for that. It may wait for screens that are looking.
    pub fn ask(&mut self, alloc: Global, call: u64, ask: &WatchAsk) -> Acted
        requires valid { IsWatchAskOf (watch_fixed self.old.board) ask.now }
        requires next { self.old.board.next ≤ call }
        requires last { call < call_limit }
        ensures acts { Acts call_of (hall_state K.state self.old) (hall_state K.state self.new)
            call result }
        ensures at_risk { ActsAtRisk (λ entry. (call_of entry ≡ call) × CanAdd ask.now entry)
            (is_fault result) (history_at_risk_of (hall_state K.state self.old))
            (history_at_risk_of (hall_state K.state self.new)) }
        ensures answers { WatchAnswers R.tells (watch_fixed self.old.board)
            self.old.board.board.history call ask.now result self.new.board.board.history }
        ensures shown { AllZip (IsShown (hall_plan self.new)) self.old.writers self.new.writers }
    {
        let acted = self.board.act(alloc, call, ask);
        let board = self.board.board();
        // It is legal, so that it has as many entries as its plan's version says.
        let _history = board.history();
        let mut charts = Charts::of(board.airport(), board.plan());
        let missed = show_on_all(self.rt, alloc, &mut charts, self.writers.as_mut_slice());
        self.missed = missed;
        acted
    }
}

impl<'s, 'w, 'a, W: Wait, K: Keeper, R: Stated, T: NoteTest> Machine
    for Hall<'s, 'w, 'a, W, K, R, T> {
    ghost use Rattle.history_core.specs.History.{call_of};
    ghost use Rattle.watch_list.specs.WatchBoards.{CanAdd, IsWatchAskOf, WatchAnswers};
    ghost use Rattle.shown_board.specs.Halls.{hall_state};

    type Ask = WatchAsk;

    type Entry = Entry;

    type Fixed = HallFixed<R>;

    ghost state = { hall_state K.state };

    ghost number = { call_of };

    ghost valid = { λ fixed. IsWatchAskOf fixed.watched };

    ghost adds = { CanAdd };

    ghost answers = { λ fixed. WatchAnswers R.tells fixed.watched };

    fn next_call(&self) -> u64 {
        self.next_call()
    }

    fn length(&self) -> u64 {
        self.board.length()
    }

    fn act(&mut self, alloc: Global, call: u64, ask: &WatchAsk) -> Acted {
        self.ask(alloc, call, ask)
    }
}
