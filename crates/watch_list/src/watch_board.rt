// A board with watches, and with the notes of its history, as a machine.
ghost use Rattle.std.specs.Prelude.{◌≡◌, ◌≤◌, ◌<◌, ◌+◌, length, None, IfErr, IfOk, IfSome};
ghost use Rattle.apron_base.specs.Histories.{Rises};
ghost use Rattle.history_core.specs.Board.{AsksBoard};
ghost use Rattle.history_core.specs.History.{IsAskOf, IsLegal, call_limit, call_of, replay};
ghost use Rattle.history_core.specs.Opening.{CannotOpen, OpensBoard};
ghost use Rattle.watch_list.specs.HistoryNotes.{notes_of};
ghost use Rattle.watch_list.specs.WatchBoards.{feed_outcome, feed_reply, watch_fixed};

use crate::feed_words::{FeedOutcome, fed_bytes};
use crate::later::later_notes;
use crate::note::{Note, Stated};
use crate::noted_board::{NotedBoard, notes_of};
use crate::watch::NoteTest;
use crate::watch_asks::{WatchAsk, WatchFixed};
use crate::watch_feed::feed;
use crate::watches::Watches;
use apron_base::{Acted, Keeper, Listed, Machine, Memory, Name};
use apron_rules::Airport;
use desk_asks::{Ask, Entry};
use history_core::{Board, OpenFault};
use std::alloc::Global;
use std::marker::Model;

/// A board with the notes of its history, and watches that are fed with them.
///
/// Contracts see the board, the watches' names and what they state, and the least number that the
/// next call may have.
#[derive(Drop)]
pub struct WatchBoard<'w, 'a, K: Keeper, R: Stated, T: NoteTest> {
    noted: NotedBoard<'a, K>,
    watches: &'w Watches<R, T>,
    next: u64,
}

impl<'w, 'a, K: Keeper, R: Stated, T: NoteTest> Model for WatchBoard<'w, 'a, K, R, T> {
    ghost use Rattle.std.specs.Prelude.{◌≤◌};
    ghost use Rattle.apron_base.specs.Histories.{Rises};
    ghost use Rattle.history_core.specs.History.{call_limit, call_of};
    ghost use Rattle.watch_list.specs.WatchBoards.{WatchHeld};

    ghost Value = { WatchHeld K R };

    ghost view = { λ w. record { board = w.noted; watches = w.watches.now; next = w.next } };

    ghost invariant = { λ w. (w.noted.next ≤ w.next)
        × Rises call_of 1 w.next w.noted.history
        × (w.next ≤ call_limit) };
}

impl<'w, 'a, K: Keeper, R: Stated, T: NoteTest> WatchBoard<'w, 'a, K, R, T> {
    /// The board with these watches. At `Err` there is no memory, and the board comes back as it
    /// was.
    pub fn new(
        alloc: Global,
        airport: &'a Airport,
        board: Board<'a, K>,
        watches: &'w Watches<R, T>,
    ) -> Result<WatchBoard<'w, 'a, K, R, T>, Board<'a, K>>
        requires airport { airport.now ≡ board.airport }
        ensures made { IfOk result (λ made. made
            ≡ record {
              board = board.entry;
              watches = watches.entry.now;
              next = board.entry.next;
            }) }
        ensures back { IfErr result (λ back. back ≡ board.entry) }
    {
        match notes_of(alloc, airport, board.history()) {
            Ok(notes) => Ok(WatchBoard::of(NotedBoard::of(board, notes), watches)),
            Err(Memory) => Err(board),
        }
    }

    /// The board over a keeper that has these entries and none at risk, with these watches. It is
    /// the board that `Board::open` opens, and each entry is read once. `Err` names the first entry
    /// that is refused, or says that there is no memory. Either way the keeper is as it was.
    pub fn open(
        alloc: Global,
        airport: &'a Airport,
        keeper: K,
        entries: Vec<Listed<u8>>,
        watches: &'w Watches<R, T>,
    ) -> Result<WatchBoard<'w, 'a, K, R, T>, (OpenFault, K)>
        requires entries { IfSome (K.state keeper).entries (λ kept. kept ≡ entries.items) }
        requires number { (K.state keeper).number ≡ length entries.items }
        requires at_risk { (K.state keeper).at_risk ≡ None }
        ensures opened { IfOk result
            (λ made. OpensBoard airport.entry.now keeper entries.items made.board) }
        ensures watches { IfOk result (λ made. made.watches ≡ watches.entry.now) }
        ensures next { IfOk result (λ made. made.next ≡ made.board.next) }
        ensures refused { IfErr result
            (λ refusal. CannotOpen airport.entry.now entries.items refusal.0) }
        ensures back { IfErr result (λ refusal. refusal.1 ≡ keeper) }
    {
        match NotedBoard::open(alloc, airport, keeper, entries) {
            Ok(noted) => Ok(WatchBoard::of(noted, watches)),
            Err(refusal) => Err(refusal),
        }
    }

    // The board with its notes and these watches.
    fn of(noted: NotedBoard<'a, K>, watches: &'w Watches<R, T>) -> WatchBoard<'w, 'a, K, R, T>
        ensures made { result
            ≡ record { board = noted.entry; watches = watches.entry.now; next = noted.entry.next } }
    {
        let next = noted.board().next_call();
        WatchBoard {
            noted,
            watches,
            next,
        }
    }

    /// The board.
    pub fn board(&self) -> &Board<'a, K>
        ensures value { result.now ≡ self.now.board }
    {
        self.noted.board()
    }

    /// The notes of the board's history, in order.
    pub fn notes(&self) -> &[Note]
        ensures notes { result.now ≡ notes_of self.now.board.airport self.now.board.history }
    {
        self.noted.notes()
    }

    /// The board without its notes and watches.
    pub fn into_board(self) -> Board<'a, K>
        ensures value { result ≡ self.entry.board }
    {
        self.noted.into_board()
    }

    /// The least number that the next call may have. The entries' numbers are lower.
    pub fn next_call(&self) -> u64
        ensures value { result ≡ self.now.next }
        ensures few { result ≤ call_limit }
        ensures numbers { Rises call_of 1 result self.now.board.history }
        ensures legal { IsLegal self.now.board.airport self.now.board.history }
    {
        // It has a legal history.
        let _history = self.noted.board().history();
        self.next
    }

    fn plain(&mut self, alloc: Global, call: u64, ask: &Ask) -> Acted
        requires valid { IsAskOf self.old.board.airport ask.now }
        requires next { self.old.next ≤ call }
        requires last { call < call_limit }
        ensures asks { AsksBoard K.state self.old.board self.new.board call ask.now result }
        ensures watches { self.new.watches ≡ self.old.watches }
        ensures next { self.new.next ≡ call + 1 }
    {
        self.next = call + 1;
        self.noted.ask(alloc, call, ask)
    }

    // The bytes of the reply to a feed. The only error is a lack of memory.
    fn feed_reply(
        &self,
        alloc: Global,
        seen: u32,
        watch: &Name,
        after: u32,
    ) -> Result<Listed<u8>, Memory>
        ensures text { IfOk result (λ bytes. bytes
            ≡ feed_reply R.tells (watch_fixed self.now) self.now.board.history
            (record { seen = seen; watch = watch.now; after = after })) }
        ensures legal { IsLegal self.now.board.airport self.now.board.history }
    {
        let board = self.noted.board();
        // It has a legal history.
        let _history = board.history();
        let version = board.plan().version();
        let fed = self.feed_outcome(alloc, version, seen, watch, after)?;
        fed_bytes(alloc, board.airport(), version, &fed)
    }

    // What a feed comes to at a plan of this version.
    fn feed_outcome(
        &self,
        alloc: Global,
        version: u32,
        seen: u32,
        watch: &Name,
        after: u32,
    ) -> Result<FeedOutcome, Memory>
        requires version { version
            ≡ (replay self.now.board.airport self.now.board.history).version }
        ensures is { IfOk result (λ made. made
            ≡ feed_outcome R.tells (watch_fixed self.now) self.now.board.history
            (record { seen = seen; watch = watch.now; after = after })) }
    {
        if seen > version || after > version {
            return Ok(FeedOutcome::Ahead);
        }
        let Some(watch) = self.watches.find(watch) else {
            return Ok(FeedOutcome::NoWatch);
        };
        let notes = feed(alloc, later_notes(self.noted.notes(), after), watch, after)?;
        Ok(FeedOutcome::Notes {
            notes: Listed::from_vec(notes),
        })
    }
}

fn acted_with_reply(reply: Result<Listed<u8>, Memory>) -> Acted
    ensures is { IfOk reply (λ bytes. result ≡ Acted.Reply bytes) }
    ensures memory { IfErr reply (λ why. result ≡ Acted.Memory) }
{
    match reply {
        Ok(bytes) => Acted::Reply(bytes),
        Err(Memory) => Acted::Memory,
    }
}

impl<'w, 'a, K: Keeper, R: Stated, T: NoteTest> Machine for WatchBoard<'w, 'a, K, R, T> {
    ghost use Rattle.history_core.specs.History.{call_of};
    ghost use Rattle.watch_list.specs.WatchBoards.{CanAdd, IsWatchAskOf, WatchAnswers, watch_state};

    type Ask = WatchAsk;

    type Entry = Entry;

    type Fixed = WatchFixed<R>;

    ghost state = { watch_state K.state };

    ghost number = { call_of };

    ghost valid = { IsWatchAskOf };

    ghost adds = { CanAdd };

    ghost answers = { WatchAnswers R.tells };

    fn next_call(&self) -> u64 {
        self.next_call()
    }

    fn length(&self) -> u64 {
        self.noted.board().history().len() as u64
    }

    fn act(&mut self, alloc: Global, call: u64, ask: &WatchAsk) -> Acted {
        match ask {
            WatchAsk::Plain(ask) => self.plain(alloc, call, ask),
            WatchAsk::Feed { seen, watch, after } => {
                let reply = self.feed_reply(alloc, *seen, watch, *after);
                self.next = call + 1;
                acted_with_reply(reply)
            }
        }
    }
}
