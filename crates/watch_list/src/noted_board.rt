// A board with the notes of its history: which parts lost their stands, and by which entries.
ghost use Rattle.std.specs.Prelude.{◌≡◌, ◌≤◌, ◌<◌, ◌+◌, ◌++◌, ◌&&◌, [], length, None, IfErr, IfOk, IfSome, OnOk, if◌then◌else◌};
ghost use Rattle.apron_base.specs.Keeper.{with_last};
ghost use Rattle.plan_core.specs.PlanState.{IsPlan};
ghost use Rattle.history_core.specs.Board.{AsksBoard, entry_texts};
ghost use Rattle.history_core.specs.Bumped.{last_bumped};
ghost use Rattle.history_core.specs.History.{IsAskOf, IsLegal, call_limit};
ghost use Rattle.history_core.specs.Opening.{CannotOpen, OpensBoard};
ghost use Rattle.watch_list.specs.HistoryNotes.{HasNoteRoom, last_notes, may_bump, notes_of};
ghost use Rattle.watch_list.specs.Notes.{notes_by};

use crate::entry_notes::push_notes;
use crate::note::Note;
use apron_base::{Acted, Keeper, Listed, Memory, PartId, SteadyKeeper};
use apron_rules::Airport;
use desk_asks::{Ask, Command, Entry, What};
use history_core::{Board, OpenFault, Opening};
use plan_core::Plan;
use std::alloc::Global;
use std::marker::Model;

// The most notes of a visit by one entry: one of each part.
const MOST_NOTES: usize = 3;

/// A board with the notes of its history. Contracts see it as the board.
#[derive(Drop)]
pub(crate) struct NotedBoard<'a, K: Keeper> {
    board: Board<'a, K>,
    notes: Vec<Note>,
}

impl<'a, K: Keeper> Model for NotedBoard<'a, K> {
    ghost use Rattle.std.specs.Prelude.{◌≡◌};
    ghost use Rattle.history_core.specs.Board.{BoardHeld};
    ghost use Rattle.watch_list.specs.HistoryNotes.{notes_of};

    ghost Value = { BoardHeld K };

    ghost view = { λ n. n.board };

    ghost invariant = { λ n. n.notes.items ≡ notes_of n.board.airport n.board.history };
}

impl<'a, K: Keeper> NotedBoard<'a, K> {
    /// The board with the notes of its history.
    pub(crate) fn of(board: Board<'a, K>, notes: Vec<Note>) -> NotedBoard<'a, K>
        requires notes { notes.items ≡ notes_of board.airport board.history }
        ensures board { result ≡ board.entry }
    {
        NotedBoard { board, notes }
    }

    /// The board over a keeper of these entries, with the notes of its history. Each entry is read
    /// once.
    pub(crate) fn open(
        alloc: Global,
        airport: &'a Airport,
        keeper: K,
        entries: Vec<Listed<u8>>,
    ) -> Result<NotedBoard<'a, K>, (OpenFault, K)>
        requires entries { IfSome (K.state keeper).entries (λ kept. kept ≡ entries.items) }
        requires number { (K.state keeper).number ≡ length entries.items }
        requires at_risk { (K.state keeper).at_risk ≡ None }
        ensures opened { IfOk result (OpensBoard airport.entry.now keeper entries.items) }
        ensures refused { IfErr result
            (λ refusal. CannotOpen airport.entry.now entries.items refusal.0) }
        ensures back { IfErr result (λ refusal. refusal.1 ≡ keeper) }
    {
        match noted_opening(alloc, airport, entries.as_slice()) {
            Ok((opening, notes)) => Ok(NotedBoard::of(opening.board(keeper), notes)),
            Err(fault) => Err((fault, keeper)),
        }
    }

    /// The board.
    pub(crate) fn board(&self) -> &Board<'a, K>
        ensures value { result.now ≡ self.now }
    {
        &self.board
    }

    /// The notes of the board's history.
    pub(crate) fn notes(&self) -> &[Note]
        ensures notes { result.now ≡ notes_of self.now.airport self.now.history }
    {
        self.notes.as_slice()
    }

    /// The board without its notes.
    pub(crate) fn into_board(self) -> Board<'a, K>
        ensures value { result ≡ self.entry }
    {
        self.board
    }

    /// Asks the board. All memory for the notes is taken before, so that an ask that finds none
    /// adds nothing.
    pub(crate) fn ask(&mut self, alloc: Global, call: u64, ask: &Ask) -> Acted
        requires valid { IsAskOf self.old.airport ask.now }
        requires next { self.old.next ≤ call }
        requires last { call < call_limit }
        ensures asks { AsksBoard K.state self.old self.new call ask.now result }
        ensures next { self.new.next ≤ call + 1 }
    {
        let entries = self.board.history().len();
        if make_room(&mut self.notes, self.board.plan(), &ask.what).is_err() {
            return Acted::Memory;
        }
        let acted = self.board.ask(alloc, call, ask);
        let grown = self.board.history().len() > entries;
        add_notes(
            &mut self.notes,
            self.board.plan(),
            self.board.bumped(),
            &ask.what,
            grown,
        );
        acted
    }
}

// The board that is being opened over these entries, with the notes of its history; or why there is
// none. Each entry is read once.
fn noted_opening<'a>(
    alloc: Global,
    airport: &'a Airport,
    entries: &[Listed<u8>],
) -> Result<(Opening<'a>, Vec<Note>), OpenFault>
    ensures airport { IfOk result (λ noted. noted.0.airport ≡ airport.entry.now) }
    ensures texts { IfOk result (λ noted. entries.now ≡ entry_texts noted.0.history) }
    ensures notes { IfOk result
        (λ noted. noted.1.items ≡ notes_of noted.0.airport noted.0.history) }
    ensures refused { IfErr result (CannotOpen airport.entry.now entries.now) }
{
    let mut opening = Opening::new(alloc, airport)?;
    let mut notes = Vec::new(alloc);
    for bytes in entries {
        opening.read(alloc, bytes.as_slice())?;
        push_last(&mut notes, &opening)?;
    }
    Ok((opening, notes))
}

// Puts the notes of the last entry that was read last.
fn push_last(notes: &mut Vec<Note>, opening: &Opening<'_>) -> Result<(), Memory>
    ensures notes { OnOk result (notes.new.items
        ≡ notes.old.items ++ last_notes opening.now.airport opening.now.history) }
{
    let bumped = opening.bumped();
    notes.reserve(bumped.len())?;
    push_notes(notes, opening.plan(), bumped);
    Ok(())
}

impl<'a> NotedBoard<'a, SteadyKeeper> {
    // A board with no entry.
    fn empty(alloc: Global, airport: &'a Airport) -> Result<NotedBoard<'a, SteadyKeeper>, Memory>
        ensures airport { IfOk result (λ board. board.airport ≡ airport.entry.now) }
        ensures none { IfOk result (λ board. board.history ≡ []) }
        ensures next { IfOk result (λ board. board.next ≡ 1) }
    {
        let keeper = SteadyKeeper::new(alloc, Vec::new(alloc));
        match Board::open(alloc, airport, keeper, Vec::new(alloc)) {
            Ok(board) => Ok(NotedBoard::of(board, Vec::new(alloc))),
            // There is no entry that could not stand.
            Err(_) => Err(Memory),
        }
    }

    // Takes the next entry of a legal history.
    fn repeat(&mut self, alloc: Global, entry: &Entry) -> Result<(), Memory>
        requires legal { IsLegal self.old.airport (with_last entry.now self.old.history) }
        requires next { self.old.next ≤ entry.now.call }
        ensures airport { self.new.airport ≡ self.old.airport }
        ensures next { self.new.next ≤ entry.now.call + 1 }
        ensures last { OnOk result (self.new.history ≡ with_last entry.now self.old.history) }
    {
        let ask = Ask {
            seen: 0,
            what: What::Change(entry.command.copy(alloc)?),
        };
        match self.ask(alloc, entry.call, &ask) {
            Acted::Reply(_) => Ok(()),
            Acted::Memory => Err(Memory),
            // A steady keeper never fails, and no board answers `Spent`.
            Acted::Fault | Acted::Spent => unreachable!(),
        }
    }
}

// Takes the memory for the notes of what is asked, if it can have some.
fn make_room(notes: &mut Vec<Note>, plan: &Plan, what: &What) -> Result<(), Memory>
    ensures items { notes.new.items ≡ notes.old.items }
    ensures room { OnOk result (HasNoteRoom notes.new plan.now.plan what.now) }
    ensures plan { IsPlan plan.now.plan }
{
    let visits = plan.visits().len();
    if may_bump(what) {
        let most = visits.checked_mul(MOST_NOTES).ok_or(Memory)?;
        notes.reserve(most)?;
    }
    Ok(())
}

// Puts the notes of the plan's last entry last, by the parts that lost their stands by it, if what
// was asked made it and can have some.
fn add_notes(notes: &mut Vec<Note>, plan: &Plan, bumped: &[PartId], what: &What, grown: bool)
    requires bumped { bumped.now ≡ last_bumped plan.now.plan }
    requires room { HasNoteRoom notes.old plan.now.plan what.now }
    ensures notes { notes.new.items
        ≡ notes.old.items
        ++ (if may_bump what.now && grown then notes_by plan.now.plan.version plan.now.plan.visits
        else []) }
{
    // What holds of every plan shows that each visit has at most three parts.
    let _known = plan.visits();
    if may_bump(what) && grown {
        push_notes(notes, plan, bumped);
    }
}

fn may_bump(what: &What) -> bool
    ensures is { result ≡ may_bump what.now }
{
    matches!(what, What::Change(Command::Message(_) | Command::Report(_)))
}

/// The notes of a legal history of the airport, in order. It replays the history. The only error is
/// a lack of memory.
pub fn notes_of(alloc: Global, airport: &Airport, history: &[Entry]) -> Result<Vec<Note>, Memory>
    requires legal { IsLegal airport.now history.now }
    ensures notes { IfOk result (λ notes. notes.items ≡ notes_of airport.now history.now) }
{
    let mut board = NotedBoard::empty(alloc, airport)?;
    for entry in history {
        board.repeat(alloc, entry)?;
    }
    let NotedBoard { board: _, notes } = board;
    Ok(notes)
}
