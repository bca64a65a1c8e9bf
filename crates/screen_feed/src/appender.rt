// The one value that adds entries to a writer's book, the record of the sheets it showed.
ghost use Rattle.std.specs.Prelude.{◌≡◌, ◌+◌, ◌<◌, ◌^◌, [], ◌∷◌, ◌++◌, length, true, Some, None, IfSome};
ghost use mathlib.Core.List.{IsPrefix};
ghost use Rattle.logbook.specs.Pages.{may_write};
ghost use Rattle.screen_feed.specs.Logs.{IsLegalLog, begun_after, begun_in, shown_in};
ghost use Rattle.screen_feed.specs.Rules.{IsEntryAdded, entry_word};

use crate::book::{Add, AddFirst, BookRule, EntryWord, Log, MakePen, Nothing, SeeAll, SheetEntry};
use crate::sheet::Sheet;
use logbook::{Offer, Pen, Seen, Start, Word};
use std::marker::Model;

/// The one value that may add entries to its book, and so knows all of them. Contracts see the book
/// and its log.
#[derive(Drop)]
pub(crate) struct Appender {
    head: EntryWord,
    pen: Pen,
    seen: Log,
    last: SheetEntry,
    round: u64,
}

impl Model for Appender {
    ghost use Rattle.screen_feed.specs.Appenders.{AppenderState, IsAppender};

    ghost Value = { AppenderState };

    ghost view = { λ a. record { book = a.seen.book; log = a.seen.log } };

    ghost invariant = { λ a. IsAppender (record { book = a.seen.book; log = a.seen.log })
        a.head a.pen a.round };
}

// The pen for a later entry. The step wants some entry, and does nothing with it.
fn new_pen(head: &EntryWord, seen: &Log, entry: &SheetEntry) -> Pen
    requires head { head.now ≡ entry_word seen.now.book }
    ensures book { result.book ≡ seen.now.book }
    ensures right { result.nib.right ≡ may_write }
{
    let mut log = seen.again();
    let mut offer: Offer<SheetEntry, u64, BookRule, Nothing> = log.plain::<
        Nothing,
        SheetEntry,
        Nothing,
    >(entry);
    let mut pen = log.no_pen();
    head.compare_exchange::<MakePen, Nothing>(1, 1, &mut log, &mut offer, &mut pen);
    let _word: EntryWord = Word::tracked(0, &mut pen);
    pen
}

impl Appender {
    /// A new book, in which this sheet is begun. `None` never comes, since nobody else has the
    /// book; but no clause of `logbook` says so before there is an entry.
    pub fn open(sheet: &Sheet) -> Option<Appender>
        ensures shown { IfSome result (λ appender. shown_in appender.log ≡ []) }
        ensures begun { IfSome result (λ appender. begun_after None appender.log ≡ Some sheet.now) }
        ensures tried { IfSome result (λ appender. begun_in appender.log ≡ sheet.now ∷ []) }
        ensures count { IfSome result (λ appender. length appender.log ≡ 1) }
    {
        let (mut seen, mut first, _second) = Seen::open(Start::alone(), 0, 0);
        let head = Word::tracked(0, &mut first);
        let pen = new_pen(&head, &seen, &SheetEntry::of(sheet, false, &first));
        let entry = SheetEntry::of(sheet, false, &pen);
        let mut offer: Offer<SheetEntry, u64, BookRule, Nothing> = seen.plain::<
            Nothing,
            SheetEntry,
            Nothing,
        >(&entry);
        let mut no_pen = seen.no_pen();
        let found = head.compare_exchange::<AddFirst, Nothing>(
            0,
            1,
            &mut seen,
            &mut offer,
            &mut no_pen,
        );
        if found != 0 {
            return None;
        }
        Some(Appender {
            head,
            pen,
            seen,
            last: entry,
            round: 1,
        })
    }

    /// How many entries there are.
    pub fn round(&self) -> u64
        ensures count { result ≡ length self.now.log }
    {
        self.round
    }

    /// What it knows.
    pub fn seen(&self) -> Log
        ensures book { result.book ≡ self.now.book }
        ensures log { result.log ≡ self.now.log }
    {
        self.seen.again()
    }

    // Adds an entry.
    fn add(&mut self, sheet: &Sheet, shown: bool)
        requires room { length self.old.log < 2 ^ 62 }
        requires legal { shown ≡ true → begun_after None self.old.log ≡ Some sheet.now }
        ensures book { self.new.book ≡ self.old.book }
        ensures log { IsEntryAdded self.old.log (sheet.now, shown) self.new.log }
    {
        let next = new_pen(
            &self.head,
            &self.seen,
            &SheetEntry::of(sheet, shown, &self.pen),
        );
        let entry = SheetEntry::of(sheet, shown, &next);
        let mut offer: Offer<SheetEntry, u64, BookRule, Nothing> = self
            .seen
            .plain::<Nothing, SheetEntry, Nothing>(&entry);
        self.head
            .compare_exchange::<Add, Nothing>(1, 1, &mut self.seen, &mut offer, &mut self.pen);
        self.pen = next;
        self.last = entry;
        self.round += 1;
    }

    /// Begins to show this sheet.
    pub fn begin(&mut self, sheet: &Sheet)
        requires room { length self.old.log < 2 ^ 62 }
        ensures book { self.new.book ≡ self.old.book }
        ensures shown { shown_in self.new.log ≡ shown_in self.old.log }
        ensures tried { begun_in self.new.log ≡ begun_in self.old.log ++ sheet.now ∷ [] }
        ensures begun { begun_after None self.new.log ≡ Some sheet.now }
        ensures count { length self.new.log ≡ length self.old.log + 1 }
    {
        self.add(sheet, false);
    }

    /// Says that the sheet which was begun last is shown.
    pub fn confirm(&mut self, sheet: &Sheet)
        requires room { length self.old.log < 2 ^ 62 }
        requires begun { begun_after None self.old.log ≡ Some sheet.now }
        ensures book { self.new.book ≡ self.old.book }
        ensures shown { shown_in self.new.log ≡ shown_in self.old.log ++ sheet.now ∷ [] }
        ensures tried { begun_in self.new.log ≡ begun_in self.old.log }
        ensures count { length self.new.log ≡ length self.old.log + 1 }
    {
        self.add(sheet, true);
    }

    /// Nothing is done: it shows that what others know of the book begins its log.
    pub fn knows(&mut self, others: &Log)
        requires book { others.now.book ≡ self.old.book }
        ensures same { self.new ≡ self.old }
        ensures all { IsPrefix others.now.log self.old.log }
        ensures legal { IsLegalLog self.old.log }
    {
        let mut all = self.seen.again();
        all.learn(others);
        let mut offer: Offer<SheetEntry, u64, BookRule, Nothing> = all.plain::<
            Nothing,
            SheetEntry,
            Nothing,
        >(&self.last);
        self.head
            .compare_exchange::<SeeAll, Nothing>(1, 1, &mut all, &mut offer, &mut self.pen);
    }
}
