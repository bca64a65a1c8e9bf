// The book of the sheets that a writer began to show and has shown. It exists in proofs alone.
ghost use Rattle.std.specs.Prelude.{◌≡◌};

use crate::sheet::Sheet;
use logbook::{Gain, Pen, Plain, Play, Rule, Seen, Word};
use std::snapshot::Snapshot;

/// A sheet that the writer began to show, or, where it is `shown`, the same after it was published.
#[derive(Drop)]
pub(crate) struct SheetEntry {
    pub sheet: Snapshot<Sheet>,
    pub shown: bool,
    /// The pen that may add the next entry.
    pub next: Snapshot<Pen>,
}

/// The rule of the book.
pub(crate) struct BookRule;

impl Rule<SheetEntry, u64> for BookRule {
    ghost use Rattle.std.specs.Prelude.{[]};
    ghost use base.Fml.{ftrue};
    ghost use Rattle.screen_feed.specs.Rules.{KeepsFirstWord};

    ghost holds = { λ cells log. KeepsFirstWord cells log };

    ghost first = { [] };

    ghost hinted = { λ n log. Unit {0} };

    ghost shows = { λ log. [] };

    ghost keeps = { λ names log. ftrue };

    ghost moves = { λ ask before after answer. Unit {0} };
}

/// Callers trade nothing.
pub(crate) struct Nothing;

impl Gain<SheetEntry, u64> for Nothing {
    ghost use base.Fml.{ftrue};

    ghost after = { λ names about answer. ftrue };
}

impl Plain<SheetEntry, SheetEntry, u64> for Nothing {
    ghost use Rattle.std.specs.Prelude.{None};

    ghost ask = { λ entry. entry };

    ghost state = { λ entry. None };
}

/// A step that makes the pen for a later entry.
pub(crate) struct MakePen;

impl Play<SheetEntry, u64> for MakePen {
    ghost use Rattle.screen_feed.specs.Rules.{MakesPen};

    ghost then = { MakesPen };
}

/// A step that adds the first entry.
pub(crate) struct AddFirst;

impl Play<SheetEntry, u64> for AddFirst {
    ghost use Rattle.screen_feed.specs.Rules.{AddsFirst};

    ghost then = { AddsFirst };
}

/// A step that adds an entry by its pen.
pub(crate) struct Add;

impl Play<SheetEntry, u64> for Add {
    ghost use Rattle.screen_feed.specs.Rules.{AddsSheet};

    ghost then = { AddsSheet };
}

/// A step that adds nothing, by the pen for the next entry.
pub(crate) struct SeeAll;

impl Play<SheetEntry, u64> for SeeAll {
    ghost use Rattle.screen_feed.specs.Rules.{SeesAll};

    ghost then = { SeesAll };
}

/// What is known of the book's entries.
pub(crate) type Log = Seen<SheetEntry, u64, BookRule>;

/// The word whose steps add entries.
pub(crate) type EntryWord = Word<SheetEntry, u64, BookRule>;

impl SheetEntry {
    pub(crate) fn of(sheet: &Sheet, shown: bool, next: &Pen) -> SheetEntry
        ensures sheet { result.sheet.value ≡ sheet.now }
        ensures shown { result.shown ≡ shown }
        ensures next { result.next.value ≡ next.now }
    {
        SheetEntry {
            sheet: Snapshot::of(sheet),
            shown,
            next: Snapshot::of(next),
        }
    }
}
