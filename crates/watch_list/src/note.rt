// Notes, and what states which of them are meant.
ghost use Rattle.std.specs.Prelude.{◌≡◌};
ghost use Rattle.watch_list.specs.Watches.{is_at, shows};

use apron_base::{Minute, PartId, StandNo};
use apron_rules::Rule;

/// A part that lost its stand by an entry, as the plan recorded it then.
#[derive(Clone, Copy, Debug, PartialEq, Eq)]
pub struct Note {
    /// The number of the entry, counted from 1: the version that it made.
    pub entry: u32,
    /// The part that lost its stand.
    pub part: PartId,
    /// The class of the part's visit, 0 to 9.
    pub class: u8,
    /// The stand that the part had.
    pub stand: StandNo,
    /// The part that it clashed with.
    pub blocker: PartId,
    /// The first minute of that clash, counted from 00:00 UTC of the plan's first day.
    pub minute: Minute,
    /// The rule of that clash.
    pub rule: Rule,
}

/// What tells of some notes.
pub trait Stated {
    ghost use Rattle.std.specs.Prelude.{Bool};
    ghost use Rattle.watch_list.specs.declared.note.Note.{Note};

    /// Whether it tells of a note.
    ghost tells: { Self → Note → Bool };
}

/// The notes of some classes, on one stand or on any, of clashes that begin at some minutes.
#[derive(Clone, Copy, Debug, PartialEq, Eq)]
pub struct Shown {
    /// The greatest class of a part's visit, 0 to 9.
    pub top_class: u8,
    /// The stand that the part had; any stand if it is None.
    pub stand: Option<StandNo>,
    /// The first minute at which the clash may begin, counted from 00:00 UTC of the plan's first
    /// day.
    pub from: Minute,
    /// The minute before which the clash begins.
    pub until: Minute,
}

impl Stated for Shown {
    ghost use Rattle.watch_list.specs.Watches.{shows};

    ghost tells = { shows };
}

impl Shown {
    /// Whether the note is one of these. It takes no memory.
    pub fn shows(&self, note: &Note) -> bool
        ensures is { result ≡ shows self.now note.now }
    {
        note.class <= self.top_class
            && is_at(self.stand, note.stand)
            && self.from <= note.minute
            && note.minute < self.until
    }
}

// Whether this is the given stand, if one is given.
fn is_at(given: Option<StandNo>, stand: StandNo) -> bool
    ensures is { result ≡ is_at given stand }
{
    match given {
        Some(given) => given == stand,
        None => true,
    }
}
