// What a commit may ask of visits, and why it is refused.
ghost use Rattle.std.specs.Prelude.{◌≡◌};
ghost use Rattle.visit_book.specs.Edits.{part_of, visit_of};

use apron_base::{Minute, StandNo, VisitNo};
use apron_rules::{Clash, UnfitBy};

/// One change that a commit asks for.
#[derive(Clone, Copy, Debug, PartialEq, Eq)]
pub enum Edit {
    /// Puts a part that is not actual on a stand by the plan. Parts count from 1.
    Put {
        visit: VisitNo,
        part: u8,
        stand: StandNo,
    },
    /// Takes a part that is not actual from its stand, and deletes its record of what took a stand
    /// from it. Parts count from 1.
    Lift {
        visit: VisitNo,
        part: u8,
    },
    /// Ends a part at a minute, and adds an unplaced part after it, the airport's tow minutes
    /// later. Parts count from 1.
    Cut {
        visit: VisitNo,
        part: u8,
        at: Minute,
    },
    /// Joins a part and the next one into one part, on the stand of the first. Parts count from 1.
    Join {
        visit: VisitNo,
        part: u8,
    },
}

/// The visit that an edit changes.
pub fn visit_of(edit: &Edit) -> VisitNo
    ensures is { result ≡ visit_of edit.now }
{
    match *edit {
        Edit::Put { visit, .. }
        | Edit::Lift { visit, .. }
        | Edit::Cut { visit, .. }
        | Edit::Join { visit, .. } => visit,
    }
}

/// The part that an edit changes, counted from 1.
pub fn part_of(edit: &Edit) -> u8
    ensures is { result ≡ part_of edit.now }
{
    match *edit {
        Edit::Put { part, .. }
        | Edit::Lift { part, .. }
        | Edit::Cut { part, .. }
        | Edit::Join { part, .. } => part,
    }
}

/// Why a commit is refused. Edits count from 1.
#[derive(Clone, Copy, Debug, PartialEq, Eq)]
pub enum EditFault {
    /// There is no visit of this number.
    UnknownVisit {
        edit: u8,
    },
    /// The visit was edited by the commit that made this version, after the base of the draft.
    Overtaken {
        edit: u8,
        visit: VisitNo,
        edited: u32,
    },
    /// The visit is gone or cancelled.
    Gone {
        edit: u8,
    },
    /// The visit has no part of this number.
    NoSuchPart {
        edit: u8,
    },
    /// For a put or a lift: the part is actual. For a cut or a join: a later part is actual.
    OnBlock {
        edit: u8,
    },
    /// The visit has three parts already, or one of the two pieces would be shorter than the least
    /// minutes of the type.
    BadCut {
        edit: u8,
    },
    /// No part comes after this one.
    BadJoin {
        edit: u8,
    },
    /// The visit's type doesn't fit the stand.
    Unfit {
        edit: u8,
        by: UnfitBy,
    },
    /// Each edit applies, and this is the first clash of the plan that they make.
    Clash(Clash),
    /// There is no memory.
    Memory,
}

impl From<apron_base::Memory> for EditFault {
    ghost use Rattle.std.specs.Prelude.{◌≡◌};
    ghost use Rattle.visit_book.specs.declared.edits.EditFault.TheVariants.{Memory};

    ghost from_gives = { λ _ e. e ≡ Memory };

    fn from(_: apron_base::Memory) -> Self {
        EditFault::Memory
    }
}

impl From<std::alloc::AllocError> for EditFault {
    ghost use Rattle.std.specs.Prelude.{◌≡◌};
    ghost use Rattle.visit_book.specs.declared.edits.EditFault.TheVariants.{Memory};

    ghost from_gives = { λ _ e. e ≡ Memory };

    fn from(_: std::alloc::AllocError) -> Self {
        EditFault::Memory
    }
}
