// How an import ended, and the line that tells it. Writing one takes no memory.
ghost use Rattle.std.specs.Prelude.{◌≡◌, ◌++◌, IsOk, MatchOption, codes, decimal};
ghost use Rattle.apron_base.specs.Ends.{Puts};
ghost use Rattle.apron_run.specs.End.{line_of};
ghost use Rattle.apron_run.specs.Imported.{imported_text};

use crate::End;
use apron_base::{Failed, Sink};
use apron_check::put_number;

/// How an import ended. Records are counted from 1 with the header.
#[derive(Clone, Copy, Debug, PartialEq, Eq)]
pub enum Imported {
    /// Each record was asked: this many visits were added, and this many were there already.
    Whole { added: u64, present: u64 },
    /// The shelf failed at the season file.
    ShelfFault,
    /// The season file is longer than 16 MiB.
    TooLong,
    /// The record of this number is refused: in the file, or since a visit with other data has its
    /// name.
    Refused(u64),
    /// The history has no place for the visit of the record of this number.
    Full(u64),
    /// The disk failed at an entry.
    DiskFault,
    /// There was no call number for a record.
    Spent,
    /// Memory ran out.
    Memory,
}

/// Writes the line that says how the import ended: none if the call numbers have run out.
pub(crate) fn put_imported<W: Sink>(sink: &mut W, imported: &Imported) -> Result<(), Failed>
    ensures puts { MatchOption (line_of (End.Imported imported.now))
        ((W.state sink.new ≡ W.state sink.old) × IsOk result)
        (λ line. Puts (W.state sink.old) (W.state sink.new) result line) }
{
    match imported {
        Imported::Spent => Ok(()),
        _ => {
            put_import_text(sink, imported)?;
            sink.put(b"\n")
        }
    }
}

fn put_import_text<W: Sink>(sink: &mut W, imported: &Imported) -> Result<(), Failed>
    ensures puts { Puts (W.state sink.old) (W.state sink.new) result (imported_text imported.now) }
{
    match imported {
        Imported::Whole { added, present } => put_import_counts(sink, *added, *present),
        Imported::ShelfFault => sink.put(b"shelf fault"),
        Imported::TooLong => sink.put(b"season: too long"),
        Imported::Refused(number) => put_number(sink, b"season: record ", *number),
        Imported::Full(number) => put_number(sink, b"full at record ", *number),
        Imported::DiskFault => sink.put(b"disk fault"),
        Imported::Spent => sink.put(b""),
        Imported::Memory => sink.put(b"memory"),
    }
}

// How many visits were added, and how many were there.
fn put_import_counts<W: Sink>(sink: &mut W, added: u64, present: u64) -> Result<(), Failed>
    ensures puts { Puts (W.state sink.old) (W.state sink.new) result
        ((codes "added " ++ decimal added) ++ (codes " present " ++ decimal present)) }
{
    put_number(sink, b"added ", added)?;
    put_number(sink, b" present ", present)
}
