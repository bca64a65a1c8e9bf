// Why there is no journal to work on, and the line that tells it. Writing one takes no memory.
ghost use Rattle.std.specs.Prelude.{◌≡◌, ◌++◌, ◌∷◌, [], codes, decimal};
ghost use Rattle.apron_base.specs.Ends.{Puts};
ghost use Rattle.hex.specs.Hex.{encode_lower};
ghost use Rattle.apron_run.specs.Unusable.{unusable_text};

use apron_base::{Failed, Sink};
use apron_check::{put_both, put_number};
use history_core::OpenFault;
use journal_disk::JournalFault;

/// Why there is no journal to work on.
#[derive(Clone, Copy, Debug, PartialEq, Eq)]
pub enum Unusable {
    /// The journal isn't made or opened.
    Journal(JournalFault),
    /// Its entries are no history of the airport.
    Entries(OpenFault),
}

/// Writes the line that says why.
pub(crate) fn put_unusable<W: Sink>(sink: &mut W, why: &Unusable) -> Result<(), Failed>
    ensures puts { Puts (W.state sink.old) (W.state sink.new) result
        (unusable_text why.now ++ 10 ∷ []) }
{
    put_why(sink, why)?;
    sink.put(b"\n")
}

fn put_why<W: Sink>(sink: &mut W, why: &Unusable) -> Result<(), Failed>
    ensures puts { Puts (W.state sink.old) (W.state sink.new) result (unusable_text why.now) }
{
    match why {
        Unusable::Journal(fault) => put_journal_fault(sink, fault),
        Unusable::Entries(fault) => put_entries_fault(sink, fault),
    }
}

fn put_journal_fault<W: Sink>(sink: &mut W, fault: &JournalFault) -> Result<(), Failed>
    ensures puts { Puts (W.state sink.old) (W.state sink.new) result
        (unusable_text (Unusable.Journal fault.now)) }
{
    match fault {
        JournalFault::DiskFault => sink.put(b"disk fault"),
        JournalFault::NotEmpty => sink.put(b"journal not empty"),
        JournalFault::NotAJournal => sink.put(b"journal: not a journal"),
        JournalFault::OtherAirport { kept, given } => put_other_airport(sink, kept, given),
        JournalFault::OldFormat => sink.put(b"journal: old format"),
        JournalFault::BadRecord(number) => put_number(sink, b"journal: record ", *number as u64),
        JournalFault::Memory => sink.put(b"memory"),
    }
}

fn put_other_airport<W: Sink>(sink: &mut W, kept: &[u8; 64], given: &[u8; 64]) -> Result<(), Failed>
    ensures puts { Puts (W.state sink.old) (W.state sink.new) result
        ((codes "journal: other airport " ++ encode_lower kept.now)
        ++ (codes " " ++ encode_lower given.now)) }
{
    put_both(sink, b"journal: other airport ", &in_hex(kept))?;
    put_both(sink, b" ", &in_hex(given))
}

// Two digests in hexadecimal digits.
fn in_hex(digests: &[u8; 64]) -> [u8; 128]
    ensures text { result ≡ encode_lower digests.now }
{
    let mut text = [0; 128];
    let _ = hex::encode_to_slice(digests.as_slice(), &mut text);
    text
}

fn put_entries_fault<W: Sink>(sink: &mut W, fault: &OpenFault) -> Result<(), Failed>
    ensures puts { Puts (W.state sink.old) (W.state sink.new) result
        (unusable_text (Unusable.Entries fault.now)) }
{
    match fault {
        OpenFault::BadEntry(number) => put_entry(sink, *number, b" unreadable"),
        OpenFault::WrongEntry(number) => put_entry(sink, *number, b" refused"),
        OpenFault::Memory => sink.put(b"memory"),
    }
}

// The entry of a number, and what is said of it.
fn put_entry<W: Sink>(sink: &mut W, number: u32, what: &[u8]) -> Result<(), Failed>
    ensures puts { Puts (W.state sink.old) (W.state sink.new) result
        ((codes "journal: entry " ++ decimal number) ++ what.now) }
{
    put_number(sink, b"journal: entry ", number as u64)?;
    sink.put(what)
}
