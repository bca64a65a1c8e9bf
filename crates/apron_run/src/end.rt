// How a run or serving ended, and the line that tells it. Writing one takes no memory.
ghost use Rattle.std.specs.Prelude.{◌≡◌, IsOk, MatchOption};
ghost use Rattle.apron_base.specs.Ends.{Puts};
ghost use Rattle.apron_run.specs.End.{TellsEnd, cut_status_of, line_of, status_of};

use crate::Status;
use crate::imported::{Imported, put_imported};
use crate::print::{Text, listener_line, usage};
use crate::unusable::{Unusable, put_unusable};
use apron_base::{Failed, Outcome, Sink};
use apron_check::{FilesFault, put_fault};
use history_core::OpenFault;
use journal_disk::JournalFault;

/// How desks and screens were served.
#[derive(Clone, Copy, Debug, PartialEq, Eq)]
pub enum ServeEnd {
    /// Each listener has had all its connections.
    Done,
    /// A listener failed.
    ListenerFault,
    /// All connections were served, but a screen's writer had no memory for the last version.
    Missed,
}

/// How a run ended.
#[derive(Drop)]
pub enum End {
    /// All was done, as this text tells.
    Printed(Text),
    /// A session was served, to this end.
    Served(Outcome),
    /// Desks and screens were served, to this end.
    Attended(ServeEnd),
    /// Visits were imported, to this end.
    Imported(Imported),
    /// The two files make no airport, or no memory was there to read them.
    Faulty(FilesFault),
    /// There is no journal to work on.
    Unusable(Unusable),
    /// Memory ran out.
    Memory,
    /// Nothing that there is was asked for.
    Unasked,
}

/// Writes the line that tells how a run ended, if one does, and gives the run's status. It stays
/// if the sink fails at the line, unless all was done.
pub fn tell_end<W: Sink>(sink: &mut W, end: &End) -> Status
    ensures tells { TellsEnd end.now (W.state sink.old) (W.state sink.new) result }
{
    match put_line(sink, end) {
        Ok(()) => status_of(end),
        Err(Failed) => cut_status_of(end),
    }
}

fn put_line<W: Sink>(sink: &mut W, end: &End) -> Result<(), Failed>
    ensures puts { MatchOption (line_of end.now)
        ((W.state sink.new ≡ W.state sink.old) × IsOk result)
        (λ line. Puts (W.state sink.old) (W.state sink.new) result line) }
{
    match end {
        End::Printed(text) => text.put(sink),
        End::Served(Outcome::Memory) => put_fault(sink, &FilesFault::Memory),
        End::Served(_) => Ok(()),
        End::Attended(ServeEnd::Done) => Ok(()),
        End::Attended(ServeEnd::ListenerFault) => sink.put(listener_line()),
        End::Attended(ServeEnd::Missed) => put_fault(sink, &FilesFault::Memory),
        End::Imported(imported) => put_imported(sink, imported),
        End::Faulty(fault) => put_fault(sink, fault),
        End::Unusable(why) => put_unusable(sink, why),
        End::Memory => put_fault(sink, &FilesFault::Memory),
        End::Unasked => sink.put(usage()),
    }
}

fn status_of(end: &End) -> Status
    ensures is { result ≡ status_of end.now }
{
    match end {
        End::Printed(_) => Status::Done,
        End::Served(outcome) => status_of_outcome(*outcome),
        End::Attended(ServeEnd::Done) => Status::Done,
        End::Attended(ServeEnd::ListenerFault) => Status::ListenerFault,
        End::Attended(ServeEnd::Missed) => Status::Memory,
        End::Imported(imported) => status_of_imported(*imported),
        End::Faulty(fault) => status_of_fault(fault),
        End::Unusable(Unusable::Journal(fault)) => status_of_journal(*fault),
        End::Unusable(Unusable::Entries(fault)) => status_of_entries(*fault),
        End::Memory => Status::Memory,
        End::Unasked => Status::Usage,
    }
}

fn status_of_outcome(outcome: Outcome) -> Status
    ensures is { result ≡ status_of (End.Served outcome) }
{
    match outcome {
        Outcome::Ended | Outcome::Closed => Status::Done,
        Outcome::ReadFault => Status::ReadFault,
        Outcome::WriteFault => Status::WriteFault,
        Outcome::Cut => Status::Cut,
        Outcome::Memory => Status::Memory,
        Outcome::Malformed => Status::Malformed,
        Outcome::Limit => Status::Limit,
        Outcome::Spent => Status::Spent,
    }
}

fn status_of_imported(imported: Imported) -> Status
    ensures is { result ≡ status_of (End.Imported imported) }
{
    match imported {
        Imported::Whole { .. } => Status::Done,
        Imported::ShelfFault => Status::ShelfFault,
        Imported::TooLong | Imported::Refused(_) => Status::SeasonFault,
        Imported::Full(_) => Status::Full,
        Imported::DiskFault => Status::DiskFault,
        Imported::Spent => Status::Spent,
        Imported::Memory => Status::Memory,
    }
}

fn status_of_fault(fault: &FilesFault) -> Status
    ensures is { result ≡ status_of (End.Faulty fault.now) }
{
    match fault {
        FilesFault::Faulty(_) | FilesFault::AirportTooLong | FilesFault::TypesTooLong => {
            Status::FileFault
        }
        FilesFault::ShelfFault => Status::ShelfFault,
        FilesFault::Memory => Status::Memory,
    }
}

fn status_of_journal(fault: JournalFault) -> Status
    ensures is { result ≡ status_of (End.Unusable (Unusable.Journal fault)) }
{
    match fault {
        JournalFault::DiskFault => Status::DiskFault,
        JournalFault::NotEmpty => Status::NotEmpty,
        JournalFault::NotAJournal
        | JournalFault::OtherAirport { .. }
        | JournalFault::OldFormat
        | JournalFault::BadRecord(_) => Status::JournalFault,
        JournalFault::Memory => Status::Memory,
    }
}

fn status_of_entries(fault: OpenFault) -> Status
    ensures is { result ≡ status_of (End.Unusable (Unusable.Entries fault)) }
{
    match fault {
        OpenFault::BadEntry(_) | OpenFault::WrongEntry(_) => Status::JournalFault,
        OpenFault::Memory => Status::Memory,
    }
}

// The status if the sink failed at the line.
fn cut_status_of(end: &End) -> Status
    ensures is { result ≡ cut_status_of end.now }
{
    match end {
        End::Printed(_) | End::Imported(Imported::Whole { .. }) => Status::WriteFault,
        _ => status_of(end),
    }
}
