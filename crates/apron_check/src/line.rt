// The lines about two files. Writing one takes no memory.
ghost use Rattle.std.specs.Prelude.{◌≡◌, ◌++◌, decimal};
ghost use Rattle.apron_base.specs.Ends.{Puts};
ghost use Rattle.apron_check.specs.Lines.{airport_text, counts_line, fault_line, fault_text, file_text, limit_word};

use crate::FilesFault;
use airport_files::FileFault;
use apron_base::{Failed, Sink};
use apron_rules::{Airport, AirportFault, Limit};
use itoa::Buffer;

/// Writes the line with the numbers of an airport's stands, types and days. At `Err` the sink
/// failed, and only a front of the line was written.
pub fn put_counts<W: Sink>(sink: &mut W, airport: &Airport) -> Result<(), Failed>
    ensures puts { Puts (W.state sink.old) (W.state sink.new) result (counts_line airport.now) }
{
    let parts = airport.parts();
    put_number(sink, b"ok: ", parts.stands.len() as u64)?;
    put_number(sink, b" stands, ", parts.types.len() as u64)?;
    put_number(sink, b" types, ", parts.days as u64)?;
    sink.put(b" days\n")
}

/// Writes the line that says why two files give no airport. At `Err` the sink failed, and only a
/// front of the line was written.
pub fn put_fault<W: Sink>(sink: &mut W, fault: &FilesFault) -> Result<(), Failed>
    ensures puts { Puts (W.state sink.old) (W.state sink.new) result (fault_line fault.now) }
{
    put_fault_text(sink, fault)?;
    sink.put(b"\n")
}

fn put_fault_text<W: Sink>(sink: &mut W, fault: &FilesFault) -> Result<(), Failed>
    ensures puts { Puts (W.state sink.old) (W.state sink.new) result (fault_text fault.now) }
{
    match fault {
        FilesFault::Faulty(fault) => put_file_fault(sink, fault),
        FilesFault::AirportTooLong => sink.put(b"airport file: too long"),
        FilesFault::TypesTooLong => sink.put(b"type file: too long"),
        FilesFault::ShelfFault => sink.put(b"shelf fault"),
        FilesFault::Memory => sink.put(b"memory"),
    }
}

fn put_file_fault<W: Sink>(sink: &mut W, fault: &FileFault) -> Result<(), Failed>
    ensures puts { Puts (W.state sink.old) (W.state sink.new) result (file_text fault.now) }
{
    match fault {
        FileFault::NotToml => sink.put(b"airport file: not toml"),
        FileFault::MissingKey(key) => put_both(sink, b"airport file: missing ", key.as_slice()),
        FileFault::WrongKind(key) => put_both(sink, b"airport file: wrong ", key.as_slice()),
        FileFault::BadRow(record) => put_number(sink, b"type file: record ", *record as u64),
        FileFault::Airport(fault) => put_airport_fault(sink, fault),
        FileFault::Memory => sink.put(b"memory"),
    }
}

fn put_airport_fault<W: Sink>(sink: &mut W, fault: &AirportFault) -> Result<(), Failed>
    ensures puts { Puts (W.state sink.old) (W.state sink.new) result (airport_text fault.now) }
{
    match fault {
        AirportFault::DuplicateName(name) => put_both(sink, b"airport: duplicate ", name.bytes()),
        AirportFault::UnknownName(name) => put_both(sink, b"airport: unknown ", name.bytes()),
        AirportFault::BadHalf(name) => put_both(sink, b"airport: half ", name.bytes()),
        AirportFault::LimitPassed(limit) => {
            put_both(sink, b"airport: limit ", limit_word(*limit).as_bytes())
        }
        AirportFault::BadSpan(name) => put_both(sink, b"airport: span ", name.bytes()),
        AirportFault::BadFold(name) => put_both(sink, b"airport: fold ", name.bytes()),
        AirportFault::Memory => sink.put(b"memory"),
    }
}

fn limit_word(limit: Limit) -> &'static str
    ensures text { result.now ≡ limit_word limit }
{
    match limit {
        Limit::Days => "days",
        Limit::TaxiIn => "taxi_in",
        Limit::Tow => "tow",
        Limit::Frontages => "frontages",
        Limit::Objects => "objects",
        Limit::Stands => "stands",
        Limit::Centre => "centre",
        Limit::Buffer => "buffer",
        Limit::Pairs => "pairs",
        Limit::Types => "types",
        Limit::Least => "least",
    }
}

/// Writes a text and a number in digits after it. At `Err` the sink failed, and only a front of
/// both was written.
pub fn put_number<W: Sink>(sink: &mut W, head: &[u8], number: u64) -> Result<(), Failed>
    ensures puts { Puts (W.state sink.old) (W.state sink.new) result (head.now ++ decimal number) }
{
    put_both(sink, head, Buffer::new().format(number).as_bytes())
}

/// Writes a text and then another. At `Err` the sink failed, and only a front of both was written.
pub fn put_both<W: Sink>(sink: &mut W, head: &[u8], tail: &[u8]) -> Result<(), Failed>
    ensures puts { Puts (W.state sink.old) (W.state sink.new) result (head.now ++ tail.now) }
{
    sink.put(head)?;
    sink.put(tail)
}
