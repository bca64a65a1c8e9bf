// Entries as they were spelt before messages and reports named their desk, and the same entries as
// they are spelt now.
ghost use Rattle.std.specs.Prelude.{◌≡◌, ◌≢◌, ◌≤◌, IfErr, IfOk, length};
ghost use Rattle.entry_bytes.specs.Faults.{IsFirstFault};
ghost use Rattle.entry_bytes.specs.Former.{ConvertsEntry, SpeltNone, former_fields, no_desk};
ghost use Rattle.entry_bytes.specs.Gives.{GivesReading, ReadsEntry};
ghost use Rattle.entry_bytes.specs.Laws.{most_bytes};
ghost use Rattle.entry_bytes.specs.Parsing.{decode_former_entry, parse_former_of_kind, parse_command, read_with};

use crate::commits::parse_commit;
use crate::entries::{encode_entry, entry_fault, parse_call, with_none_left};
use crate::faults::{EntryFault, ReadFault};
use crate::messages::parse_message;
use crate::new_visits::parse_new_visit;
use crate::reader::Reader;
use crate::reports::{parse_cancel, parse_report};
use apron_base::{Listed, Name};
use apron_rules::Airport;
use desk_asks::{Command, DeskMessage, Entry};
use std::alloc::Global;

// The name that stands in for the desk of a message or report that named none.
fn no_desk() -> Name
    ensures is { result ≡ no_desk }
{
    Name::literal(b"-")
}

#[tactic(auto, unfolding(crate::specs::Parsing::parse_command))]
fn former_command_at(
    alloc: Global,
    reader: &mut Reader<'_>,
    airport: &Airport,
) -> Result<Command, ReadFault>
    ensures is { GivesReading result reader.new
        (parse_command (parse_former_of_kind airport.now) reader.old) }
{
    match reader.byte()? {
        1 => Ok(Command::AddVisit(parse_new_visit(reader, airport)?)),
        2 => Ok(Command::Commit(parse_commit(alloc, reader, airport)?)),
        3 => Ok(Command::Message(DeskMessage {
            desk: no_desk(),
            message: parse_message(alloc, reader)?,
        })),
        4 => Ok(Command::Report(parse_report(reader, airport, no_desk())?)),
        5 => Ok(Command::Cancel(parse_cancel(reader)?)),
        _ => Err(ReadFault::BadKind),
    }
}

#[tactic(auto, unfolding(crate::specs::Parsing::decode_former_entry, crate::specs::Parsing::parse_entry))]
fn read_former(alloc: Global, airport: &Airport, bytes: &[u8]) -> Result<Entry, ReadFault>
    ensures is { ReadsEntry result (decode_former_entry airport.now bytes.now) }
{
    let mut reader = Reader::new(bytes);
    let call = parse_call(&mut reader)?;
    let command = former_command_at(alloc, &mut reader, airport)?;
    with_none_left(&reader, Entry { call, command })
}

/// The bytes that the entry of an airport has now which had the given bytes before messages and
/// reports named their desk: 1 to 671 bytes. The desk of a message or report in them is `-`. `Err`
/// gives the first fault from left to right if no entry had the given bytes, or says that there is
/// no memory.
pub fn convert_entry(
    alloc: Global,
    airport: &Airport,
    bytes: &[u8],
) -> Result<Listed<u8>, EntryFault>
    ensures converts { IfOk result (ConvertsEntry airport.now bytes.now) }
    ensures some { IfOk result (λ new. 1 ≤ length new) }
    ensures most { IfOk result (λ new. length new ≤ most_bytes) }
    ensures none { IfErr result
        (λ fault. fault ≢ EntryFault.Memory → SpeltNone airport.now bytes.now) }
    ensures fault { IfErr result (λ fault. fault ≢ EntryFault.Memory
        → IsFirstFault former_fields airport.now bytes.now fault) }
{
    match read_former(alloc, airport, bytes) {
        Ok(entry) => match encode_entry(alloc, &entry) {
            Ok(new) => Ok(new),
            Err(_) => Err(EntryFault::Memory),
        },
        Err(fault) => Err(entry_fault(fault)),
    }
}
