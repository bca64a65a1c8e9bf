// Entries as bytes: the call number, the kind of the command, and its fields.
ghost use Rattle.std.specs.Prelude.{◌≡◌, ◌≢◌, ◌≤◌, ◌<◌, ◌++◌, IfErr, IfOk, OnOk, length, Ok};
ghost use Rattle.std.specs.List.{flat_map};
ghost use Rattle.apron_base.specs.Histories.{Every};
ghost use Rattle.apron_base.specs.declared.machine.TheConstants.{CALL_END};
ghost use Rattle.apron_rules.specs.declared.parts.AirportParts.{AirportParts};
ghost use Rattle.desk_asks.specs.Commands.{IsCommand, IsCommandOf};
ghost use Rattle.entry_bytes.specs.Entries.{IsEntryOf, SpellsEntry, SpellsNone, command_fields, entry_fields, entry_text};
ghost use Rattle.entry_bytes.specs.Faults.{IsFirstFault};
ghost use Rattle.entry_bytes.specs.Fields.{Fits, field_bytes};
ghost use Rattle.entry_bytes.specs.Gives.{FailsReading, GivesReading, IsWithin, ReadsEntry, entry_fault};
ghost use Rattle.entry_bytes.specs.Laws.{most_bytes};
ghost use Rattle.entry_bytes.specs.Parsing.{decode_entry, parse_of_kind, parse_call, parse_command, parse_desk_message, parse_desk_report, parse_entry, with_none_left};

use crate::commits::{parse_commit, push_commit};
use crate::faults::{EntryFault, ReadFault};
use crate::messages::{parse_message, push_message};
use crate::new_visits::{parse_new_visit, push_new_visit};
use crate::reader::{Reader, in_form};
use crate::reports::{parse_cancel, parse_report, push_cancel, push_report};
use crate::writing::{push_name, push_u8};
use apron_base::{CALL_END, Listed, Memory};
use apron_rules::Airport;
use desk_asks::{Command, DeskMessage, DeskReport, Entry};
use std::alloc::Global;

fn push_command(alloc: Global, out: &mut Vec<u8>, command: &Command) -> Result<(), Memory>
    requires command { IsCommand command.now }
    ensures text { OnOk result
        (out.new.items ≡ out.old.items ++ flat_map field_bytes (command_fields command.now)) }
    ensures fits { OnOk result (Every Fits (command_fields command.now)) }
{
    match command {
        Command::AddVisit(new) => {
            push_u8(out, 1)?;
            push_new_visit(out, new)
        }
        Command::Commit(draft) => {
            push_u8(out, 2)?;
            push_commit(out, draft)
        }
        Command::Cancel(visit) => {
            push_u8(out, 5)?;
            push_cancel(out, *visit)
        }
        Command::Message(passed) => {
            push_u8(out, 6)?;
            push_name(out, &passed.desk)?;
            push_message(alloc, out, &passed.message)
        }
        Command::Report(report) => {
            push_u8(out, 7)?;
            push_name(out, &report.desk)?;
            push_report(out, report)
        }
    }
}

/// The bytes of an entry: its one spelling, which has 1 to 671 bytes and can be read at each
/// airport that the command belongs to. `Err` if there is no memory for them.
pub fn encode_entry(alloc: Global, entry: &Entry) -> Result<Listed<u8>, Memory>
    requires call { entry.now.call < CALL_END }
    requires command { IsCommand entry.now.command }
    ensures text { IfOk result (λ bytes. bytes ≡ entry_text entry.now) }
    ensures some { IfOk result (λ bytes. 1 ≤ length bytes) }
    ensures most { IfOk result (λ bytes. length bytes ≤ most_bytes) }
    ensures entry { IfOk result (λ bytes. (airport : AirportParts)
        → IsCommandOf airport entry.now.command
        → IsEntryOf airport entry.now) }
{
    let mut out = Vec::new(alloc);
    out.extend_from_slice(&entry.call.to_le_bytes())?;
    push_command(alloc, &mut out, &entry.command)?;
    Ok(Listed::from_vec(out))
}

#[tactic(auto, unfolding(crate::specs::Parsing::parse_desk_message))]
fn parse_desk_message(alloc: Global, reader: &mut Reader<'_>) -> Result<DeskMessage, ReadFault>
    ensures is { GivesReading result reader.new (parse_desk_message reader.old) }
{
    let desk = reader.name()?;
    let message = parse_message(alloc, reader)?;
    Ok(DeskMessage { desk, message })
}

#[tactic(auto, unfolding(crate::specs::Parsing::parse_desk_report))]
fn parse_desk_report(reader: &mut Reader<'_>, airport: &Airport) -> Result<DeskReport, ReadFault>
    ensures is { GivesReading result reader.new (parse_desk_report airport.now reader.old) }
{
    let desk = reader.name()?;
    parse_report(reader, airport, desk)
}

#[tactic(auto, unfolding(crate::specs::Parsing::parse_command))]
fn parse_command(
    alloc: Global,
    reader: &mut Reader<'_>,
    airport: &Airport,
) -> Result<Command, ReadFault>
    ensures is { GivesReading result reader.new (parse_command (parse_of_kind airport.now) reader.old) }
{
    match reader.byte()? {
        1 => Ok(Command::AddVisit(parse_new_visit(reader, airport)?)),
        2 => Ok(Command::Commit(parse_commit(alloc, reader, airport)?)),
        5 => Ok(Command::Cancel(parse_cancel(reader)?)),
        6 => Ok(Command::Message(parse_desk_message(alloc, reader)?)),
        7 => Ok(Command::Report(parse_desk_report(reader, airport)?)),
        _ => Err(ReadFault::BadKind),
    }
}

pub(crate) fn parse_call(reader: &mut Reader<'_>) -> Result<u64, ReadFault>
    ensures is { GivesReading result reader.new (parse_call reader.old) }
{
    let at = reader.at();
    let call = reader.u64()?;
    in_form(at, call < CALL_END)?;
    Ok(call)
}

pub(crate) fn with_none_left(reader: &Reader<'_>, entry: Entry) -> Result<Entry, ReadFault>
    ensures is { ReadsEntry result (with_none_left (Ok (entry, reader.now))) }
{
    if !reader.is_empty() {
        return Err(ReadFault::TrailingBytes(reader.at()));
    }
    Ok(entry)
}

#[tactic(auto, unfolding(crate::specs::Parsing::decode_entry, crate::specs::Parsing::parse_entry))]
fn read_entry(alloc: Global, airport: &Airport, bytes: &[u8]) -> Result<Entry, ReadFault>
    ensures is { ReadsEntry result (decode_entry airport.now bytes.now) }
{
    let mut reader = Reader::new(bytes);
    let call = parse_call(&mut reader)?;
    let command = parse_command(alloc, &mut reader, airport)?;
    with_none_left(&reader, Entry { call, command })
}

pub(crate) fn entry_fault(fault: ReadFault) -> EntryFault
    requires near { IsWithin most_bytes (entry_fault fault) }
    ensures is { result ≡ entry_fault fault }
{
    match fault {
        ReadFault::BadKind => EntryFault::BadKind,
        ReadFault::BadField(at) => EntryFault::BadField(at as u32),
        ReadFault::TrailingBytes(at) => EntryFault::TrailingBytes(at as u32),
        ReadFault::Memory => EntryFault::Memory,
    }
}

/// The entry of an airport that has these bytes. `Err` gives the first fault from left to right if
/// none has, or says that there is no memory.
pub fn decode_entry(alloc: Global, airport: &Airport, bytes: &[u8]) -> Result<Entry, EntryFault>
    ensures entry { IfOk result (SpellsEntry airport.now bytes.now) }
    ensures none { IfErr result
        (λ fault. fault ≢ EntryFault.Memory → SpellsNone airport.now bytes.now) }
    ensures fault { IfErr result (λ fault. fault ≢ EntryFault.Memory
        → IsFirstFault entry_fields airport.now bytes.now fault) }
{
    match read_entry(alloc, airport, bytes) {
        Ok(entry) => Ok(entry),
        Err(fault) => Err(entry_fault(fault)),
    }
}
