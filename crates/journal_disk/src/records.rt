// The records of a journal's text.
ghost use Rattle.std.specs.Prelude.{◌≡◌, ◌≤◌, ◌-◌, IfOk, IfErr, IfSome, Ok, Err};
ghost use Rattle.std.specs.Option.{option_map};
ghost use Rattle.journal_disk.specs.Entries.{behind_gate, entries_from, section_length};
ghost use Rattle.journal_disk.specs.Faults.{RecordFails};
ghost use Rattle.journal_disk.specs.Limits.{most_entries};
ghost use Rattle.journal_disk.specs.Opening.{IsPassed, IsReadJournal, NextIs};

use crate::JournalFault;
use crate::gates::OPEN;
use apron_base::{Listed, MAX_ENTRIES, MAX_ENTRY};
use std::alloc::Global;

/// The entries of a text of records, and how long the records are.
#[derive(Drop)]
pub(crate) struct Records {
    pub(crate) entries: Vec<Listed<u8>>,
    pub(crate) length: usize,
}

// The record of this number, from 1, isn't whole, or is one too many.
#[derive(Clone, Copy)]
struct NotWhole {
    number: u32,
}

impl From<NotWhole> for JournalFault {
    ghost use Rattle.journal_disk.specs.declared.fault.JournalFault.{JournalFault};

    ghost from_gives = { λ bad e. e ≡ JournalFault.BadRecord bad.number };

    fn from(bad: NotWhole) -> Self {
        JournalFault::BadRecord(bad.number)
    }
}

/// The entries from a gate on.
pub(crate) fn read_records(alloc: Global, text: &[u8]) -> Result<Records, JournalFault>
    ensures entries { IfOk result
        (λ found. entries_from most_entries text.now ≡ Ok found.entries.items) }
    ensures whole { IfOk result (λ found. IsReadJournal text.now found.entries.items found.length) }
    ensures refused { IfErr result (RecordFails (entries_from most_entries text.now)) }
{
    let mut entries = Vec::new(alloc);
    let mut rest = text;
    while let Some((entry, after)) = next_record(rest, entries.len())? {
        entries.push(Listed::from_vec(entry.to_vec(alloc)?))?;
        rest = after;
    }
    let length = text.len() - rest.len();
    Ok(Records { entries, length })
}

/// How many bytes the records of a section have; `None` if one of them isn't whole. It takes no
/// memory.
pub(crate) fn pass_records(text: &[u8]) -> Option<usize>
    ensures length { result ≡ section_length (entries_from most_entries text.now) }
    ensures whole { IfSome result (IsPassed text.now) }
{
    let mut rest = text;
    let mut number = 0;
    while let Some((_, after)) = next_record(rest, number).ok()? {
        number += 1;
        rest = after;
    }
    Some(text.len() - rest.len())
}

// The entry after the gate at the front of the text, if that gate is open, and what comes after the
// entry. `number` entries were read before.
fn next_record(text: &[u8], number: usize) -> Result<Option<(&[u8], &[u8])>, NotWhole>
    requires few { number ≤ most_entries }
    ensures next { IfOk result (λ next.
        NextIs number text.now (option_map (λ found. (found.0.now, found.1.now)) next)) }
    ensures refused { IfErr result
        (λ bad. entries_from (most_entries - number) text.now ≡ Err bad.number) }
{
    let bad = NotWhole {
        number: number as u32 + 1,
    };
    let [gate, behind @ ..] = text else {
        return Err(bad);
    };
    if *gate != OPEN {
        return Ok(None);
    }
    if number == MAX_ENTRIES as usize {
        return Err(bad);
    }
    match behind_gate(behind) {
        Some(record) => Ok(Some(record)),
        None => Err(bad),
    }
}

// The entry after an open gate, and what comes after it, from the next gate on.
fn behind_gate(bytes: &[u8]) -> Option<(&[u8], &[u8])>
    ensures value { option_map (λ found. (found.0.now, found.1.now)) result
        ≡ behind_gate bytes.now }
{
    let [low, high, rest @ ..] = bytes else {
        return None;
    };
    let size = usize::from(*low) + 256 * usize::from(*high);
    if size == 0 || size > MAX_ENTRY || rest.len() <= size {
        return None;
    }
    Some(rest.split_at(size))
}
