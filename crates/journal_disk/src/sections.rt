// The disk calls of a switch from format 1 to format 2. The new section is written after the gate
// that ends the old section, and is safely on the disk before the format byte is written. Until
// then nothing after that gate counts.
ghost use Rattle.std.specs.Prelude.{◌≡◌, ◌+◌, ◌*◌, ◌^◌, ◌≤◌, ◌<◌, ◌∷◌, length, take, is_err, IfOk, OnOk};
ghost use Rattle.std.specs.Option.{option_map};
ghost use Rattle.apron_base.specs.Counts.{Counts};
ghost use Rattle.apron_base.specs.Histories.{Every};
ghost use Rattle.journal_disk.specs.Disk.{Continues, EachImageSince, Goes, IfExposed, IsSafe, TellsAlike, with_piece_at};
ghost use Rattle.journal_disk.specs.Entries.{open_gate, records, with_length, IsEntry};
ghost use Rattle.journal_disk.specs.Header.{behind_section};
ghost use Rattle.journal_disk.specs.Limits.{most_entries, most_record, record_frame};
ghost use Rattle.journal_disk.specs.Switch.{IsSwitching, KeepsTo, after_switch, new_section};

use crate::Disk;
use crate::gates::{CLOSED, FRAME, OPEN, write_safely};
use crate::header::{FORMAT, HEADER, NEW};
use apron_base::{Failed, Listed, MAX_ENTRY};

// How long a record can be.
const MAX_RECORD: usize = FRAME + MAX_ENTRY;

/// Writes a new section of these entries after an old section whose records have `size` bytes, and
/// then the format byte of format 2. The new section is safe from a crash before that byte is
/// written.
pub(crate) fn switch_sections<D: Disk>(
    disk: &mut D,
    size: u32,
    entries: &[Listed<u8>],
) -> Result<(), Failed>
    requires sizes { Every IsEntry entries.now }
    requires few { length entries.now ≤ most_entries }
    requires within { size ≤ most_record * most_entries }
    requires inside { IfExposed (D.state disk.old) (λ bytes. behind_section size ≤ length bytes) }
    ensures continues { Continues (D.state disk.old) (D.state disk.new) }
    ensures crash { IfExposed (D.state disk.old) (λ bytes. IsSafe bytes (D.state disk.old)
        → EachImageSince (D.state disk.old) (D.state disk.new)
        (IsSwitching size entries.now bytes)) }
    ensures switched { OnOk result (IfExposed (D.state disk.old)
        (λ bytes. IsSafe (after_switch size entries.now bytes) (D.state disk.new))) }
    ensures counts { Counts (is_err result) (D.state disk.old).faults (D.state disk.new).faults }
{
    write_section(disk, HEADER as u32 + size + 1, entries)?;
    write_safely(disk, FORMAT as u32, &[NEW])
}

// Writes a section of these entries from the place on; after it a crash leaves what was written.
fn write_section<D: Disk>(disk: &mut D, at: u32, entries: &[Listed<u8>]) -> Result<(), Failed>
    requires sizes { Every IsEntry entries.now }
    requires fits { at + most_record * length entries.now < 2 ^ 32 }
    requires inside { IfExposed (D.state disk.old) (λ bytes. at ≤ length bytes) }
    ensures tells { TellsAlike (D.state disk.old) (D.state disk.new) }
    ensures crash { Goes (KeepsTo at) (D.state disk.old) (D.state disk.new) }
    ensures safe { OnOk result (IfExposed (D.state disk.old)
        (λ bytes. IsSafe (with_piece_at at (new_section entries.now) bytes) (D.state disk.new))) }
    ensures counts { Counts (is_err result) (D.state disk.old).faults (D.state disk.new).faults }
{
    let end = put_records(disk, at, entries)?;
    write_safely(disk, end, &[CLOSED])
}

// Writes the records of these entries from the place on, and gives where they end.
fn put_records<D: Disk>(disk: &mut D, at: u32, entries: &[Listed<u8>]) -> Result<u32, Failed>
    requires sizes { Every IsEntry entries.now }
    requires fits { at + most_record * length entries.now < 2 ^ 32 }
    requires inside { IfExposed (D.state disk.old) (λ bytes. at ≤ length bytes) }
    ensures tells { TellsAlike (D.state disk.old) (D.state disk.new) }
    ensures crash { Goes (KeepsTo at) (D.state disk.old) (D.state disk.new) }
    ensures put { OnOk result ((D.state disk.new).contents
        ≡ option_map (with_piece_at at (records entries.now)) (D.state disk.old).contents) }
    ensures end { IfOk result (λ end. end ≡ at + length (records entries.now)) }
    ensures counts { Counts (is_err result) (D.state disk.old).faults (D.state disk.new).faults }
{
    let mut end = at;
    for entry in entries {
        put_record(disk, end, entry.as_slice())?;
        end += FRAME as u32 + entry.len() as u32;
    }
    Ok(end)
}

// Writes the record of an entry at the place.
fn put_record<D: Disk>(disk: &mut D, at: u32, entry: &[u8]) -> Result<(), Failed>
    requires entry { IsEntry entry.now }
    requires inside { IfExposed (D.state disk.old) (λ bytes. at ≤ length bytes) }
    ensures tells { TellsAlike (D.state disk.old) (D.state disk.new) }
    ensures crash { Goes (KeepsTo at) (D.state disk.old) (D.state disk.new) }
    ensures put { OnOk result
        ((D.state disk.new).contents
        ≡ option_map (with_piece_at at (open_gate ∷ with_length entry.now))
        (D.state disk.old).contents) }
    ensures counts { Counts (is_err result) (D.state disk.old).faults (D.state disk.new).faults }
{
    let mut piece = [OPEN; MAX_RECORD];
    let end = put_record_text(entry, &mut piece);
    disk.write_at(at, &piece[..end])
}

// Puts the record of an entry at the front of the piece, and gives how long it is.
fn put_record_text(entry: &[u8], piece: &mut [u8; MAX_RECORD]) -> usize
    requires entry { IsEntry entry.now }
    ensures length { result ≡ length entry.now + record_frame }
    ensures text { take result piece.new ≡ open_gate ∷ with_length entry.now }
{
    let size = entry.len();
    let (frame, behind) = piece.split_at_mut(FRAME);
    frame.copy_from_slice(&[OPEN, (size % 256) as u8, (size / 256) as u8]);
    let (middle, _end) = behind.split_at_mut(size);
    middle.copy_from_slice(entry);
    size + FRAME
}
