// Converts the entries of a journal of format 1.
ghost use Rattle.std.specs.Prelude.{◌≡◌, ◌≤◌, ◌<◌, ◌+◌, IfErr, IfOk, OnOk, length};
ghost use Rattle.history_core.specs.Opening.{not_read};
ghost use Rattle.journal_disk.specs.Limits.{most_entries};
ghost use Rattle.apron_run.specs.Converting.{CannotConvert};
ghost use Rattle.apron_run.specs.Converted.{HasConverted, ConvertsNext, NotConverted};

use apron_base::Listed;
use apron_rules::Airport;
use entry_bytes::{EntryFault, convert_entry};
use history_core::OpenFault;
use std::alloc::Global;

/// The entries of format 2 that these of format 1 are, in order. At `Err` the first that can't be
/// converted is named, or there is no memory.
pub(crate) fn convert_entries(
    alloc: Global,
    airport: &Airport,
    old: &[Listed<u8>],
) -> Result<Listed<Listed<u8>>, OpenFault>
    requires few { length old.now ≤ most_entries }
    ensures converted { IfOk result (HasConverted airport.now old.now) }
    ensures refused { IfErr result (CannotConvert airport.now old.now) }
{
    let mut new = Listed::new(alloc);
    for bytes in old {
        convert_next(alloc, airport, bytes.as_slice(), &mut new)?;
    }
    Ok(new)
}

// Converts one entry more, and puts it after the others.
fn convert_next(
    alloc: Global,
    airport: &Airport,
    bytes: &[u8],
    new: &mut Listed<Listed<u8>>,
) -> Result<(), OpenFault>
    requires few { length new.old < most_entries }
    ensures converted { OnOk result (ConvertsNext airport.now bytes.now new.old new.new) }
    ensures refused { IfErr result (NotConverted airport.now (length new.old + 1) bytes.now) }
{
    let number = new.len() as u32 + 1;
    match convert_entry(alloc, airport, bytes) {
        Ok(entry) => Ok(new.push(entry)?),
        Err(fault) => Err(not_converted(number, fault)),
    }
}

// Why the entry of this number is not converted, whose bytes are not read for this fault.
fn not_converted(number: u32, fault: EntryFault) -> OpenFault
    ensures is { result ≡ not_read number fault }
{
    match fault {
        EntryFault::Memory => OpenFault::Memory,
        EntryFault::BadKind | EntryFault::BadField(_) | EntryFault::TrailingBytes(_) =>
            OpenFault::BadEntry(number),
    }
}
