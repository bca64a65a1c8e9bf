// The word `upgrade`.
ghost use Rattle.std.specs.Prelude.{◌≡◌};
ghost use Rattle.apron_base.specs.Ends.{SinkState, SourceState};
ghost use Rattle.apron_base.specs.Shelf.{ShelfState};
ghost use Rattle.apron_run.specs.Upgrade.{AtUpgrade};
ghost use Rattle.apron_run.specs.World.{run_world};

use crate::End;
use crate::converting::convert_entries;
use crate::print::{Kind, Text};
use crate::same_disk::{Named, SameDisk};
use crate::unusable::Unusable;
use apron_check::AirportFiles;
use journal_disk::{Disk, Found, open_old};
use std::alloc::Global;
use std::marker::{Brand, PhantomData};

/// Makes the journal of these files on the disk one of format 2, if it is of format 1.
pub(crate) fn upgrade_journal<D: Disk>(alloc: Global, files: &AirportFiles, disk: &mut D) -> End
    ensures does { (shelf : ShelfState) (source : SourceState) (sink : SinkState)
        → AtUpgrade files.now (run_world shelf source sink (D.state disk.old))
        (run_world shelf source sink (D.state disk.new)) result }
{
    let (end, _disk) = upgrade_on::<Brand, D>(alloc, files, disk);
    end
}

// The upgrade with the borrow of the disk given back, by its name.
fn upgrade_on<'d, N: Named, D: Disk>(
    alloc: Global,
    files: &AirportFiles,
    disk: &'d mut D,
) -> (End, &'d mut D)
    requires named { disk.ghost_name ≡ N.name }
    ensures same { result.1.ghost_name ≡ disk.entry.ghost_name }
    ensures does { (shelf : ShelfState) (source : SourceState) (sink : SinkState)
        → AtUpgrade files.now (run_world shelf source sink (D.state disk.old))
        (run_world shelf source sink (D.state result.1.now)) result.0 }
{
    let same: SameDisk<'d, N, D> = SameDisk {
        disk,
        of: PhantomData,
    };
    let (end, back) = upgrade_disk::<SameDisk<'d, N, D>>(alloc, files, same);
    let SameDisk { disk, .. } = back;
    (end, disk)
}

// The upgrade of the journal of these files on the disk.
fn upgrade_disk<D: Disk>(alloc: Global, files: &AirportFiles, disk: D) -> (End, D)
    ensures does { (shelf : ShelfState) (source : SourceState) (sink : SinkState)
        → AtUpgrade files.now (run_world shelf source sink (D.state disk))
        (run_world shelf source sink (D.state result.1)) result.0 }
{
    let old = match open_old(alloc, disk, &files.digests) {
        Ok(Found::Old(old)) => old,
        Ok(Found::New(disk)) => return (End::Printed(Text(Kind::Already)), disk),
        Err((fault, disk)) => return (End::Unusable(Unusable::Journal(fault)), disk),
    };
    let new = match convert_entries(alloc, &files.airport, old.entries()) {
        Ok(new) => new,
        Err(fault) => return (End::Unusable(Unusable::Entries(fault)), old.into_disk()),
    };
    let (switched, disk) = old.switch(new.as_slice());
    match switched {
        Ok(()) => (End::Printed(Text(Kind::Upgraded(new.len() as u32))), disk),
        Err(fault) => (End::Unusable(Unusable::Journal(fault)), disk),
    }
}
