// The journal of two files.
//
// A board knows its keeper by what every keeper tells, and that is neither a header nor what a
// crash leaves. So the digests of the files and the disk as it was are in the type: whatever a
// board does with such a journal, it stays the journal of these files, and a crash leaves a front
// of its entries.
ghost use Rattle.std.specs.Prelude.{◌≡◌, ℕ, List, [], None, IfSome};
ghost use Rattle.journal_disk.specs.Disk.{DiskState, untold_disk};
ghost use Rattle.journal_disk.specs.Extent.{IsCrashSafe, entries_within, keeper_of};
ghost use Rattle.apron_run.specs.Journal.{IsOf};
ghost use Rattle.apron_run.specs.Survival.{LeavesFronts};

use apron_base::{Failed, Keeper, Memory};
use journal_disk::{Disk, Journal};
use std::alloc::Global;
use std::marker::{Brand, Model, PhantomData};

/// The two files that a journal is of, and the disk on which it was opened.
pub trait OfFiles {
    /// The digest of the airport file, and then that of the type file, 32 bytes each.
    ghost digests: { List ℕ };

    /// The disk as it was when the call began that opened the journal.
    ghost begun: { DiskState };
}

impl OfFiles for Brand {
    ghost digests = { [] };

    ghost begun = { untold_disk 0 };
}

/// A journal of these files: if its disk tells what it reads as, their digests are in its header. A
/// crash at any moment leaves a front of its entries, which never gets shorter. Only if a call of
/// the disk has failed may one more follow that is none of them. Contracts see the journal.
#[derive(Drop)]
pub struct FilesJournal<N: OfFiles, D: Disk> {
    journal: Journal<D>,
    of: PhantomData<N>,
}

impl<N: OfFiles, D: Disk> Model for FilesJournal<N, D> {
    ghost use Rattle.std.specs.Prelude.{IfSome};
    ghost use Rattle.journal_disk.specs.Extent.{JournalHeld, entries_within, keeper_of};
    ghost use Rattle.apron_run.specs.Journal.{IsOf};
    ghost use Rattle.apron_run.specs.Survival.{LeavesFronts, RisksIfFailed};

    ghost Value = { JournalHeld D };

    ghost view = { λ f. f.journal };

    ghost invariant = { λ f. IfSome (D.state f.journal.disk).contents (IsOf N.digests)
        × LeavesFronts N.digests (entries_within f.journal.extent) N.begun
        (D.state f.journal.disk)
        × RisksIfFailed (keeper_of f.journal.extent (D.state f.journal.disk)) };
}

impl<N: OfFiles, D: Disk> FilesJournal<N, D> {
    /// The journal of these files, as it was opened.
    pub(crate) fn new(journal: Journal<D>) -> FilesJournal<N, D>
        requires digests { IfSome (D.state journal.disk).contents (IsOf N.digests) }
        requires fronts { LeavesFronts N.digests (entries_within journal.extent) N.begun
            (D.state journal.disk) }
        requires at_risk { (keeper_of journal.extent (D.state journal.disk)).at_risk ≡ None }
        ensures journal { result ≡ journal }
    {
        FilesJournal {
            journal,
            of: PhantomData,
        }
    }

    /// The disk as it is: the journal's entries are on it, or these and the one at risk, after the
    /// header of these files.
    pub(crate) fn into_disk(self) -> D
        ensures disk { result ≡ self.disk }
        ensures entries { IsCrashSafe self.extent (D.state result) }
        ensures digests { IfSome (D.state result).contents (IsOf N.digests) }
        ensures fronts { LeavesFronts N.digests (entries_within self.extent)
            N.begun (D.state result) }
    {
        self.journal.into_disk()
    }
}

impl<N: OfFiles, D: Disk> Keeper for FilesJournal<N, D> {
    ghost use Rattle.journal_disk.specs.Extent.{keeper_of};

    ghost state = { λ f. keeper_of f.extent (D.state f.disk) };

    fn ready(&mut self, alloc: Global, length: usize) -> Result<(), Memory> {
        self.journal.ready(alloc, length)
    }

    fn append(&mut self, entry: &[u8]) -> Result<(), Failed> {
        self.journal.append(entry)
    }
}
