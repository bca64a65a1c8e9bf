// A borrowed disk that stays the same one.
//
// A call that takes a disk by value gives back a disk, and no clause tells that what it gives back
// is the same borrow. So the borrow's name stands in the type: whoever has a value of it at the end
// has the disk that was lent at the beginning.
ghost use Rattle.std.specs.Prelude.{◌≡◌, ℕ};

use apron_base::Failed;
use journal_disk::Disk;
use std::marker::{Brand, PhantomData};

/// The name of a borrow.
pub(crate) trait Named {
    ghost name: { ℕ };
}

impl Named for Brand {
    ghost name = { 0 };
}

/// A borrowed disk, by the name of its borrow.
#[derive(Drop)]
pub(crate) struct SameDisk<'d, N: Named, D: Disk> {
    pub(crate) disk: &'d mut D,
    pub(crate) of: PhantomData<N>,
    ghost same: { disk.ghost_name ≡ N.name },
}

impl<'d, N: Named, D: Disk> Disk for SameDisk<'d, N, D> {
    ghost state = { λ s. D.state s.disk.now };

    ghost reads = { λ s. D.reads s.disk.now };

    fn length(&mut self) -> Result<u32, Failed> {
        self.disk.length()
    }

    fn read(&mut self, at: u32, into: &mut [u8]) -> Result<(), Failed> {
        self.disk.read(at, into)
    }

    fn write_at(&mut self, at: u32, piece: &[u8]) -> Result<(), Failed> {
        self.disk.write_at(at, piece)
    }

    fn sync(&mut self) -> Result<(), Failed> {
        self.disk.sync()
    }
}
