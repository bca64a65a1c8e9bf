// A borrowed disk is a disk.
use crate::Disk;
use apron_base::Failed;

impl<D: Disk> Disk for &mut D {
    ghost state = { λ s. D.state s.now };

    ghost reads = { λ s. D.reads s.now };

    fn length(&mut self) -> Result<u32, Failed> {
        (**self).length()
    }

    fn read(&mut self, at: u32, into: &mut [u8]) -> Result<(), Failed> {
        (**self).read(at, into)
    }

    fn write_at(&mut self, at: u32, piece: &[u8]) -> Result<(), Failed> {
        (**self).write_at(at, piece)
    }

    fn sync(&mut self) -> Result<(), Failed> {
        (**self).sync()
    }
}
