// The shelf, from which whole files are read.
ghost use Rattle.apron_base.specs.Shelf.{GivesFile, ShelfState};

use std::alloc::Global;

mod map_shelf;

pub use map_shelf::{MapShelf, ShelfFile, SteadyShelf};

/// Why a file wasn't given.
#[derive(Clone, Copy, Debug, PartialEq, Eq)]
pub enum ShelfFault {
    /// The shelf failed.
    Failed,
    /// The file is longer than was asked for.
    TooLong,
    /// There is no memory.
    Memory,
}

/// A shelf of files.
pub trait Shelf {
    /// The bytes of the file of a name, if it exposes them; how often it has failed; and how many
    /// bytes were read. The two counts never fall, and stop at `2^64 - 1`.
    ghost state: { Self → ShelfState };

    /// Reads the whole file of this name, of at most `limit` bytes. A longer file is `TooLong`: if
    /// the shelf doesn't expose the file, more than `limit` bytes were read. At `Failed` the count
    /// of faults rose; otherwise the count stays.
    fn read_file(&mut self, alloc: Global, name: &str, limit: u32) -> Result<Vec<u8>, ShelfFault>
        ensures gives { GivesFile (state self.old) (state self.new) name.now limit result };
}
