// The airport of two files, by their names on a shelf, and the files' digests.
ghost use Rattle.std.specs.Prelude.{◌≡◌};
ghost use Rattle.apron_check.specs.Digests.{digests_of};
ghost use Rattle.apron_check.specs.Faults.{unread_as};
ghost use Rattle.apron_check.specs.Files.{FindsFiles};

use crate::FilesFault;
use airport_files::read_airport;
use apron_base::{Shelf, ShelfFault};
use apron_rules::Airport;
use sha2::{Digest, Sha256};
use std::alloc::Global;

/// The most bytes of a file: 1 MiB.
pub const MAX_FILE: u32 = 1_048_576;

/// An airport, and the files that make it.
#[derive(Drop)]
pub struct AirportFiles {
    /// The airport.
    pub airport: Airport,
    /// The SHA-256 of the airport file, and then that of the type file, 32 bytes each.
    pub digests: [u8; 64],
}

/// The airport that the airport file and the type file of these names make, with their digests. The
/// airport file is read from the shelf first, then the type file, and then what they mean together
/// is tested. `Err` gives the first fault on the way: a file is over 1 MiB, something is wrong in
/// them, the shelf failed, or there is no memory.
pub fn airport_of<F: Shelf>(
    alloc: Global,
    airport: &str,
    types: &str,
    shelf: &mut F,
) -> Result<AirportFiles, FilesFault>
    ensures finds { FindsFiles (F.state shelf.old) (F.state shelf.new)
        airport.now types.now result }
{
    let airport = match shelf.read_file(alloc, airport, MAX_FILE) {
        Ok(bytes) => bytes,
        Err(fault) => return Err(fault_of_shelf(fault, FilesFault::AirportTooLong)),
    };
    let types = match shelf.read_file(alloc, types, MAX_FILE) {
        Ok(bytes) => bytes,
        Err(fault) => return Err(fault_of_shelf(fault, FilesFault::TypesTooLong)),
    };
    match read_airport(alloc, airport.as_slice(), types.as_slice()) {
        Ok(made) => Ok(AirportFiles {
            airport: made,
            digests: digests_of(airport.as_slice(), types.as_slice()),
        }),
        Err(fault) => Err(FilesFault::from(fault)),
    }
}

// The digests of two files, one after the other.
fn digests_of(airport: &[u8], types: &[u8]) -> [u8; 64]
    ensures are { result ≡ digests_of airport.now types.now }
{
    let mut both = [0; 64];
    let (front, back) = both.split_at_mut(32);
    front.copy_from_slice(&Sha256::digest(airport));
    back.copy_from_slice(&Sha256::digest(types));
    both
}

// Why there is no airport if a file isn't given.
fn fault_of_shelf(fault: ShelfFault, too_long: FilesFault) -> FilesFault
    ensures value { result ≡ unread_as fault too_long }
{
    match fault {
        ShelfFault::Failed => FilesFault::ShelfFault,
        ShelfFault::TooLong => too_long,
        ShelfFault::Memory => FilesFault::Memory,
    }
}
