// Why two files give no airport.
use airport_files::FileFault;

/// Why two files give no airport.
#[derive(Debug, Drop)]
pub enum FilesFault {
    /// The first fault in what they say. It isn't a lack of memory.
    Faulty(FileFault),
    /// The airport file is longer than 1 MiB.
    AirportTooLong,
    /// The type file is longer than 1 MiB.
    TypesTooLong,
    /// The shelf failed.
    ShelfFault,
    /// There is no memory.
    Memory,
}

impl From<FileFault> for FilesFault {
    ghost use Rattle.std.specs.Prelude.{◌≡◌};
    ghost use Rattle.apron_check.specs.Faults.{of_file_fault};

    ghost from_gives = { λ fault given. given ≡ of_file_fault fault };

    fn from(fault: FileFault) -> FilesFault {
        match fault {
            FileFault::Memory => FilesFault::Memory,
            fault => FilesFault::Faulty(fault),
        }
    }
}
