// What the program ends with.
ghost use Rattle.std.specs.Prelude.{◌≡◌};
ghost use Rattle.apron_run.specs.Statuses.{exit_code};

/// What the program ends with.
#[derive(Clone, Copy, Debug, PartialEq, Eq)]
pub enum Status {
    /// All was done. A session's input ended between requests, or a request closed it.
    Done,
    /// The words ask for nothing that there is.
    Usage,
    /// A file has a fault, or is longer than 1 MiB.
    FileFault,
    /// The shelf failed.
    ShelfFault,
    /// The source failed.
    ReadFault,
    /// The sink failed.
    WriteFault,
    /// The disk failed before there was a journal to work on, or at an entry of an import.
    DiskFault,
    /// What the disk reads as is no journal of the airport, or no history of it.
    JournalFault,
    /// A record of the season file is refused, or the file is longer than 16 MiB.
    SeasonFault,
    /// The input ended within a request.
    Cut,
    /// A listener failed.
    ListenerFault,
    /// Memory ran out.
    Memory,
    /// A request's head was refused.
    Malformed,
    /// A journal is made on an empty disk only.
    NotEmpty,
    /// The history has no place for a visit of the season file.
    Full,
    /// A session answered as many requests as it may.
    Limit,
    /// There were no more call numbers.
    Spent,
}

impl Status {
    /// The number that the program ends with.
    pub fn code(self) -> u8
        ensures value { result ≡ exit_code self }
    {
        match self {
            Status::Done => 0,
            Status::Usage => 2,
            Status::FileFault => 3,
            Status::ShelfFault => 4,
            Status::ReadFault => 5,
            Status::WriteFault => 6,
            Status::DiskFault => 7,
            Status::JournalFault => 8,
            Status::SeasonFault => 9,
            Status::Cut => 10,
            Status::ListenerFault => 11,
            Status::Memory => 12,
            Status::Malformed => 13,
            Status::NotEmpty => 14,
            Status::Full => 15,
            Status::Limit => 16,
            Status::Spent => 17,
        }
    }
}
