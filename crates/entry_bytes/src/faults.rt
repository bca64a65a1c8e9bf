// Why bytes are no entry.
use apron_base::Memory;

/// Why bytes are no entry for an airport: the first fault from left to right. Places count bytes
/// from 0.
#[derive(Clone, Copy, Debug, PartialEq, Eq)]
pub enum EntryFault {
    /// The ninth byte is no kind of command.
    BadKind,
    /// The field that begins at this place is cut short, or does not have its form.
    BadField(u32),
    /// The entry ends before this place, but the bytes go on.
    TrailingBytes(u32),
    /// There is no memory.
    Memory,
}

// The same while the bytes are read, with places of any width.
#[derive(Clone, Copy, Debug)]
pub(crate) enum ReadFault {
    BadKind,
    BadField(usize),
    TrailingBytes(usize),
    Memory,
}

impl From<Memory> for ReadFault {
    ghost use Rattle.std.specs.Prelude.{◌≡◌};
    ghost use Rattle.entry_bytes.specs.declared.faults.ReadFault.TheVariants as faults;

    ghost from_gives = { λ _ e. e ≡ faults.Memory };

    fn from(_: Memory) -> Self {
        ReadFault::Memory
    }
}
