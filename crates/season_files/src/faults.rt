// Why a text gives no season.
use apron_base::Memory;

/// The first refused record, counted from 1 with the header, or a lack of memory.
#[derive(Clone, Copy, Debug, PartialEq, Eq)]
pub enum SeasonFault {
    BadRow(u32),
    Memory,
}

impl From<Memory> for SeasonFault {
    ghost use Rattle.std.specs.Prelude.{◌≡◌};
    ghost use Rattle.season_files.specs.declared.faults.SeasonFault.TheVariants as season_fault;

    ghost from_gives = { λ _ why. why ≡ season_fault.Memory };

    fn from(_: Memory) -> Self {
        SeasonFault::Memory
    }
}
