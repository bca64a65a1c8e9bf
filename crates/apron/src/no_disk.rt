// What words that name no journal have in place of a disk.
ghost use Rattle.std.specs.Prelude.{◌≡◌, is_err};
ghost use Rattle.apron_base.specs.Counts.{Counts};

use apron_base::Failed;
use journal_disk::Disk;
use std::marker::Model;

/// A disk without a byte. Each call but that of its length fails. Contracts see how many calls have
/// failed.
#[derive(Drop)]
pub(crate) struct NoDisk {
    faults: u64,
}

impl Model for NoDisk {
    ghost use Rattle.std.specs.Prelude.{ℕ};

    ghost Value = { ℕ };

    ghost view = { λ d. d.faults };
}

impl NoDisk {
    /// No call has failed yet.
    pub(crate) fn new() -> NoDisk
        ensures none { result ≡ 0 }
    {
        NoDisk { faults: 0 }
    }

    fn fail(&mut self) -> Result<(), Failed>
        ensures counts { Counts (is_err result) self.old self.new }
    {
        self.faults = self.faults.saturating_add(1);
        Err(Failed)
    }
}

impl Disk for NoDisk {
    ghost use Rattle.journal_disk.specs.Disk.{untold_disk};

    ghost state = { untold_disk };

    ghost reads = { λ _ _ _. tt };

    fn length(&mut self) -> Result<u32, Failed> {
        Ok(0)
    }

    fn read(&mut self, _at: u32, _into: &mut [u8]) -> Result<(), Failed> {
        self.fail()
    }

    fn write_at(&mut self, _at: u32, _piece: &[u8]) -> Result<(), Failed> {
        self.fail()
    }

    fn sync(&mut self) -> Result<(), Failed> {
        self.fail()
    }
}
