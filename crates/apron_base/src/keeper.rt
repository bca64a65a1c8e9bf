// What keeps the entries of a history.
ghost use Rattle.std.specs.Prelude.{◌≡◌, ◌≤◌, ◌<◌, length, OnOk, OnErr};
ghost use Rattle.apron_base.specs.Keeper.{AddsEntry, FailsToAdd, KeeperState};

use crate::{Failed, Memory};
use std::alloc::Global;

mod list_keeper;

pub use list_keeper::{ListKeeper, SteadyKeeper};

/// The most entries of a keeper.
pub const MAX_ENTRIES: u32 = 200_000;

/// The most bytes of an entry.
pub const MAX_ENTRY: usize = 1_024;

/// What keeps the entries of a history, in order.
pub trait Keeper {
    /// The entries and the entry at risk, if it exposes them; how many entries there are; how long
    /// an entry it has room for; and how often a call has failed: a count that never falls, and
    /// stops at `2^64 - 1`.
    ghost state: { Self → KeeperState };

    /// Takes the memory for one entry of this length, 1 to 1,024 bytes. All but the room stays as
    /// it is. `Err` if there is no memory.
    fn ready(&mut self, alloc: Global, length: usize) -> Result<(), Memory>
        requires some { 1 ≤ length }
        requires most { length ≤ MAX_ENTRY }
        ensures room { OnOk result (length ≤ (state self.new).room) }
        ensures kept { state self.new ≡ record (state self.old) { room = (state self.new).room } };

    /// Puts an entry of 1 to 1,024 bytes last. It takes no memory. At `Err` nothing was added, and
    /// the count of faults rose; otherwise the count stays.
    fn append(&mut self, entry: &[u8]) -> Result<(), Failed>
        requires some { 1 ≤ length entry.now }
        requires most { length entry.now ≤ MAX_ENTRY }
        requires room { length entry.now ≤ (state self.old).room }
        requires few { (state self.old).number < MAX_ENTRIES }
        ensures ok { OnOk result (AddsEntry (state self.old) (state self.new) entry.now) }
        ensures err { OnErr result (FailsToAdd (state self.old) (state self.new) entry.now) };
}
