// Keepers in memory, for tests: one with calls that fail on command, and one that never fails.
ghost use Rattle.std.specs.Prelude.{◌≡◌, ◌≤◌, ◌<◌, length, is_err, OnOk, OnErr, IsOk};
ghost use Rattle.apron_base.specs.Fails.{fails_after_count, fails_from, is_to_fail};
ghost use Rattle.apron_base.specs.Keeper.{AddsEntry, FailsToAdd, with_last};
ghost use Rattle.apron_base.specs.ListKeeper.{keeper_state, steady_keeper_state};

use crate::fails::FailingCalls;
use crate::{Failed, Keeper, Listed, MAX_ENTRIES, MAX_ENTRY, Memory};
use std::alloc::Global;
use std::marker::Model;
use std::mem;

// Entries, with memory for one more.
#[derive(Drop)]
struct Entries {
    alloc: Global,
    kept: Vec<Listed<u8>>,
    // the memory for the next entry, which is empty
    spare: Vec<u8>,
}

impl Model for Entries {
    ghost use Rattle.std.specs.Prelude.{vec_capacity};
    ghost use Rattle.apron_base.specs.ListKeeper.{EntriesHeld, HaveRoom};

    ghost Value = { EntriesHeld };

    ghost view = { λ e. record { entries = e.kept.items; room = vec_capacity e.spare } };

    ghost invariant = { λ e. HaveRoom e.kept e.spare };
}

impl Entries {
    fn new(alloc: Global, kept: Vec<Listed<u8>>) -> Entries
        ensures held { result ≡ record { entries = kept.items; room = 0 } }
    {
        Entries {
            alloc,
            kept,
            spare: Vec::new(alloc),
        }
    }

    // Takes the memory for one entry of this length.
    fn ready(&mut self, alloc: Global, length: usize) -> Result<(), Memory>
        ensures room { OnOk result (length ≤ self.new.room) }
        ensures kept { self.new.entries ≡ self.old.entries }
    {
        self.kept.reserve(1)?;
        self.spare.reserve(length)?;
        Ok(())
    }

    // Puts an entry last, in the memory that was taken for it.
    fn push(&mut self, entry: &[u8])
        requires some { 0 < length entry.now }
        requires room { length entry.now ≤ self.old.room }
        ensures last { self.new.entries ≡ with_last entry.now self.old.entries }
    {
        let mut bytes = mem::replace(&mut self.spare, Vec::new(self.alloc));
        if bytes.extend_from_slice(entry).is_err() {
            unreachable!();
        }
        self.kept.push_reserved(Listed::from_vec(bytes));
    }
}

/// A keeper with its entries in memory, and with calls that fail. It never has an entry at risk.
/// Contracts see the entries, the room and the calls that fail.
#[derive(Drop)]
pub struct ListKeeper {
    entries: Entries,
    fails: FailingCalls,
}

impl Model for ListKeeper {
    ghost use Rattle.apron_base.specs.ListKeeper.{ListKeeperHeld};

    ghost Value = { ListKeeperHeld };

    ghost view = { λ k. record { kept = k.entries; fails = k.fails } };
}

impl ListKeeper {
    /// The keeper of these entries. `fails` are the numbers of the appends that fail, from 0, in
    /// any order. An append that fails adds nothing.
    pub fn new(alloc: Global, entries: Vec<Listed<u8>>, fails: Vec<u64>) -> Self
        ensures kept { result.kept ≡ record { entries = entries.items; room = 0 } }
        ensures fails { result.fails ≡ fails_from fails.items }
    {
        ListKeeper {
            entries: Entries::new(alloc, entries),
            fails: FailingCalls::new(fails),
        }
    }

    /// The entries in order.
    pub fn entries(&self) -> &[Listed<u8>]
        ensures entries { result.now ≡ self.now.kept.entries }
    {
        &self.entries.kept
    }
}

impl Keeper for ListKeeper {
    ghost state = { keeper_state };

    fn ready(&mut self, alloc: Global, length: usize) -> Result<(), Memory> {
        self.entries.ready(alloc, length)
    }

    fn append(&mut self, entry: &[u8]) -> Result<(), Failed>
        requires some { 1 ≤ length entry.now }
        requires most { length entry.now ≤ MAX_ENTRY }
        requires room { length entry.now ≤ (keeper_state self.old).room }
        requires few { (keeper_state self.old).number < MAX_ENTRIES }
        ensures ok { OnOk result
            (AddsEntry (keeper_state self.old) (keeper_state self.new) entry.now) }
        ensures err { OnErr result
            (FailsToAdd (keeper_state self.old) (keeper_state self.new) entry.now) }

        // Exactly the given calls fail.
        ensures refused { is_err result ≡ is_to_fail self.old.fails }
        ensures called { self.new.fails ≡ fails_after_count (is_err result) self.old.fails }
    {
        if self.fails.is_next() {
            return Err(self.fails.fail());
        }
        self.entries.push(entry);
        Ok(())
    }
}

/// A keeper with its entries in memory that never fails. It never has an entry at risk. Contracts
/// see the entries and the room.
#[derive(Drop)]
pub struct SteadyKeeper {
    entries: Entries,
}

impl Model for SteadyKeeper {
    ghost use Rattle.apron_base.specs.ListKeeper.{EntriesHeld};

    ghost Value = { EntriesHeld };

    ghost view = { λ k. k.entries };
}

impl SteadyKeeper {
    /// The keeper of these entries.
    pub fn new(alloc: Global, entries: Vec<Listed<u8>>) -> Self
        ensures kept { result ≡ record { entries = entries.items; room = 0 } }
    {
        SteadyKeeper {
            entries: Entries::new(alloc, entries),
        }
    }

    /// The entries in order.
    pub fn entries(&self) -> &[Listed<u8>]
        ensures entries { result.now ≡ self.now.entries }
    {
        &self.entries.kept
    }
}

impl Keeper for SteadyKeeper {
    ghost state = { steady_keeper_state };

    fn ready(&mut self, alloc: Global, length: usize) -> Result<(), Memory> {
        self.entries.ready(alloc, length)
    }

    fn append(&mut self, entry: &[u8]) -> Result<(), Failed>
        requires some { 1 ≤ length entry.now }
        requires most { length entry.now ≤ MAX_ENTRY }
        requires room { length entry.now ≤ (steady_keeper_state self.old).room }
        requires few { (steady_keeper_state self.old).number < MAX_ENTRIES }
        ensures ok { OnOk result
            (AddsEntry (steady_keeper_state self.old) (steady_keeper_state self.new) entry.now) }
        ensures err { OnErr result
            (FailsToAdd (steady_keeper_state self.old) (steady_keeper_state self.new) entry.now) }
        ensures never_fails { IsOk result }
    {
        self.entries.push(entry);
        Ok(())
    }
}
