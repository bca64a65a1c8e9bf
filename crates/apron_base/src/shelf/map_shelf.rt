// Shelves in memory, for tests: one with calls that fail on command, and one that never fails.
ghost use Rattle.std.specs.Prelude.{◌≡◌, ◌≢◌, ◌≤◌, ◌<◌, Err, IfOk, length, option_copied, vec_len};
ghost use Rattle.apron_base.specs.Fails.{fails_after_count, fails_from};
ghost use Rattle.apron_base.specs.Shelf.{GivesFile, is_failed};
ghost use Rattle.apron_base.specs.MapShelf.{bytes_or_empty, file_named, refuses_read, shelf_state, steady_shelf_state};

use crate::fails::FailingCalls;
use crate::{Listed, Shelf, ShelfFault, Word};
use std::alloc::Global;
use std::marker::Model;

/// A file of a shelf in memory.
#[derive(Drop)]
pub struct ShelfFile {
    pub name: Word,
    pub bytes: Listed<u8>,
}

/// A shelf of given files, with calls that fail. A name that it doesn't hold is a fault; of two
/// files of one name it has the first. Contracts see the files, the calls that fail and the bytes
/// read.
#[derive(Drop)]
pub struct MapShelf {
    files: Listed<ShelfFile>,
    fails: FailingCalls,
    read: u64,
}

impl Model for MapShelf {
    ghost use Rattle.apron_base.specs.MapShelf.{ShelfHeld};

    ghost Value = { ShelfHeld };

    ghost view = { λ s. record { files = s.files; fails = s.fails; read = s.read } };
}

impl MapShelf {
    /// `fails` are the numbers of the calls that fail, from 0, in any order.
    pub fn new(files: Vec<ShelfFile>, fails: Vec<u64>) -> Self
        ensures is { result
            ≡ record { files = files.items; fails = fails_from fails.items; read = 0 } }
    {
        MapShelf {
            files: Listed::from_vec(files),
            fails: FailingCalls::new(fails),
            read: 0,
        }
    }
}

impl Shelf for MapShelf {
    ghost state = { shelf_state };

    fn read_file(&mut self, alloc: Global, name: &str, limit: u32) -> Result<Vec<u8>, ShelfFault>
        ensures gives { GivesFile (shelf_state self.old) (shelf_state self.new)
            name.now limit result }

        // Exactly the given calls, and those with a name that it doesn't hold, fail.
        ensures refused { is_failed result ≡ refuses_read self.old name.now }
        ensures called { self.new.fails ≡ fails_after_count (is_failed result) self.old.fails }
        ensures files { self.new.files ≡ self.old.files }
    {
        if self.fails.is_next() {
            let _ = self.fails.fail();
            return Err(ShelfFault::Failed);
        }
        let Some(kept) = file_named(self.files.as_slice(), name) else {
            let _ = self.fails.fail();
            return Err(ShelfFault::Failed);
        };
        let copy = copy_up_to(alloc, kept.bytes.as_slice(), limit)?;
        self.read = self.read.saturating_add(copy.len() as u64);
        Ok(copy)
    }
}

/// A shelf of given files that never fails. For each name that it doesn't hold it has an empty
/// file; of two files of one name it has the first. Contracts see the files and the bytes read.
#[derive(Drop)]
pub struct SteadyShelf {
    files: Listed<ShelfFile>,
    read: u64,
}

impl Model for SteadyShelf {
    ghost use Rattle.apron_base.specs.MapShelf.{SteadyShelfHeld};

    ghost Value = { SteadyShelfHeld };

    ghost view = { λ s. record { files = s.files; read = s.read } };
}

impl SteadyShelf {
    /// The shelf of these files. None has been asked for yet.
    pub fn new(files: Vec<ShelfFile>) -> Self
        ensures is { result ≡ record { files = files.items; read = 0 } }
    {
        SteadyShelf {
            files: Listed::from_vec(files),
            read: 0,
        }
    }
}

impl Shelf for SteadyShelf {
    ghost state = { steady_shelf_state };

    fn read_file(&mut self, alloc: Global, name: &str, limit: u32) -> Result<Vec<u8>, ShelfFault>
        ensures gives { GivesFile (steady_shelf_state self.old) (steady_shelf_state self.new)
            name.now limit result }
        ensures never_fails { result ≢ Err ShelfFault.Failed }
    {
        let copy = copy_or_empty(alloc, file_named(self.files.as_slice(), name), limit)?;
        self.read = self.read.saturating_add(copy.len() as u64);
        Ok(copy)
    }
}

fn file_named<'a>(files: &'a [ShelfFile], name: &str) -> Option<&'a ShelfFile>
    ensures first { option_copied result ≡ file_named files.now name.now }
{
    files.iter().find(|kept| kept.name.text() == name)
}

fn copy_or_empty(alloc: Global, kept: Option<&ShelfFile>, limit: u32) -> Result<Vec<u8>, ShelfFault>
    ensures whole { IfOk result (λ v. v.items ≡ bytes_or_empty (option_copied kept.entry)) }
    ensures within { IfOk result (λ v. vec_len v ≤ limit) }
    ensures too_long { result ≡ Err ShelfFault.TooLong
        → limit < length (bytes_or_empty (option_copied kept.entry)) }
    ensures never_fails { result ≢ Err ShelfFault.Failed }
{
    match kept {
        Some(kept) => copy_up_to(alloc, kept.bytes.as_slice(), limit),
        None => Ok(Vec::new(alloc)),
    }
}

fn copy_up_to(alloc: Global, bytes: &[u8], limit: u32) -> Result<Vec<u8>, ShelfFault>
    ensures whole { IfOk result (λ v. v.items ≡ bytes.now) }
    ensures within { IfOk result (λ v. vec_len v ≤ limit) }
    ensures too_long { result ≡ Err ShelfFault.TooLong → limit < length bytes.now }
    ensures never_fails { result ≢ Err ShelfFault.Failed }
{
    if bytes.len() > limit as usize {
        return Err(ShelfFault::TooLong);
    }
    match Vec::from_slice(alloc, bytes) {
        Ok(copy) => Ok(copy),
        Err(_) => Err(ShelfFault::Memory),
    }
}
