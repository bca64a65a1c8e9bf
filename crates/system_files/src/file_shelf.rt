// The files of the system as a shelf.
ghost use Rattle.std.specs.Prelude.{◌≡◌, ◌+◌, IfOk, IfSome, take};

use crate::causes::report_cause;
use apron_base::{Shelf, ShelfFault};
use std::alloc::Global;
use std::io::Read;
use std::marker::Model;
use std::rt::Files;
use std::{fs, io};

/// Where files are opened by name, to be read: the system, or a folder that a test makes.
pub trait Folder {
    ghost use Rattle.std.specs.Prelude.{◌≡◌, ℕ, IfOk, IfSome, List, Option, Some};

    /// An open file.
    type File: Read + Drop;

    /// The bytes of the file of a name, if it exposes them.
    ghost file: { Self → List ℕ → Option (List ℕ) };

    /// Opens the file of this name. It is read from its beginning.
    fn open(&self, name: &str) -> io::Result<Self::File>
        ensures opened { IfOk result (λ opened. IfSome (file self.now name.now)
            (λ bytes. Self.File.remaining opened ≡ Some bytes)) };
}

/// The files of the system, by their paths as they are written.
impl<R: Files> Folder for &R {
    ghost use Rattle.std.specs.Prelude.{None};

    type File = R::File;

    ghost file = { λ _ _. None };

    fn open(&self, name: &str) -> io::Result<R::File> {
        fs::open(*self, name)
    }
}

/// The files of a folder as a shelf. It counts each error, and says its cause on standard error.
/// Contracts see the folder and the two counts.
#[derive(Drop)]
pub struct FileShelf<'a, R, F> {
    rt: &'a R,
    folder: F,
    faults: u64,
    read: u64,
}

impl<'a, R, F> Model for FileShelf<'a, R, F> {
    ghost use Rattle.system_files.specs.Shelves.{ShelfHeld};

    ghost Value = { ShelfHeld F };

    ghost view = { λ s. record { folder = s.folder; faults = s.faults; read = s.read } };
}

impl<'a, R: Files> FileShelf<'a, R, &'a R> {
    /// The files that this runtime opens. None has been asked for yet.
    pub fn new(rt: &'a R) -> Self
        ensures none { result.faults ≡ 0 }
        ensures unread { result.read ≡ 0 }
    {
        FileShelf::over(rt, rt)
    }
}

impl<'a, R, F: Folder> FileShelf<'a, R, F> {
    /// The files of this folder. None has been asked for yet.
    pub fn over(rt: &'a R, folder: F) -> Self
        ensures is { result ≡ record { folder = folder; faults = 0; read = 0 } }
    {
        FileShelf {
            rt,
            folder,
            faults: 0,
            read: 0,
        }
    }
}

impl<'a, R: Eprint, F: Folder> Shelf for FileShelf<'a, R, F> {
    ghost use Rattle.system_files.specs.Shelves.{shelf_of};

    ghost state = { shelf_of F.file };

    fn read_file(&mut self, alloc: Global, name: &str, limit: u32) -> Result<Vec<u8>, ShelfFault> {
        match read_up_to(&self.folder, alloc, name, limit) {
            Ok(bytes) => {
                self.read = self.read.saturating_add(bytes.len() as u64);
                if bytes.len() > limit as usize {
                    Err(ShelfFault::TooLong)
                } else {
                    Ok(bytes)
                }
            }
            Err(e) if e.kind() == io::ErrorKind::OutOfMemory => Err(ShelfFault::Memory),
            Err(cause) => {
                report_cause(self.rt, name, &cause);
                self.faults = self.faults.saturating_add(1);
                Err(ShelfFault::Failed)
            }
        }
    }
}

// The bytes of the file of this name, up to one more than the limit.
fn read_up_to<F: Folder>(folder: &F, alloc: Global, name: &str, limit: u32) -> io::Result<Vec<u8>>
    ensures bytes { IfOk result (λ v. IfSome (F.file folder.now name.now)
        (λ bytes. v.items ≡ take (limit + 1) bytes)) }
{
    let file = folder.open(name)?;
    read_front(file, alloc, limit)
}

// The bytes that a reader gives, up to one more than the limit.
fn read_front<F: Read + Drop>(file: F, alloc: Global, limit: u32) -> io::Result<Vec<u8>>
    ensures bytes { IfOk result
        (λ v. IfSome (F.remaining file) (λ left. v.items ≡ take (limit + 1) left)) }
{
    let mut bytes = Vec::new(alloc);
    file.take(u64::from(limit) + 1).read_to_end(&mut bytes)?;
    Ok(bytes)
}
