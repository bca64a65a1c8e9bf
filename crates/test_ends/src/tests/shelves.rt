// Files in memory, and those of the system.
use apron_base::{Listed, MapShelf, Memory, Shelf, ShelfFault, ShelfFile, SteadyShelf, Word};
use std::alloc::Global;
use std::io::ErrorKind;
use std::test::Fail;
use std::{fs, io};
use system_files::{FileShelf, Folder};

// One file, of three bytes.
fn one_file(alloc: Global) -> Result<Vec<ShelfFile>, Memory> {
    let kept = ShelfFile {
        name: Word::new(alloc, "a")?,
        bytes: Listed::from_vec(Vec::from_slice(alloc, b"abc")?),
    };
    let mut files = Vec::new(alloc);
    files.push(kept)?;
    Ok(files)
}

// The length of a file as it is read.
fn length<S: Shelf>(
    alloc: Global,
    shelf: &mut S,
    name: &str,
    limit: u32,
) -> Result<usize, ShelfFault> {
    match shelf.read_file(alloc, name, limit) {
        Ok(bytes) => Ok(bytes.len()),
        Err(fault) => Err(fault),
    }
}

// A file's name, the most bytes that are asked for, and how many it has.
type ShelfRead = (&'static str, u32, Result<usize, ShelfFault>);

const TOLD: [ShelfRead; 4] = [
    ("a", 3, Ok(3)),
    ("a", 3, Err(ShelfFault::Failed)),
    ("a", 2, Err(ShelfFault::TooLong)),
    ("b", 2, Err(ShelfFault::Failed)),
];

#[test]
fn a_shelf_fails_as_told(rt: HostRuntime) -> Result<(), Fail> {
    let alloc = rt.alloc();
    let mut shelf = MapShelf::new(one_file(alloc)?, Vec::from_slice(alloc, &[1])?);
    for (name, limit, want) in TOLD {
        assert_eq!(rt; length(alloc, &mut shelf, name, limit), want);
    }
    Ok(())
}

const STEADY: [ShelfRead; 3] = [
    ("a", 3, Ok(3)),
    ("a", 2, Err(ShelfFault::TooLong)),
    ("b", 0, Ok(0)),
];

#[test]
fn a_steady_shelf_has_an_empty_file_under_each_other_name(rt: HostRuntime) -> Result<(), Fail> {
    let alloc = rt.alloc();
    let mut shelf = SteadyShelf::new(one_file(alloc)?);
    for (name, limit, want) in STEADY {
        assert_eq!(rt; length(alloc, &mut shelf, name, limit), want);
    }
    Ok(())
}

const SYSTEM: [ShelfRead; 5] = [
    ("five", 5, Ok(5)),
    ("five", 4, Err(ShelfFault::TooLong)),
    ("none", 5, Err(ShelfFault::Failed)),
    (".", 5, Err(ShelfFault::Failed)),
    ("five", 6, Ok(5)),
];

// A folder with one file, whose bytes it tells.
#[derive(Clone, Copy)]
struct OneFile<'a> {
    name: &'a str,
    bytes: &'a [u8],
}

impl<'a> Folder for OneFile<'a> {
    ghost use Rattle.test_ends.specs.Files.{bytes_if};

    type File = &'a [u8];

    ghost file = { λ f. bytes_if f.name.now f.bytes.now };

    fn open(&self, name: &str) -> io::Result<&'a [u8]> {
        if name == self.name {
            Ok(self.bytes)
        } else {
            Err(io::Error::from(ErrorKind::NotFound))
        }
    }
}

const FIVE: OneFile<'static> = OneFile {
    name: "five",
    bytes: b"abcde",
};

#[test]
fn files_are_read_up_to_their_limit(rt: HostRuntime) -> Result<(), Fail> {
    fs::write(&rt, FIVE.name, FIVE.bytes)?;
    let mut system = FileShelf::new(&rt);
    let mut memory = FileShelf::over(&rt, FIVE);
    for (name, limit, want) in SYSTEM {
        assert_eq!(rt; length(rt.alloc(), &mut system, name, limit), want);
        assert_eq!(rt; length(rt.alloc(), &mut memory, name, limit), want);
    }
    fs::remove_file(&rt, FIVE.name)?;
    Ok(())
}
