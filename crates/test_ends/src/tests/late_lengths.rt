// Journals on a disk that tells its length late, as a replicated file system may.
ghost use Rattle.apron_base.specs.Counts.{Counts};
ghost use Rattle.std.specs.Prelude.{true};

use apron_base::{Failed, Listed};
use journal_disk::{Disk, Found, Journal, JournalFault, open_old};
use std::alloc::Global;
use std::test::Fail;

const DIGESTS: [u8; 64] = [7; 64];

// A disk whose next lengths may be too short. It takes only writes of what is there.
#[derive(Drop)]
struct LateDisk {
    bytes: Vec<u8>,
    short: u32,
    // how many of the next lengths are the short one
    late: u32,
    faults: u64,
}

impl LateDisk {
    // A disk with a header of this format, and these bytes after it.
    fn new(
        alloc: Global,
        format: u8,
        others: &[u8],
        short: u32,
        late: u32,
    ) -> Result<LateDisk, JournalFault> {
        let mut bytes = Vec::from_slice(alloc, b"APRNJ")?;
        bytes.push(format)?;
        bytes.extend_from_slice(b"\r\n")?;
        bytes.extend_from_slice(&DIGESTS)?;
        bytes.extend_from_slice(others)?;
        Ok(LateDisk {
            bytes,
            short,
            late,
            faults: 0,
        })
    }

    // Counts a fault.
    fn fail(&mut self) -> Failed
        ensures counted { Counts true self.old.faults self.new.faults }
    {
        self.faults = self.faults.saturating_add(1);
        Failed
    }
}

impl Disk for LateDisk {
    ghost use Rattle.journal_disk.specs.Disk.{untold_disk};

    ghost state = { λ d. untold_disk d.faults };

    ghost reads = { λ _ _ _. tt };

    fn length(&mut self) -> Result<u32, Failed> {
        if self.late > 0 {
            self.late -= 1;
            return Ok(self.short);
        }
        match u32::try_from(self.bytes.len()) {
            Ok(length) => Ok(length),
            Err(_) => Err(self.fail()),
        }
    }

    fn read(&mut self, at: u32, into: &mut [u8]) -> Result<(), Failed> {
        if copy_from(&self.bytes, at as usize, into) {
            Ok(())
        } else {
            Err(self.fail())
        }
    }

    fn write_at(&mut self, at: u32, piece: &[u8]) -> Result<(), Failed> {
        if has_piece(&self.bytes, at as usize, piece) {
            Ok(())
        } else {
            Err(self.fail())
        }
    }

    fn sync(&mut self) -> Result<(), Failed> {
        Ok(())
    }
}

// Copies the bytes from `at` on, if there are enough.
fn copy_from(bytes: &[u8], at: usize, into: &mut [u8]) -> bool {
    match bytes.get(at..) {
        Some(behind) if behind.len() >= into.len() => {
            into.copy_from_slice(&behind[..into.len()]);
            true
        }
        _ => false,
    }
}

// The piece is there already.
fn has_piece(bytes: &[u8], at: usize, piece: &[u8]) -> bool {
    bytes
        .get(at..)
        .is_some_and(|behind| behind.starts_with(piece))
}

// No old entry, and three new ones.
const NEW: &[u8] = b"\0\x01\x01\0x\x01\x02\0yz\x01\x01\0w\0";

// Three old entries, and no new section.
const OLD: &[u8] = b"\x01\x01\0x\x01\x02\0yz\x01\x01\0w\0";

// How many entries are found by an opening to read, by one to append, and in format 1.
type Opened = [Result<usize, JournalFault>; 3];

fn opened(alloc: Global, short: u32, late: u32) -> Result<Opened, JournalFault> {
    let to_read = LateDisk::new(alloc, b'2', NEW, short, late)?;
    let to_append = LateDisk::new(alloc, b'2', NEW, short, late)?;
    let old = LateDisk::new(alloc, b'1', OLD, short.saturating_sub(1), late)?;
    Ok([
        count_of(Journal::open(alloc, to_read, &DIGESTS)),
        count_of(Journal::open_to_append(alloc, to_append, &DIGESTS)),
        old_count_of(open_old(alloc, old, &DIGESTS)),
    ])
}

fn count_of(
    opened: Result<(Journal<LateDisk>, Vec<Listed<u8>>), (JournalFault, LateDisk)>,
) -> Result<usize, JournalFault> {
    match opened {
        Ok((_, entries)) => Ok(entries.len()),
        Err((fault, _)) => Err(fault),
    }
}

fn old_count_of(
    opened: Result<Found<LateDisk>, (JournalFault, LateDisk)>,
) -> Result<usize, JournalFault> {
    match opened {
        Ok(Found::Old(old)) => Ok(old.entries().len()),
        Ok(Found::New(_)) => Ok(0),
        Err((fault, _)) => Err(fault),
    }
}

// A length that is too short, and the number of the record that is cut there.
const CUTS: [(u32, u32); 6] = [(74, 1), (77, 1), (78, 2), (82, 2), (83, 3), (86, 3)];

#[test]
fn a_length_that_is_told_late_is_no_damage(rt: HostRuntime) -> Result<(), Fail> {
    for (short, number) in CUTS {
        let late = opened(rt.alloc(), short, 1)?;
        assert_eq!(rt; late, [Ok(3); 3], "{short}");
        let cut = opened(rt.alloc(), short, 9)?;
        assert_eq!(rt; cut, [Err(JournalFault::BadRecord(number)); 3], "{short}");
    }
    Ok(())
}
