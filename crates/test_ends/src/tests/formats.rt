// What bytes are as a journal of format 2, and as one of format 1.
use apron_base::Memory;
use journal_disk::{Found, Journal, JournalFault, MemoryDisk, Room, open_old};
use std::alloc::Global;
use std::test::Fail;

const DIGESTS: [u8; 64] = [7; 64];

const OTHERS: [u8; 64] = [8; 64];

const ROOM: Room = Room {
    bytes: 1_000,
    written: 0,
    calls: 100,
};

// A disk with a header of this format, and these bytes after it. It takes no write.
fn disk_of(alloc: Global, format: u8, others: &[u8]) -> Result<MemoryDisk, Memory> {
    let mut bytes = Vec::from_slice(alloc, b"APRNJ")?;
    bytes.push(format)?;
    bytes.extend_from_slice(b"\r\n")?;
    bytes.extend_from_slice(&DIGESTS)?;
    bytes.extend_from_slice(others)?;
    MemoryDisk::new(alloc, bytes, ROOM, Vec::new(alloc))
}

// How many entries a disk has as a journal of format 2, or why it is not one.
fn opened(alloc: Global, disk: MemoryDisk) -> Result<usize, JournalFault> {
    match Journal::open(alloc, disk, &DIGESTS) {
        Ok((_, entries)) => Ok(entries.len()),
        Err((fault, _)) => Err(fault),
    }
}

// How many entries a disk has as a journal of format 1, `None` if it is of format 2; or why it is
// neither.
fn found(
    alloc: Global,
    disk: MemoryDisk,
    digests: &[u8; 64],
) -> Result<Option<usize>, JournalFault> {
    match open_old(alloc, disk, digests) {
        Ok(Found::New(_)) => Ok(None),
        Ok(Found::Old(old)) => Ok(Some(old.entries().len())),
        Err((fault, _)) => Err(fault),
    }
}

// The format byte, the bytes after the header, and what they are as a journal of each format.
type Form = (
    u8,
    &'static [u8],
    Result<usize, JournalFault>,
    Result<Option<usize>, JournalFault>,
);

const FORMS: [Form; 16] = [
    (
        b'2',
        b"",
        Err(JournalFault::NotAJournal),
        Err(JournalFault::NotAJournal),
    ),
    (
        b'1',
        b"",
        Err(JournalFault::NotAJournal),
        Err(JournalFault::NotAJournal),
    ),
    (b'1', b"\0", Err(JournalFault::OldFormat), Ok(Some(0))),
    (b'3', b"\0", Err(JournalFault::OldFormat), Ok(Some(0))),
    (
        b'1',
        b"\x01\x01\0x\0",
        Err(JournalFault::OldFormat),
        Ok(Some(1)),
    ),
    (
        b'1',
        b"\x01\x01\0x",
        Err(JournalFault::OldFormat),
        Err(JournalFault::BadRecord(1)),
    ),
    (b'2', b"\0", Err(JournalFault::BadRecord(1)), Ok(None)),
    (b'2', b"\x02", Err(JournalFault::BadRecord(1)), Ok(None)),
    (b'2', b"\0\0", Ok(0), Ok(None)),
    (b'2', b"\x01\x01\0x\0\0", Ok(0), Ok(None)),
    (
        b'2',
        b"\x01\x01\0x\0",
        Err(JournalFault::BadRecord(1)),
        Ok(None),
    ),
    (
        b'2',
        b"\x01\x01\0x",
        Err(JournalFault::BadRecord(0)),
        Ok(None),
    ),
    (
        b'2',
        b"\x01\0\0\0\0\0",
        Err(JournalFault::BadRecord(0)),
        Ok(None),
    ),
    (b'2', b"\x01\x01\0x\0\x01\x01\0y\0", Ok(1), Ok(None)),
    (
        b'2',
        b"\x01\x01\0x\x09\x01\x01\0y\x01\x01\0z\x08",
        Ok(2),
        Ok(None),
    ),
    (
        b'2',
        b"\0\x01\x01\0y\x01\x02\0z\0",
        Err(JournalFault::BadRecord(2)),
        Ok(None),
    ),
];

#[test]
fn each_form_of_bytes(rt: HostRuntime) -> Result<(), Fail> {
    for (format, others, new, old) in FORMS {
        let opens = opened(rt.alloc(), disk_of(rt.alloc(), format, others)?);
        assert_eq!(rt; opens, new, "{format} {others:?}");
        let looks = found(rt.alloc(), disk_of(rt.alloc(), format, others)?, &DIGESTS);
        assert_eq!(rt; looks, old, "{format} {others:?}");
    }
    Ok(())
}

#[test]
fn another_airport_comes_before_the_format(rt: HostRuntime) -> Result<(), Fail> {
    let other = JournalFault::OtherAirport {
        kept: DIGESTS,
        given: OTHERS,
    };
    for format in [b'1', b'2'] {
        let disk = disk_of(rt.alloc(), format, b"\0\0")?;
        assert_eq!(rt; found(rt.alloc(), disk, &OTHERS), Err(other), "{format}");
    }
    Ok(())
}
