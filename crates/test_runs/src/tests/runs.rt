// The program on texts in memory.
use apron_base::{ListSink, ListSource, MapShelf, Memory, ShelfFile};
use apron_run::run;
use journal_disk::{MemoryDisk, digest_of};
use std::alloc::Global;
use std::fmt::Debug;
use std::test::Fail;
use test_support::{AIRPORT, ROOM, TYPES, shelf_file, words};

/// What the program is run on.
#[derive(Clone, Copy)]
pub(super) struct Run<'a> {
    /// The words, with spaces between.
    pub(super) words: &'a str,
    /// The text of the file `A`.
    pub(super) airport: &'a str,
    /// The text of the file `T`.
    pub(super) types: &'a str,
    /// The bytes of the file `S`.
    pub(super) season: &'a [u8],
    /// The bytes that the source has.
    pub(super) input: &'a [u8],
    /// How many bytes of them the source gives at a time; after the last of these it gives the rest
    /// at once.
    pub(super) pieces: &'a [usize],
    /// The numbers of the calls of the shelf that fail, from 0.
    pub(super) failing_files: &'a [u64],
    /// The numbers of the reads that fail.
    pub(super) failing_reads: &'a [u64],
    /// The numbers of the writes of output that fail.
    pub(super) failing_puts: &'a [u64],
    /// Whether the disk has a journal of the two files with no entry; otherwise it has the stored
    /// bytes.
    pub(super) is_new: bool,
    /// What the disk has if it is not new.
    pub(super) stored: &'a [u8],
    /// The numbers of the calls of the disk that fail.
    pub(super) failing_calls: &'a [u64],
}

/// A session at the example airport, on an empty journal, whose input is empty.
pub(super) const DEMO: Run = Run {
    words: "desk A T",
    airport: AIRPORT,
    types: TYPES,
    season: &[],
    input: &[],
    pieces: &[],
    failing_files: &[],
    failing_reads: &[],
    failing_puts: &[],
    is_new: true,
    stored: &[],
    failing_calls: &[],
};

/// What became of a run.
#[derive(Drop)]
pub(super) struct Ended {
    /// The bytes that it wrote.
    pub(super) output: Vec<u8>,
    /// Its status.
    pub(super) status: u8,
    /// Its disk.
    pub(super) disk: MemoryDisk,
}

impl Ended {
    /// Whether it wrote this, and ended with this status.
    pub(super) fn is(&self, output: &[u8], status: u8) -> bool {
        self.status == status && self.output.as_slice() == output
    }

    fn told(&self, shows: &impl Debug) -> Fail {
        let wrote = str::from_utf8(self.output.as_slice());
        let ends_with = self.status;
        Fail::new(format_args!("{shows:?}: it ends with {ends_with}, and writes {wrote:?}"))
    }
}

impl Run<'_> {
    /// Runs the program. `Err` if it wrote another output or ended with another status, with what
    /// it shows, or if there is no memory.
    pub(super) fn gives(
        &self,
        alloc: Global,
        shows: &impl Debug,
        output: &[u8],
        status: u8,
    ) -> Result<(), Fail> {
        let ended = self.ends(alloc)?;
        if ended.is(output, status) {
            Ok(())
        } else {
            Err(ended.told(shows))
        }
    }

    /// Runs the program. `Err` if there is no memory.
    pub(super) fn ends(&self, alloc: Global) -> Result<Ended, Memory> {
        let words = words(alloc, self.words)?;
        let mut shelf = self.shelf(alloc)?;
        let mut source = self.source(alloc)?;
        let mut sink = ListSink::new(alloc, 200_000, self.failing_puts.to_vec(alloc)?)?;
        let mut disk = self.disk(alloc)?;
        let words = words.as_slice();
        let status = run(alloc, words, &mut shelf, &mut source, &mut sink, &mut disk);
        Ok(Ended {
            output: sink.bytes().to_vec(alloc)?,
            status,
            disk,
        })
    }

    fn shelf(&self, alloc: Global) -> Result<MapShelf, Memory> {
        let mut files = Vec::new(alloc);
        put_file(alloc, &mut files, "A", self.airport.as_bytes())?;
        put_file(alloc, &mut files, "T", self.types.as_bytes())?;
        put_file(alloc, &mut files, "S", self.season)?;
        Ok(MapShelf::new(files, self.failing_files.to_vec(alloc)?))
    }

    fn source(&self, alloc: Global) -> Result<ListSource, Memory> {
        Ok(ListSource::new(
            self.input.to_vec(alloc)?,
            self.pieces.to_vec(alloc)?,
            self.failing_reads.to_vec(alloc)?,
        ))
    }

    fn disk(&self, alloc: Global) -> Result<MemoryDisk, Memory> {
        let first = if self.is_new {
            journal(alloc, self, FORMAT_2, &[&[], &[]])?
        } else {
            self.stored.to_vec(alloc)?
        };
        MemoryDisk::new(alloc, first, ROOM, self.failing_calls.to_vec(alloc)?)
    }
}

fn put_file(
    alloc: Global,
    files: &mut Vec<ShelfFile>,
    name: &str,
    bytes: &[u8],
) -> Result<(), Memory> {
    files.push(shelf_file(alloc, name, bytes)?)?;
    Ok(())
}

// What a journal of each format begins with.
pub(super) const FORMAT_1: &[u8] = b"APRNJ1\r\n";

pub(super) const FORMAT_2: &[u8] = b"APRNJ2\r\n";

/// A journal of the two files of a run that begins so, with a part for each of these lists of
/// entries. `Err` if there is no memory.
pub(super) fn journal(
    alloc: Global,
    run: &Run,
    begins: &[u8],
    parts: &[&[&[u8]]],
) -> Result<Vec<u8>, Memory> {
    let mut journal = Vec::from_slice(alloc, begins)?;
    journal.extend_from_slice(&digest_of(run.airport.as_bytes()))?;
    journal.extend_from_slice(&digest_of(run.types.as_bytes()))?;
    for part in parts {
        put_records(&mut journal, part)?;
        journal.push(0)?;
    }
    Ok(journal)
}

/// Adds a record for each of these entries: an open gate, the length in two bytes, and the entry.
/// `Err` if there is no memory.
pub(super) fn put_records(journal: &mut Vec<u8>, entries: &[&[u8]]) -> Result<(), Memory> {
    for entry in entries {
        journal.push(1)?;
        journal.extend_from_slice(&(entry.len().min(1024) as u16).to_le_bytes())?;
        journal.extend_from_slice(entry)?;
    }
    Ok(())
}
