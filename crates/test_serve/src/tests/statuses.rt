// How `serve` ends, and the line that it prints.
use super::{journal, listener, served, shelf};
use apron_base::Memory;
use journal_disk::MemoryDisk;
use std::alloc::Global;
use std::sync::Wait;
use std::test::Fail;
use std::thread::Threads;
use test_support::ROOM;

// The words and how many listeners there are, each with one connection; which calls of the shelf
// and of the disk fail, and whether the disk has a journal of the files; and the result.
#[derive(Clone, Copy)]
struct Row {
    words: &'static str,
    listeners: usize,
    failing_files: &'static [u64],
    failing_calls: &'static [u64],
    has_journal: bool,
    status: u8,
    line: &'static [u8],
}

const SERVED: Row = Row {
    words: "serve A T 1",
    listeners: 1,
    failing_files: &[],
    failing_calls: &[],
    has_journal: true,
    status: 0,
    line: b"",
};

const USAGE: Row = Row {
    status: 2,
    line: b"usage\n",
    ..SERVED
};

const ROWS: [Row; 18] = [
    SERVED,
    Row {
        listeners: 16,
        ..SERVED
    },
    Row {
        listeners: 0,
        ..USAGE
    },
    Row {
        listeners: 17,
        ..USAGE
    },
    Row { words: "", ..USAGE },
    Row {
        words: "serve A T",
        ..USAGE
    },
    Row {
        words: "desk A T 1",
        ..USAGE
    },
    Row {
        words: "serve A T 0",
        ..USAGE
    },
    Row {
        words: "serve A T 01",
        ..USAGE
    },
    Row {
        words: "serve A T +1",
        ..USAGE
    },
    Row {
        words: "serve A T 1000001",
        ..USAGE
    },
    Row {
        words: "serve T T 1",
        status: 3,
        line: b"airport file: not toml\n",
        ..SERVED
    },
    Row {
        words: "serve A A 1",
        status: 3,
        line: b"type file: record 1\n",
        ..SERVED
    },
    Row {
        failing_files: &[1],
        status: 4,
        line: b"shelf fault\n",
        ..SERVED
    },
    Row {
        failing_calls: &[0],
        status: 7,
        line: b"disk fault\n",
        ..SERVED
    },
    Row {
        has_journal: false,
        status: 8,
        line: b"journal: not a journal\n",
        ..SERVED
    },
    Row {
        words: "serve A T 2",
        status: 11,
        line: b"listener fault\n",
        ..SERVED
    },
    Row {
        words: "serve A T 1000000",
        listeners: 2,
        status: 11,
        line: b"listener fault\n",
        ..SERVED
    },
];

// The disk of a row.
fn disk(alloc: Global, row: &Row) -> Result<MemoryDisk, Memory> {
    let bytes = if row.has_journal {
        journal(alloc)?.bytes().to_vec(alloc)?
    } else {
        Vec::new(alloc)
    };
    MemoryDisk::new(alloc, bytes, ROOM, row.failing_calls.to_vec(alloc)?)
}

// Whether it ends as the row says.
fn ends<R: Wait + Threads + Sync>(rt: &R, alloc: Global, row: &Row) -> Result<bool, Memory> {
    let mut listeners = Vec::new(alloc);
    for _ in 0..row.listeners {
        listeners.push(listener(alloc, b"")?)?;
    }
    let mut shelf = shelf(alloc, row.failing_files)?;
    let (is, _disk) = served(
        rt,
        alloc,
        row.words,
        &mut shelf,
        listeners.as_mut_slice(),
        disk(alloc, row)?,
        (row.status, row.line),
    )?;
    Ok(is)
}

#[test]
fn each_status_has_its_line(rt: HostRuntime) -> Result<(), Fail> {
    for number in 0..ROWS.len() {
        let is = ends(&rt, rt.alloc(), &ROWS[number])?;
        assert!(rt; is, "row {number}");
    }
    Ok(())
}
