// Two workers that run beside each other, on a disk that counts its syncs.

use super::{AT_0, AT_1, AT_2, DONE, VERSION, is_at, journal, served, shelf};
use apron_base::{Failed, ListListener, ListSink, ListSource, Memory, Sink, Source};
use journal_disk::Disk;
use std::alloc::Global;
use std::marker::Model;
use std::sync::Wait;
use std::sync::atomic::{AtomicBool, AtomicU64, Ordering};
use std::test::Fail;
use std::thread;
use std::thread::Threads;
use test_support::{FIRST, STANDS};

/// How often a source checks whether the other connection has a reply, and how often it lets other
/// threads run between two checks.
const LOOKS: u32 = 10_000;

const YIELDS: u32 = 1_000;

/// What the sources, the sinks and the disk of a test share.
#[derive(Drop)]
struct Signals {
    /// whether the second connection was sent a reply
    is_replied: AtomicBool,
    /// how many syncs of the disk were done
    syncs: AtomicU64,
}

/// What a connection sends: one text, and another only after the second connection was sent a
/// reply.
#[derive(Drop)]
struct Patient<'t> {
    signals: &'t Signals,
    first: ListSource,
    second: ListSource,
    faults: u64,
}

impl<'t> Model for Patient<'t> {
    ghost use Rattle.std.specs.Prelude.{None};
    ghost use Rattle.apron_base.specs.Ends.{SourceState};

    ghost Value = { SourceState };

    ghost view = { λ s. record { left = None; faults = s.faults } };
}

impl<'t> Patient<'t> {
    // Whether the second connection was sent a reply, which may take a while.
    fn is_replied(&self) -> bool {
        for _ in 0..LOOKS {
            if self.signals.is_replied.load(Ordering::SeqCst) {
                return true;
            }
            let_others_run();
        }
        false
    }
}

impl<'t> Source for Patient<'t> {
    ghost state = { λ s. s };

    fn read(&mut self, into: &mut [u8]) -> Result<usize, Failed> {
        if let Ok(count) = self.first.read(into) {
            if count > 0 {
                return Ok(count);
            }
        }
        if self.is_replied() {
            if let Ok(count) = self.second.read(into) {
                return Ok(count);
            }
        }
        self.faults = self.faults.saturating_add(1);
        Err(Failed)
    }
}

fn let_others_run() {
    for _ in 0..YIELDS {
        thread::yield_now();
    }
}

/// What a connection is sent. It records that the second connection was sent a reply. At each piece
/// it checks that the disk was synced often enough for each entry of the version that was last
/// shown to be kept.
#[derive(Drop)]
struct Watching<'t> {
    signals: &'t Signals,
    is_second: bool,
    is_late: bool,
    sink: ListSink,
}

impl<'t> Model for Watching<'t> {
    ghost use Rattle.apron_base.specs.Ends.{SinkState};
    ghost use Rattle.apron_base.specs.ListEnds.{sink_state};

    ghost Value = { SinkState };

    ghost view = { λ s. sink_state s.sink };
}

impl<'t> Sink for Watching<'t> {
    ghost state = { λ s. s };

    fn put(&mut self, piece: &[u8]) -> Result<(), Failed> {
        self.sink.put(piece)?;
        let syncs = self.signals.syncs.load(Ordering::SeqCst);
        self.is_late |= version_of(self.sink.bytes()).is_some_and(|version| syncs
            < fewest_syncs(version));
        if self.is_second {
            self.signals.is_replied.store(true, Ordering::SeqCst);
        }
        Ok(())
    }
}

// How many syncs there were at least before this version is shown: one for the opening, and two for
// each entry.
fn fewest_syncs(version: u64) -> u64 {
    version.saturating_mul(2).saturating_add(1)
}

// The version that the last of these replies shows, of one digit.
fn version_of(replies: &[u8]) -> Option<u64> {
    let name = b"X-Version: ".as_slice();
    let at = replies.windows(name.len()).rposition(|part| part == name)?;
    let digit = *replies.get(at + name.len())?;
    if digit.is_ascii_digit() {
        Some(u64::from(digit - b'0'))
    } else {
        None
    }
}

/// A disk whose syncs are counted.
#[derive(Drop)]
struct Counting<'t, D> {
    disk: D,
    signals: &'t Signals,
}

impl<'t, D: Disk> Disk for Counting<'t, D> {
    ghost state = { λ s. D.state s.disk };

    ghost reads = { λ s. D.reads s.disk };

    fn length(&mut self) -> Result<u32, Failed> {
        self.disk.length()
    }

    fn read(&mut self, at: u32, into: &mut [u8]) -> Result<(), Failed> {
        self.disk.read(at, into)
    }

    fn write_at(&mut self, at: u32, piece: &[u8]) -> Result<(), Failed> {
        self.disk.write_at(at, piece)
    }

    fn sync(&mut self) -> Result<(), Failed> {
        self.disk.sync()?;
        self.signals.syncs.fetch_add(1, Ordering::SeqCst);
        Ok(())
    }
}

// A listener of one connection, which sends the first text, and the second only after the second
// connection was sent a reply.
fn listener<'t>(
    alloc: Global,
    signals: &'t Signals,
    texts: (&[u8], &[u8]),
    is_second: bool,
) -> Result<ListListener<Patient<'t>, Watching<'t>>, Memory> {
    let source = Patient {
        signals,
        first: ListSource::new(texts.0.to_vec(alloc)?, Vec::new(alloc), Vec::new(alloc)),
        second: ListSource::new(texts.1.to_vec(alloc)?, Vec::new(alloc), Vec::new(alloc)),
        faults: 0,
    };
    let sink = Watching {
        signals,
        is_second,
        is_late: false,
        sink: ListSink::new(alloc, 10_000, Vec::new(alloc))?,
    };
    let to_come = Vec::from_array(alloc, [(source, sink)])?;
    Ok(ListListener::new(alloc, to_come, Vec::new(alloc))?)
}

// Whether the one connection of a listener was sent one of these texts, and no reply before its
// entries were kept.
fn is_told(listener: &ListListener<Patient<'_>, Watching<'_>>, texts: &[&[u8]]) -> bool {
    match listener.finished() {
        [only] => texts.contains(&only.sink.sink.bytes()) && !only.sink.is_late,
        _ => false,
    }
}

// Whether the first connection, which waits for the second one's reply, and the second one got all
// their replies, each after its entries were kept.
fn are_told(listeners: &[ListListener<Patient<'_>, Watching<'_>>]) -> bool {
    match listeners {
        [one, two] => is_told(one, &[STANDS]) && is_told(two, &[AT_0, AT_1, AT_2]),
        _ => false,
    }
}

// Whether both connections get these replies, and the journal has both entries.
fn both_are_served<R: Wait + Threads + Sync>(
    rt: &R,
    alloc: Global,
    signals: &Signals,
) -> Result<bool, Memory> {
    let mut shelf = shelf(alloc, &[])?;
    let disk = journal(alloc)?;
    let two = [
        listener(alloc, signals, FIRST.split_at(123), false)?,
        listener(alloc, signals, (VERSION, b""), true)?,
    ];
    let mut listeners = Vec::from_array(alloc, two)?;
    let (is_done, mut disk) = served(
        rt,
        alloc,
        "serve A T 1",
        &mut shelf,
        listeners.as_mut_slice(),
        Counting { disk, signals },
        DONE,
    )?;
    let is = is_done && are_told(listeners.as_slice());
    Ok(is && is_at(alloc, &mut disk, AT_2)?)
}

#[test]
fn a_desk_is_served_while_another_one_is(rt: HostRuntime) -> Result<(), Fail> {
    let signals = Signals {
        is_replied: AtomicBool::new(false),
        syncs: AtomicU64::new(0),
    };
    let is = both_are_served(&rt, rt.alloc(), &signals)?;
    assert!(rt; is);
    Ok(())
}
