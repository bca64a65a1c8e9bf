// Thin adapters over readers and writers of std. They count each error.
ghost use Rattle.std.specs.Prelude.{◌≡◌, ◌<◌, ◌≤◌, IfOk, MatchOption, length, take};
ghost use Rattle.std.specs.Io.{ReadsAtMost};
ghost use Rattle.std.specs.Io.KnownBytes.{Appends, Keeps, ReadConsumes};

use crate::{Failed, Sink, Source};
use std::io;
use std::io::{ErrorKind, Read, Write};
use std::marker::Model;

/// How often a call that a signal interrupted is made again before it counts as a fault.
const MOST_RETRIES: u32 = 1_000;

/// Any reader as a source. It exposes what is left if the reader does, and counts each error. A
/// read that a signal interrupted is made again and is no error.
#[derive(Drop)]
pub struct ReaderSource<R> {
    inner: R,
    faults: u64,
}

impl<R> Model for ReaderSource<R> {
    ghost use Rattle.apron_base.specs.ListEnds.{Adapted};

    ghost Value = { Adapted R };

    ghost view = { λ s. record { inner = s.inner; faults = s.faults } };
}

impl<R> ReaderSource<R> {
    /// The reader. No read of it has failed yet.
    pub fn new(inner: R) -> Self
        ensures is { result ≡ record { inner = inner; faults = 0 } }
    {
        ReaderSource { inner, faults: 0 }
    }
}

impl<R: Read> Source for ReaderSource<R> {
    ghost state = { λ s. record { left = R.remaining s.inner; faults = s.faults } };

    fn read(&mut self, into: &mut [u8]) -> Result<usize, Failed> {
        match read_some(&mut self.inner, into) {
            Ok(count) => Ok(count),
            Err(_) => {
                self.faults = self.faults.saturating_add(1);
                Err(Failed)
            }
        }
    }
}

// Reads, and again if a signal interrupted it.
fn read_some<R: Read>(inner: &mut R, into: &mut [u8]) -> io::Result<usize>
    ensures bound { ReadsAtMost result into.new }
    ensures bytes { ReadConsumes (R.remaining inner.old) (R.remaining inner.new) result into.new }
{
    for _ in 0..MOST_RETRIES {
        match inner.read(into) {
            Err(error) if error.kind() == ErrorKind::Interrupted => {}
            read => return read,
        }
    }
    inner.read(into)
}

/// Any writer as a sink. It exposes what was written if the writer does, and counts each error. It
/// is also an error if a write takes nothing of a piece that isn't empty. Each piece is flushed. A
/// write or flush that a signal interrupted is made again and is no error.
#[derive(Drop)]
pub struct WriterSink<W> {
    inner: W,
    faults: u64,
}

impl<W> Model for WriterSink<W> {
    ghost use Rattle.apron_base.specs.ListEnds.{Adapted};

    ghost Value = { Adapted W };

    ghost view = { λ s. record { inner = s.inner; faults = s.faults } };
}

impl<W> WriterSink<W> {
    /// The writer. No write to it has failed yet.
    pub fn new(inner: W) -> Self
        ensures is { result ≡ record { inner = inner; faults = 0 } }
    {
        WriterSink { inner, faults: 0 }
    }
}

impl<W: Write> Sink for WriterSink<W> {
    ghost state = { λ s. record { told = W.contents s.inner; faults = s.faults } };

    fn put(&mut self, piece: &[u8]) -> Result<(), Failed> {
        let mut at = 0;
        while at < piece.len() {
            match write_some(&mut self.inner, &piece[at..]) {
                Some(count) => at += count,
                None => {
                    self.faults = self.faults.saturating_add(1);
                    return Err(Failed);
                }
            }
        }
        match flush(&mut self.inner) {
            Ok(()) => Ok(()),
            Err(_) => {
                self.faults = self.faults.saturating_add(1);
                Err(Failed)
            }
        }
    }
}

// Writes a front of the piece, and again if a signal interrupted it. It gives how many bytes, at
// least one; `None` if nothing was written.
fn write_some<W: Write>(inner: &mut W, piece: &[u8]) -> Option<usize>
    requires some { 0 < length piece.now }
    ensures bytes { MatchOption result (Keeps (W.contents inner.old) (W.contents inner.new))
        (λ n. (0 < n)
        × (n ≤ length piece.now)
        × Appends (W.contents inner.old) (W.contents inner.new) (take n piece.now)) }
{
    for _ in 0..MOST_RETRIES {
        match inner.write(piece) {
            Ok(0) => return None,
            Ok(count) => return Some(count),
            Err(error) if error.kind() == ErrorKind::Interrupted => {}
            Err(_) => return None,
        }
    }
    None
}

// Flushes, and again if a signal interrupted it.
fn flush<W: Write>(inner: &mut W) -> io::Result<()>
    ensures kept { Keeps (W.contents inner.old) (W.contents inner.new) }
{
    for _ in 0..MOST_RETRIES {
        match inner.flush() {
            Err(error) if error.kind() == ErrorKind::Interrupted => {}
            flushed => return flushed,
        }
    }
    inner.flush()
}
