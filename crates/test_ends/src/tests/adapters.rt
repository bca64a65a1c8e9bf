// A reader as a source and a writer as a sink, some calls of which fail.
ghost use Rattle.std.specs.Prelude.{◌≤◌, IfOk};

use apron_base::{Failed, ReaderSource, Sink, Source, WriterSink};
use std::io;
use std::io::{ErrorKind, Read, Write};
use system_files::ReportingStream;

// Gives or takes at most two bytes at each call, five in all. Its second call and its fourth flush
// fail; a signal interrupts its third call and its second flush.
#[derive(Drop)]
struct Breaking {
    calls: u8,
    flushes: u8,
    moved: usize,
}

impl Breaking {
    fn next(&mut self, most: usize) -> io::Result<usize>
        ensures bound { IfOk result (λ n. n ≤ most) }
    {
        self.calls = self.calls.saturating_add(1);
        match self.calls {
            2 => return Err(io::Error::from(ErrorKind::Other)),
            3 => return Err(io::Error::from(ErrorKind::Interrupted)),
            _ => {}
        }
        let count = 5usize.saturating_sub(self.moved).min(most).min(2);
        self.moved = self.moved.saturating_add(count);
        Ok(count)
    }
}

impl Read for Breaking {
    fn read(&mut self, into: &mut [u8]) -> io::Result<usize> {
        let count = self.next(into.len())?;
        into[..count].fill(b'x');
        Ok(count)
    }
}

impl Write for Breaking {
    fn write(&mut self, piece: &[u8]) -> io::Result<usize> {
        self.next(piece.len())
    }

    fn flush(&mut self) -> io::Result<()> {
        self.flushes = self.flushes.saturating_add(1);
        match self.flushes {
            2 => Err(io::Error::from(ErrorKind::Interrupted)),
            4 => Err(io::Error::from(ErrorKind::Other)),
            _ => Ok(()),
        }
    }
}

const NEW: Breaking = Breaking {
    calls: 0,
    flushes: 0,
    moved: 0,
};

// What reads of up to four bytes give, one after the other.
const READS: [Result<usize, Failed>; 5] = [Ok(2), Err(Failed), Ok(2), Ok(1), Ok(0)];

// Whether the reads of a source give these.
fn gives<S: Source>(source: &mut S, reads: &[Result<usize, Failed>]) -> bool {
    let mut into = [0; 4];
    for want in reads {
        if source.read(&mut into) != *want {
            return false;
        }
    }
    true
}

#[test]
fn a_read_that_is_interrupted_is_made_again(rt: HostRuntime) {
    assert!(rt; gives(&mut ReaderSource::new(NEW), &READS));
}

#[test]
fn a_stream_whose_faults_are_said_reads_the_same(rt: HostRuntime) {
    let stream = ReportingStream::new(&rt, "a reader", NEW);
    assert!(rt; gives(&mut ReaderSource::new(stream), &READS));
}

// Pieces, one after the other, and whether each is put.
const PUTS: [(&str, bool); 5] = [
    ("abc", false),
    ("", true),
    ("de", true),
    ("", false),
    ("fg", false),
];

// Whether the puts of a sink do this.
fn takes<S: Sink>(sink: &mut S, puts: &[(&str, bool)]) -> bool {
    for (piece, is_put) in puts {
        if sink.put(piece.as_bytes()).is_ok() != *is_put {
            return false;
        }
    }
    true
}

#[test]
fn a_piece_that_is_not_taken_or_not_flushed_fails(rt: HostRuntime) {
    assert!(rt; takes(&mut WriterSink::new(NEW), &PUTS));
}

#[test]
fn a_stream_whose_faults_are_said_writes_the_same(rt: HostRuntime) {
    let stream = ReportingStream::new(&rt, "a writer", NEW);
    assert!(rt; takes(&mut WriterSink::new(stream), &PUTS));
}
