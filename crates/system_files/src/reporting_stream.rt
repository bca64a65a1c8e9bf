// Standard streams.
ghost use Rattle.std.specs.Prelude.{◌≡◌};

use crate::causes::LastCause;
use std::io;
use std::io::{Read, Write};
use std::marker::Model;

/// A stream that says on standard error why a read, a write or a flush failed: each cause once
/// until such a call succeeds. In all else it is the stream. Contracts see the stream.
#[derive(Drop)]
pub struct ReportingStream<'a, R, S> {
    rt: &'a R,
    name: &'a str,
    inner: S,
    reads: LastCause,
    writes: LastCause,
    flushes: LastCause,
}

impl<'a, R, S> Model for ReportingStream<'a, R, S> {
    ghost Value = { S };

    ghost view = { λ s. s.inner };
}

impl<'a, R: Eprint, S> ReportingStream<'a, R, S> {
    /// The stream, of which nothing was reported yet. Lines about it have this name.
    pub fn new(rt: &'a R, name: &'a str, inner: S) -> Self
        ensures is { result ≡ inner }
    {
        ReportingStream {
            rt,
            name,
            inner,
            reads: LastCause::NONE,
            writes: LastCause::NONE,
            flushes: LastCause::NONE,
        }
    }
}

impl<'a, R: Eprint, S: Read> Read for ReportingStream<'a, R, S> {
    ghost remaining = { S.remaining };

    fn read(&mut self, into: &mut [u8]) -> io::Result<usize> {
        let answer = self.inner.read(into);
        self.reads.hear(self.rt, self.name, &answer);
        answer
    }
}

impl<'a, R: Eprint, S: Write> Write for ReportingStream<'a, R, S> {
    ghost contents = { S.contents };

    fn write(&mut self, piece: &[u8]) -> io::Result<usize> {
        let answer = self.inner.write(piece);
        self.writes.hear(self.rt, self.name, &answer);
        answer
    }

    fn flush(&mut self) -> io::Result<()> {
        let answer = self.inner.flush();
        self.flushes.hear(self.rt, self.name, &answer);
        answer
    }
}
