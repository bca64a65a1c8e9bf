// The two ends of a connection, on which a peer that does nothing ends reads and writes.

use crate::limits::{TimeLimits, seconds};
use std::io;
use std::io::{ErrorKind, Read, Write};
use std::net::TcpStream;
use std::time::{Clock, Instant};

/// What a peer sends. A read fails if no byte comes for as long as the limits allow, or if a
/// request takes longer than they allow. The socket's own limit is that between requests until
/// bytes come, and that within a request until a reply is sent.
#[derive(Drop)]
pub struct TimedReader<'a, C> {
    stream: TcpStream,
    clock: &'a C,
    limits: TimeLimits,
    // when the first bytes of the request came that is being read
    begun: Option<Instant>,
}

impl<'a, C: Clock> TimedReader<'a, C> {
    /// The reading end of a new connection.
    pub(crate) fn new(stream: TcpStream, clock: &'a C, limits: TimeLimits) -> Self {
        set_idle(&stream, limits);
        TimedReader {
            stream,
            clock,
            limits,
            begun: None,
        }
    }

    // Whether a reply was sent, or nothing has come yet, since the last bytes came.
    fn is_between_requests(&self) -> io::Result<bool> {
        Ok(match self.stream.read_timeout()? {
            Some(limit) => limit > seconds(self.limits.stall),
            None => true,
        })
    }

    // Limits the next read by what is left of a request's time. `Err` if nothing is left.
    fn limit_request(&self, begun: Instant) -> io::Result<()> {
        let left = seconds(self.limits.request).saturating_sub(begun.elapsed(self.clock)?);
        if left.is_zero() {
            return Err(io::Error::from(ErrorKind::TimedOut));
        }
        self.stream
            .set_read_timeout(Some(left.min(seconds(self.limits.stall))))
    }
}

impl<C: Clock> Read for TimedReader<'_, C> {
    fn read(&mut self, into: &mut [u8]) -> io::Result<usize> {
        if self.is_between_requests()? {
            self.begun = None;
        }
        if let Some(begun) = self.begun {
            self.limit_request(begun)?;
        }
        let count = self.stream.read(into)?;
        if count > 0 && self.begun.is_none() {
            self.begun = Some(Instant::now(self.clock)?);
            self.stream
                .set_read_timeout(Some(seconds(self.limits.stall)))?;
        }
        Ok(count)
    }
}

/// What a peer is sent. A write fails if no byte of it is taken for as long as the limits allow.
/// Each flush, which comes after a reply, has reads wait again as they do between requests.
#[derive(Drop)]
pub struct TimedWriter {
    stream: TcpStream,
    limits: TimeLimits,
}

impl TimedWriter {
    /// The writing end of a new connection.
    pub(crate) fn new(stream: TcpStream, limits: TimeLimits) -> Self {
        // If this fails, a peer may take as long over a reply as it likes, which is no fault.
        let _limited = stream.set_write_timeout(Some(seconds(limits.reply)));
        TimedWriter { stream, limits }
    }
}

impl Write for TimedWriter {
    fn write(&mut self, piece: &[u8]) -> io::Result<usize> {
        self.stream.write(piece)
    }

    fn flush(&mut self) -> io::Result<()> {
        set_idle(&self.stream, self.limits);
        Ok(())
    }
}

// Has the next read wait as long as between requests. If this fails the limit stays as it is, which
// is no fault.
fn set_idle(stream: &TcpStream, limits: TimeLimits) {
    let _limited = stream.set_read_timeout(Some(seconds(limits.idle)));
}
