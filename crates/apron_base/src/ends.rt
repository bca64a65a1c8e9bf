// Where bytes come from, and where they go.
ghost use Rattle.std.specs.Prelude.{◌<◌, length};
ghost use Rattle.std.specs.Io.{ReadsAtMost};
ghost use Rattle.apron_base.specs.Ends.{Puts, Reads, SinkState, SourceState};

use crate::Failed;

mod adapters;
mod list_ends;

pub use adapters::{ReaderSource, WriterSink};
pub use list_ends::{ListSink, ListSource, NullSink, SteadySource};

/// Where bytes come from.
pub trait Source {
    /// What is left, if it exposes that, and how often it has failed: a count that never falls, and
    /// stops at `2^64 - 1`.
    ghost state: { Self → SourceState };

    /// Takes at least one byte, and puts what it took at the front of `into`, which must not be
    /// empty. It gives the number of bytes that it took; 0 is the end of input. At `Err` nothing
    /// was taken, and the count of faults rose; otherwise the count stays.
    fn read(&mut self, into: &mut [u8]) -> Result<usize, Failed>
        requires room { 0 < length into.old }
        ensures bound { ReadsAtMost result into.new }
        ensures reads { Reads (state self.old) (state self.new) result into.new };
}

/// Where bytes go.
pub trait Sink {
    /// What was written, if it exposes that, and how often it has failed: a count that never falls,
    /// and stops at `2^64 - 1`.
    ghost state: { Self → SinkState };

    /// Writes the whole piece. At `Err` only a front of it was written, and the count of faults
    /// rose; otherwise the count stays.
    fn put(&mut self, piece: &[u8]) -> Result<(), Failed>
        ensures puts { Puts (state self.old) (state self.new) result piece.now };
}
