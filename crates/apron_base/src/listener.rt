// Where connections come from.
ghost use Rattle.std.specs.Prelude.{◌<◌};
ghost use Rattle.apron_base.specs.Listener.{Accepts, Finishes, ListenerState};

use crate::{Failed, Outcome, Sink, Source};
use std::sync::Wait;

mod list_listener;

pub use list_listener::ListListener;

/// A connection that was finished, and how its session ended.
#[derive(Debug, Drop)]
pub struct Finished<I, O> {
    pub source: I,
    pub sink: O,
    pub outcome: Outcome,
}

/// Where connections come from.
pub trait Listener {
    /// What a connection sends.
    type In: Source;

    /// What a connection is sent.
    type Out: Sink;

    /// The connections to come and the finished ones, if it exposes them; how many were accepted
    /// and how many were finished; and how often a call has failed: a count that never falls, and
    /// stops at `2^64 - 1`.
    ghost state: { Self → ListenerState Self.In Self.Out };

    /// Accepts the first connection to come. If there is none it waits, or fails. At `Err` none was
    /// accepted, and the count of faults rose; otherwise the count stays.
    fn accept<R: Wait>(&mut self, rt: &R) -> Result<(Self::In, Self::Out), Failed>
        ensures accepts { Accepts (state self.old) (state self.new) result };

    /// Puts a connection last among the finished ones. It takes no memory.
    fn finish(&mut self, input: Self::In, output: Self::Out, outcome: Outcome)
        requires accepted { (state self.old).ended < (state self.old).accepted }
        ensures finishes { Finishes (state self.old) (state self.new)
            (record { source = input; sink = output; outcome = outcome }) };
}
