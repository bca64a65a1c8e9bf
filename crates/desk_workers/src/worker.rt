// A worker: it serves the connections of its listener one after the other.
ghost use Rattle.std.specs.Prelude.{◌≡◌};
ghost use Rattle.apron_base.specs.Counts.{Rose};
ghost use Rattle.desk_workers.specs.Feeds.{fed_kind};
ghost use Rattle.desk_workers.specs.Work.{HasSession, ServesNext, Works};

use apron_base::{Failed, Listener, Outcome, Sink, Source};
use apron_rules::AirportParts;
use desk_http::{FeedPort, session_fed};
use std::alloc::Global;
use std::sync::Wait;

/// How a worker ended.
#[derive(Clone, Copy, Debug, PartialEq, Eq)]
pub enum WorkEnd {
    /// All its connections were finished.
    Done,
    /// The listener failed.
    ListenerFault,
}

/// How connections are served by what a worker has of its own: a port, or a screen.
pub trait ConnectionHandler<S> {
    ghost use Rattle.std.specs.Prelude.{◌≡◌};
    ghost use Rattle.desk_workers.specs.Work.{Connection, EndStates};

    /// What no connection changes of it.
    type Fixed;

    /// What is seen of it.
    ghost State: { Type 0 };

    ghost fixed: { S → Self.Fixed };

    ghost state: { S → State };

    /// What serving a connection does to it, by how the connection's ends are seen and what is
    /// fixed.
    ghost serves: { {In Out : Type 0} → EndStates In Out → Self.Fixed → State
        → Connection In Out → State → Type 0 };

    /// Serves a connection with these ends, and gives the outcome with which it is to be finished.
    fn serve<In: Source, Out: Sink>(
        &self,
        alloc: Global,
        own: &mut S,
        source: &mut In,
        sink: &mut Out,
    ) -> Outcome
        ensures fixed { fixed own.new ≡ fixed own.old }
        ensures serves { serves (record { source = In.state; sink = Out.state }) (fixed own.old)
            (state own.old)
            (record {
              source = source.old;
              sink = sink.old;
              finished = record { source = source.new; sink = sink.new; outcome = result };
            })
            (state own.new) };
}

/// Each connection has a session with feeds over the port of a desk.
pub(crate) struct Sessions;

impl<P: FeedPort> ConnectionHandler<P> for Sessions {
    ghost use Rattle.desk_http.specs.Ports.{PortState};
    ghost use Rattle.desk_workers.specs.Feeds.{kinds_at};
    ghost use Rattle.desk_workers.specs.Work.{HasSession};

    type Fixed = (P::Fixed, AirportParts);

    ghost State = { PortState };

    ghost fixed = { λ port. (P.fixed port, P.airport_of port) };

    ghost state = { P.port };

    ghost serves = { λ {In} {Out} states at. HasSession states (kinds_at P.asks P.feeds at) };

    fn serve<In: Source, Out: Sink>(
        &self,
        alloc: Global,
        own: &mut P,
        source: &mut In,
        sink: &mut Out,
    ) -> Outcome {
        session_fed(alloc, own, source, sink)
    }
}

/// Accepts this many connections one after the other, serves a session with feeds on each, and
/// finishes it with the session's outcome, whatever that is. It ends early only if the listener
/// fails, and its count of faults then rises.
pub fn work<P: FeedPort, L: Listener, R: Wait>(
    rt: &R,
    alloc: Global,
    port: &mut P,
    listener: &mut L,
    connections: u32,
) -> WorkEnd
    ensures works { Works (HasSession (record { source = L.In.state; sink = L.Out.state })
        (fed_kind P.asks (P.feeds (P.fixed port.old)) (P.airport_of port.old))) connections
        (record { listener = L.state listener.old; own = P.port port.old })
        (record { listener = L.state listener.new; own = P.port port.new }) result }
    ensures done { ¬ (Rose (L.state listener.old).faults (L.state listener.new).faults)
        → result ≡ WorkEnd.Done }
    ensures airport { P.airport_of port.new ≡ P.airport_of port.old }
    ensures fixed { P.fixed port.new ≡ P.fixed port.old }
{
    work_each(rt, alloc, &Sessions, port, listener, connections)
}

/// Accepts this many connections one after the other, and serves each by what the worker has of its
/// own. It finishes each with the outcome of that, whatever this is. It ends early only if the
/// listener fails.
pub(crate) fn work_each<S, K: ConnectionHandler<S>, L: Listener, R: Wait>(
    rt: &R,
    alloc: Global,
    handler: &K,
    own: &mut S,
    listener: &mut L,
    connections: u32,
) -> WorkEnd
    ensures works { Works (K.serves (record { source = L.In.state; sink = L.Out.state })
        (K.fixed own.old)) connections
        (record { listener = L.state listener.old; own = K.state own.old })
        (record { listener = L.state listener.new; own = K.state own.new }) result }
    ensures fixed { K.fixed own.new ≡ K.fixed own.old }
{
    for _served in 0..connections {
        if let Err(Failed) = serve_next(rt, alloc, handler, own, listener) {
            return WorkEnd::ListenerFault;
        }
    }
    WorkEnd::Done
}

// Serves the next connection, and finishes it. At `Err` the listener failed, and none was accepted.
fn serve_next<S, K: ConnectionHandler<S>, L: Listener, R: Wait>(
    rt: &R,
    alloc: Global,
    handler: &K,
    own: &mut S,
    listener: &mut L,
) -> Result<(), Failed>
    ensures serves { ServesNext (K.serves (record { source = L.In.state; sink = L.Out.state })
        (K.fixed own.old))
        (record { listener = L.state listener.old; own = K.state own.old })
        (record { listener = L.state listener.new; own = K.state own.new }) result }
    ensures fixed { K.fixed own.new ≡ K.fixed own.old }
{
    let (mut source, mut sink) = listener.accept(rt)?;
    let outcome = handler.serve(alloc, own, &mut source, &mut sink);
    listener.finish(source, sink, outcome);
    Ok(())
}
