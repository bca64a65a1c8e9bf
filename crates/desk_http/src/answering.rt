// The answer to one request.
ghost use Rattle.std.specs.Prelude.{◌≡◌};
ghost use Rattle.desk_words.specs.Early.{early_text};
ghost use Rattle.desk_http.specs.Replies.{Writes, WritesActed};

use crate::DeskPort;
use crate::routes::asked_by;
use crate::targets::DeskRoutes;
use apron_base::{Acted, Failed, Memory, Outcome, Sink};
use desk_words::early::{EarlyReply, early_bytes};
use desk_words::fixed;
use http_framing::RequestParts;
use std::alloc::Global;

/// What answers the requests of a session over a port.
pub(crate) trait Answerer<P: DeskPort> {
    ghost use Rattle.std.specs.Prelude.{Result};
    ghost use Rattle.apron_base.specs.declared.outside.Outcome.{Outcome};
    ghost use Rattle.apron_rules.specs.declared.parts.AirportParts.{AirportParts};
    ghost use Rattle.http_framing.specs.Requests.{Request};
    ghost use Rattle.http_framing.specs.Fronts.{ArePartsOf};
    ghost use Rattle.desk_http.specs.Answers.{Sent};
    ghost use Rattle.desk_http.specs.Ports.{PortState};
    ghost use Rattle.desk_http.specs.Replies.{IsAnswered};

    /// What comes of a request at what is fixed of the port and the airport, and what it becomes.
    ghost comes: { P.Fixed → AirportParts → PortState → Request → Result Sent Outcome → PortState
        → Type 0 };

    /// Answers the request with these parts. `Err` says how the session ends.
    fn answer<W: Sink>(
        &self,
        alloc: Global,
        port: &mut P,
        sink: &mut W,
        parts: &RequestParts<'_>,
    ) -> Result<(), Outcome>
        ensures airport { P.airport_of port.new ≡ P.airport_of port.old }
        ensures fixed { P.fixed port.new ≡ P.fixed port.old }
        ensures came { (request : Request)
            → ArePartsOf request parts.now
            → IsAnswered (P.airport_of port.old)
            (comes (P.fixed port.old) (P.airport_of port.old) (P.port port.old) request)
            (W.state sink.old) (W.state sink.new) result (P.port port.new) };
}

impl<P: DeskPort> Answerer<P> for DeskRoutes {
    ghost use Rattle.desk_http.specs.Answers.{Answers};

    ghost comes = { λ fixed. Answers P.asks };

    fn answer<W: Sink>(
        &self,
        alloc: Global,
        port: &mut P,
        sink: &mut W,
        parts: &RequestParts<'_>,
    ) -> Result<(), Outcome> {
        match asked_by(alloc, self, port.airport(), parts) {
            Ok(Ok(ask)) => write_acted(sink, port.ask(alloc, &ask)),
            Ok(Err(early)) => write_early(sink, early),
            Err(Memory) => Err(Outcome::Memory),
        }
    }
}

/// Writes the reply of an act, if the port's call numbers have not run out. All other replies than
/// the plan's are constants, which take no memory.
pub(crate) fn write_acted<W: Sink>(sink: &mut W, acted: Acted) -> Result<(), Outcome>
    ensures writes { WritesActed acted (W.state sink.old) (W.state sink.new) result }
{
    match acted {
        Acted::Reply(text) => write(sink, text.as_slice()),
        Acted::Memory => write(sink, fixed::no_memory()),
        Acted::Fault => write(sink, fixed::keeper_fault()),
        Acted::Spent => Err(Outcome::Spent),
    }
}

/// Writes a reply that is fixed before the plan is consulted.
pub(crate) fn write_early<W: Sink>(sink: &mut W, early: EarlyReply) -> Result<(), Outcome>
    ensures writes { Writes (early_text early) (W.state sink.old) (W.state sink.new) result }
{
    write(sink, early_bytes(early).as_slice())
}

/// Writes the text of a reply.
pub(crate) fn write<W: Sink>(sink: &mut W, text: &[u8]) -> Result<(), Outcome>
    ensures writes { Writes text.now (W.state sink.old) (W.state sink.new) result }
{
    match sink.put(text) {
        Ok(()) => Ok(()),
        Err(Failed) => Err(Outcome::WriteFault),
    }
}
