// A session: requests in, replies out.
ghost use Rattle.std.specs.Prelude.{◌≡◌, ◌+◌, ◌<◌, ℕ};
ghost use Rattle.desk_http.specs.Complete.{IsSessionComplete};
ghost use Rattle.desk_http.specs.Session.{SessionBy, SessionOf, SessionState, most_requests, refusal_text as refusal_text_lem};
ghost use Rattle.desk_http.specs.Serving.{GoesOnOrEnds, SoFar};

use crate::DeskPort;
use crate::answering::{Answerer, write};
use crate::reading::take_more;
use crate::targets::DeskRoutes;
use apron_base::{Outcome, Sink, Source};
use desk_words::fixed;
use http_framing::{Front, Incoming, RequestParts, RequestRefusal};
use std::alloc::Global;

// The most requests that one session answers.
const MOST_REQUESTS: u32 = 1_000_000;

/// One session of one desk: it answers requests in order until the source ends, one of them closes
/// it, or something stops it. The memory for its routes and its bytes is taken before the first
/// read, so that after it only the reading of a body can want any without an ask.
pub fn session<P: DeskPort, S: Source, W: Sink>(
    alloc: Global,
    port: &mut P,
    source: &mut S,
    sink: &mut W,
) -> Outcome
    ensures of { SessionOf P.asks (P.airport_of port.old)
        (record { source = S.state source.old; sink = W.state sink.old; port = P.port port.old })
        (record { source = S.state source.new; sink = W.state sink.new; port = P.port port.new })
        result }
    ensures complete { IsSessionComplete P.asks (P.airport_of port.old)
        (record { source = S.state source.old; sink = W.state sink.old; port = P.port port.old })
        (record { source = S.state source.new; sink = W.state sink.new; port = P.port port.new })
        result }
    ensures airport { P.airport_of port.new ≡ P.airport_of port.old }
    ensures fixed { P.fixed port.new ≡ P.fixed port.old }
{
    let Ok(routes) = DeskRoutes::new(alloc) else {
        return Outcome::Memory;
    };
    session_by(alloc, &routes, port, source, sink)
}

/// The session of whatever answers over a port.
pub(crate) fn session_by<P: DeskPort, A: Answerer<P>, S: Source, W: Sink>(
    alloc: Global,
    answerer: &A,
    port: &mut P,
    source: &mut S,
    sink: &mut W,
) -> Outcome
    ensures by { SessionBy (A.comes (P.fixed port.old) (P.airport_of port.old))
        (P.airport_of port.old)
        (record { source = S.state source.old; sink = W.state sink.old; port = P.port port.old })
        (record { source = S.state source.new; sink = W.state sink.new; port = P.port port.new })
        result }
    ensures airport { P.airport_of port.new ≡ P.airport_of port.old }
    ensures fixed { P.fixed port.new ≡ P.fixed port.old }
{
    let Ok(mut incoming) = Incoming::new(alloc) else {
        return Outcome::Memory;
    };
    for count in 0..MOST_REQUESTS {
        match take_exchange(alloc, answerer, port, source, sink, &mut incoming) {
            Ok(()) => {}
            Err(outcome) => return outcome,
        }
    }
    Outcome::Limit
}

// Reads until a request has come, and answers it. `Err` says how the session ends.
fn take_exchange<P: DeskPort, A: Answerer<P>, S: Source, W: Sink>(
    alloc: Global,
    answerer: &A,
    port: &mut P,
    source: &mut S,
    sink: &mut W,
    incoming: &mut Incoming,
) -> Result<(), Outcome>
    ensures goes_on { (start : SessionState) (count : ℕ)
        → SoFar (A.comes (P.fixed port.old) (P.airport_of port.old)) (P.airport_of port.old) start
        (record { source = S.state source.old; sink = W.state sink.old; port = P.port port.old })
        incoming.old count
        → count < most_requests
        → GoesOnOrEnds (A.comes (P.fixed port.old) (P.airport_of port.old)) (P.airport_of port.old)
        start
        (record { source = S.state source.new; sink = W.state sink.new; port = P.port port.new })
        incoming.new (count + 1) result }
    ensures airport { P.airport_of port.new ≡ P.airport_of port.old }
    ensures fixed { P.fixed port.new ≡ P.fixed port.old }
{
    'reading: loop {
        match incoming.front() {
            Front::Whole(parts) => {
                let RequestParts { closes, length, .. } = parts;
                let answered = answerer.answer(alloc, port, sink, &parts);
                incoming.consume(length);
                if closes {
                    return answered.and(Err(Outcome::Closed));
                }
                return answered;
            }
            Front::Malformed(why) => {
                return write(sink, refusal_text(why)).and(Err(Outcome::Malformed));
            }
            Front::Partial => take_more(source, incoming)?,
        }
    }
}

// The whole text of the reply to a request that is refused.
fn refusal_text(why: RequestRefusal) -> &'static [u8]
    ensures text { result.now ≡ refusal_text_lem why }
{
    match why {
        RequestRefusal::Head => fixed::bad_head(),
        RequestRefusal::Encoding => fixed::bad_encoding(),
        RequestRefusal::Large => fixed::large_body(),
        RequestRefusal::Length => fixed::no_length(),
    }
}
