// How calls of the outside, asks and sessions end.
use crate::Listed;

/// A call of the outside failed.
#[derive(Clone, Copy, Debug, PartialEq, Eq)]
pub struct Failed;

/// What one ask of a desk gives. Only with a reply can it have added an entry.
#[derive(Debug, Drop)]
pub enum Acted {
    /// The bytes of the reply.
    Reply(Listed<u8>),
    /// There is no memory.
    Memory,
    /// The keeper of the entries failed.
    Fault,
    /// There are no more call numbers.
    Spent,
}

/// How a session ended.
#[derive(Clone, Copy, Debug, PartialEq, Eq)]
pub enum Outcome {
    /// The input ended between requests.
    Ended,
    /// A request closed the session.
    Closed,
    /// The input ended within a request.
    Cut,
    /// A request's head or length was refused.
    Malformed,
    /// One session's limit of requests was reached, all of them answered.
    Limit,
    /// The source failed.
    ReadFault,
    /// The sink failed.
    WriteFault,
    /// There were no more call numbers.
    Spent,
    /// Memory ran out.
    Memory,
}
