// The bytes of a stream that have come.
ghost use Rattle.std.specs.Prelude.{◌≡◌, ◌≤◌, ◌++◌, [], IfOk, drop, length};
ghost use Rattle.http_framing.specs.Fronts.{IsEnd, IsFront};
ghost use Rattle.http_framing.specs.Requests.{IsPartial};
ghost use Rattle.http_framing.specs.Rooms.{max_piece};

use crate::blank::are_blank;
use crate::bodies::MAX_BODY;
use crate::front::{Front, front_of};
use crate::heads::MAX_HEAD;
use std::alloc::{AllocError, Global};
use std::marker::Model;

/// The most bytes that are added at once.
pub const MAX_PIECE: usize = 4096;

// The room for a request that is not whole yet, and one piece more.
const ROOM: usize = MAX_HEAD + MAX_BODY + MAX_PIECE;

/// The bytes of a stream that have come and have not been passed over. All its memory is taken when
/// it is made.
#[derive(Drop)]
pub struct Incoming {
    bytes: Vec<u8>,
}

impl Model for Incoming {
    ghost use Rattle.std.specs.Prelude.{◌≤◌, List, ℕ, vec_capacity};
    ghost use Rattle.http_framing.specs.Rooms.{room};

    ghost Value = { List ℕ };

    ghost view = { λ incoming. incoming.bytes.items };

    ghost invariant = { λ incoming. room ≤ vec_capacity incoming.bytes };
}

/// How a stream ends if its last bytes hold no whole request.
#[derive(Clone, Copy, Debug, PartialEq, Eq)]
pub enum StreamEnd {
    /// Between requests.
    Ended,
    /// Inside a request.
    Cut,
}

impl Incoming {
    /// A stream of which nothing has come yet.
    pub fn new(alloc: Global) -> Result<Incoming, AllocError>
        ensures empty { IfOk result (λ incoming. incoming ≡ []) }
    {
        let bytes = Vec::with_capacity(alloc, ROOM)?;
        Ok(Incoming { bytes })
    }

    /// What is at the front.
    pub fn front(&self) -> Front<'_>
        ensures is { IsFront self.now result }
    {
        front_of(self.bytes.as_slice())
    }

    /// Adds the next piece of the stream.
    pub fn push(&mut self, piece: &[u8])
        requires partial { IsPartial self.old }
        requires most { length piece.now ≤ max_piece }
        ensures pushed { self.new ≡ self.old ++ piece.now }
    {
        match self.bytes.extend_from_slice(piece) {
            Ok(()) => {}
            Err(_) => unreachable!(),
        }
    }

    /// Passes over this many bytes at the front.
    pub fn consume(&mut self, count: usize)
        requires most { count ≤ length self.old }
        ensures rest { self.new ≡ drop count self.old }
    {
        self.bytes.rotate_left(count);
        self.bytes.truncate(self.bytes.len() - count);
    }

    /// How the stream ends, if it ends here.
    pub fn end(&self) -> StreamEnd
        requires partial { IsPartial self.now }
        ensures is { IsEnd self.now result }
    {
        if are_blank(self.bytes.as_slice()) {
            StreamEnd::Ended
        } else {
            StreamEnd::Cut
        }
    }
}
