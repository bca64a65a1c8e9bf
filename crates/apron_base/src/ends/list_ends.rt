// Sources and sinks in memory, for tests: some with calls that fail on command, and some that never
// fail.
ghost use Rattle.std.specs.Prelude.{◌≡◌, ◌-◌, ◌<◌, ◌≤◌, ◌++◌, [], Some, None, take, length, min, is_err, slice_get, OnErr, IfOk, IsOk, OnOk};
ghost use Rattle.std.specs.Io.{ReadsAtMost};
ghost use Rattle.apron_base.specs.Ends.{Puts, Reads};
ghost use Rattle.apron_base.specs.Fails.{fails_after_count, fails_from, is_to_fail};
ghost use Rattle.apron_base.specs.ListEnds.{after_piece, next_length, null_sink_state, refuses_put, sink_state, source_state, steady_source_state, within_size};

use crate::fails::FailingCalls;
use crate::{Failed, Sink, Source};
use std::alloc::{AllocError, Global};
use std::marker::Model;

// Bytes that come in pieces of stated sizes.
#[derive(Drop)]
struct Pieces {
    bytes: Vec<u8>,
    at: usize,
    // the greatest size of each piece; after the last of them the rest comes whole
    sizes: Vec<usize>,
    // how many pieces were taken
    taken: usize,
}

impl Model for Pieces {
    ghost use Rattle.std.specs.Prelude.{◌≤◌, drop, vec_len};
    ghost use Rattle.apron_base.specs.ListEnds.{PiecesHeld};

    ghost Value = { PiecesHeld };

    ghost view = { λ p. record {
      left = drop p.at p.bytes.items;
      sizes = p.sizes.items;
      taken = p.taken;
    } };

    ghost invariant = { λ p. p.at ≤ vec_len p.bytes };
}

impl Pieces {
    fn new(bytes: Vec<u8>, sizes: Vec<usize>) -> Pieces
        ensures whole { result ≡ record { left = bytes.items; sizes = sizes.items; taken = 0 } }
    {
        Pieces {
            bytes,
            at: 0,
            sizes,
            taken: 0,
        }
    }

    // Takes the next piece, or as much of it as there is room for. It gives 0 at the end, or if
    // there is no room.
    fn take(&mut self, into: &mut [u8]) -> usize
        ensures size { result ≡ next_length self.old (length into.new) }
        ensures bytes { self.old.left ≡ take result into.new ++ self.new.left }
        ensures rest { self.new ≡ after_piece self.old result }
        ensures bound { result ≤ length into.new }
        ensures end { result ≡ 0 → 0 < length into.new → self.new.left ≡ [] }
    {
        let left = &self.bytes[self.at..];
        let count = within_size(&self.sizes, self.taken, left.len().min(into.len()));
        copy_front(into, &left[..count]);
        self.at += count;
        self.taken = self.taken.saturating_add(1);
        count
    }
}

// At most the size of the piece, which is at least 1; after the last size any number.
fn within_size(sizes: &[usize], piece: usize, most: usize) -> usize
    ensures size { result ≡ within_size (slice_get sizes.now piece) most }
    ensures bound { result ≤ most }
    ensures some { 0 < most → 0 < result }
{
    match sizes.get(piece) {
        Some(size) => (*size).max(1).min(most),
        None => most,
    }
}

fn copy_front(into: &mut [u8], from: &[u8])
    requires room { length from.now ≤ length into.old }
    ensures bytes { take (length from.now) into.new ≡ from.now }
{
    into[..from.len()].copy_from_slice(from);
}

/// A source of given bytes, which come in pieces of stated sizes, with calls that fail. Contracts
/// see the pieces and the calls that fail.
#[derive(Drop)]
pub struct ListSource {
    pieces: Pieces,
    fails: FailingCalls,
}

impl Model for ListSource {
    ghost use Rattle.apron_base.specs.ListEnds.{SourceHeld};

    ghost Value = { SourceHeld };

    ghost view = { λ s. record { pieces = s.pieces; fails = s.fails } };
}

impl ListSource {
    /// `pieces` are the greatest sizes of the pieces, and 0 counts as 1; after the last of them the
    /// rest comes whole. `fails` are the numbers of the reads that fail, from 0, in any order. A
    /// read that fails takes nothing.
    pub fn new(bytes: Vec<u8>, pieces: Vec<usize>, fails: Vec<u64>) -> Self
        ensures pieces { result.pieces
            ≡ record { left = bytes.items; sizes = pieces.items; taken = 0 } }
        ensures fails { result.fails ≡ fails_from fails.items }
    {
        ListSource {
            pieces: Pieces::new(bytes, pieces),
            fails: FailingCalls::new(fails),
        }
    }
}

impl Source for ListSource {
    ghost state = { source_state };

    fn read(&mut self, into: &mut [u8]) -> Result<usize, Failed>
        requires room { 0 < length into.old }
        ensures bound { ReadsAtMost result into.new }
        ensures reads { Reads (source_state self.old) (source_state self.new) result into.new }

        // Exactly the given calls fail, and each piece has its size.
        ensures refused { is_err result ≡ is_to_fail self.old.fails }
        ensures called { self.new.fails ≡ fails_after_count (is_err result) self.old.fails }
        ensures size { IfOk result
            (λ count. count ≡ next_length self.old.pieces (length into.new)) }
        ensures ok { IfOk result (λ count. self.new.pieces ≡ after_piece self.old.pieces count) }
        ensures err { OnErr result (self.new.pieces ≡ self.old.pieces) }
    {
        if self.fails.is_next() {
            return Err(self.fails.fail());
        }
        Ok(self.pieces.take(into))
    }
}

/// A source of given bytes that never fails. Contracts see the pieces.
#[derive(Drop)]
pub struct SteadySource {
    pieces: Pieces,
}

impl Model for SteadySource {
    ghost use Rattle.apron_base.specs.ListEnds.{PiecesHeld};

    ghost Value = { PiecesHeld };

    ghost view = { λ s. s.pieces };
}

impl SteadySource {
    /// `pieces` are the greatest sizes of the pieces, and 0 counts as 1; after the last of them the
    /// rest comes whole.
    pub fn new(bytes: Vec<u8>, pieces: Vec<usize>) -> Self
        ensures pieces { result ≡ record { left = bytes.items; sizes = pieces.items; taken = 0 } }
    {
        SteadySource {
            pieces: Pieces::new(bytes, pieces),
        }
    }
}

impl Source for SteadySource {
    ghost state = { steady_source_state };

    fn read(&mut self, into: &mut [u8]) -> Result<usize, Failed>
        requires room { 0 < length into.old }
        ensures bound { ReadsAtMost result into.new }
        ensures reads { Reads (steady_source_state self.old) (steady_source_state self.new)
            result into.new }
        ensures never_fails { IsOk result }
        ensures size { IfOk result (λ count. count ≡ next_length self.old (length into.new)) }
        ensures rest { IfOk result (λ count. self.new ≡ after_piece self.old count) }
    {
        Ok(self.pieces.take(into))
    }
}

/// A sink that keeps what was written, with room for a number of bytes, and with calls that fail.
/// Contracts see the bytes, the room that is left and the calls that fail.
#[derive(Drop)]
pub struct ListSink {
    bytes: Vec<u8>,
    room: usize,
    fails: FailingCalls,
}

impl Model for ListSink {
    ghost use Rattle.std.specs.Prelude.{◌+◌, ◌≤◌, vec_capacity, vec_len};
    ghost use Rattle.apron_base.specs.ListEnds.{SinkHeld};

    ghost Value = { SinkHeld };

    ghost view = { λ s. record { told = s.bytes.items; room = s.room; fails = s.fails } };

    ghost invariant = { λ s. vec_len s.bytes + s.room ≤ vec_capacity s.bytes };
}

impl ListSink {
    /// `room` is how many bytes can be written: a put that exceeds it fails. `fails` are the
    /// numbers of the puts that fail, from 0, in any order. A put that fails writes nothing. `Err`
    /// if there is no memory for this much room.
    pub fn new(alloc: Global, room: usize, fails: Vec<u64>) -> Result<Self, AllocError>
        ensures ok { IfOk result
            (λ sink. sink ≡ record { told = []; room = room; fails = fails_from fails.items }) }
    {
        Ok(ListSink {
            bytes: Vec::with_capacity(alloc, room)?,
            room,
            fails: FailingCalls::new(fails),
        })
    }

    /// What was written so far.
    pub fn bytes(&self) -> &[u8]
        ensures told { result.now ≡ self.now.told }
    {
        &self.bytes
    }
}

impl Sink for ListSink {
    ghost state = { sink_state };

    fn put(&mut self, piece: &[u8]) -> Result<(), Failed>
        ensures puts { Puts (sink_state self.old) (sink_state self.new) result piece.now }

        // Exactly the given calls, and those that exceed the room, fail; they write nothing.
        ensures refused { is_err result ≡ refuses_put self.old (length piece.now) }
        ensures called { self.new.fails ≡ fails_after_count (is_err result) self.old.fails }
        ensures room { OnOk result (self.new.room ≡ self.old.room - length piece.now) }
        ensures err { OnErr result (self.new ≡ record self.old { fails = self.new.fails }) }
    {
        if self.fails.is_next() || self.room < piece.len() {
            return Err(self.fails.fail());
        }
        if self.bytes.extend_from_slice(piece).is_err() {
            unreachable!();
        }
        self.room -= piece.len();
        Ok(())
    }
}

/// A sink that takes every piece, exposes nothing and never fails.
#[derive(Clone, Copy, Debug, PartialEq, Eq)]
pub struct NullSink;

impl Sink for NullSink {
    ghost state = { λ _. null_sink_state };

    fn put(&mut self, _piece: &[u8]) -> Result<(), Failed>
        ensures puts { Puts null_sink_state null_sink_state result _piece.now }
        ensures never_fails { IsOk result }
    {
        Ok(())
    }
}
