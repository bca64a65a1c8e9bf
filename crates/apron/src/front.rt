// How what is printed begins: a fault's line says there which record it is.
ghost use Rattle.std.specs.Prelude.{◌≡◌};

use apron_base::{MAX_DIGITS, number_of};
use std::cell::Cell;
use std::io;
use std::io::Write;
use std::marker::Model;

/// The most bytes that are kept.
const MOST_KEPT: usize = 48;

/// The first bytes that were printed.
#[derive(Clone, Copy)]
pub(crate) struct Front {
    bytes: [u8; MOST_KEPT],
    count: usize,
}

impl Front {
    /// Nothing was printed.
    pub(crate) const NONE: Front = Front {
        bytes: [0; MOST_KEPT],
        count: 0,
    };

    /// Whether what was printed begins with these bytes.
    pub(crate) fn begins_with(&self, text: &[u8]) -> bool {
        self.printed().starts_with(text)
    }

    /// The number after these bytes, if what was printed begins with both.
    pub(crate) fn number_after(&self, text: &[u8]) -> Option<u64> {
        let rest = self.printed().strip_prefix(text)?;
        let end = rest
            .iter()
            .position(|byte| !byte.is_ascii_digit())
            .unwrap_or(rest.len());
        number_of(rest.get(..end)?, MAX_DIGITS)
    }

    fn printed(&self) -> &[u8] {
        self.bytes.get(..self.count).unwrap_or(&[])
    }

    // The same with these bytes after it, as far as there is room.
    fn with(self, piece: &[u8]) -> Front {
        let mut front = self;
        for byte in piece.iter().take(MOST_KEPT) {
            let count = front.count;
            if let Some(place) = front.bytes.get_mut(count) {
                *place = *byte;
                front.count = count.saturating_add(1);
            }
        }
        front
    }
}

/// A stream of which the first bytes are kept. In all else it is the stream, and contracts see that.
#[derive(Drop)]
pub(crate) struct FrontStream<'a, S> {
    inner: S,
    front: &'a Cell<Front>,
}

impl<'a, S> Model for FrontStream<'a, S> {
    ghost Value = { S };

    ghost view = { λ s. s.inner };
}

impl<'a, S> FrontStream<'a, S> {
    /// The stream, of which nothing was printed yet.
    pub(crate) fn new(inner: S, front: &'a Cell<Front>) -> Self
        ensures is { result ≡ inner }
    {
        FrontStream { inner, front }
    }
}

impl<'a, S: Write> Write for FrontStream<'a, S> {
    ghost contents = { S.contents };

    fn write(&mut self, piece: &[u8]) -> io::Result<usize> {
        let answer = self.inner.write(piece);
        let taken = match &answer {
            Ok(count) => *count,
            Err(_) => 0,
        };
        let front = self.front.get();
        self.front
            .set(front.with(piece.get(..taken).unwrap_or(piece)));
        answer
    }

    fn flush(&mut self) -> io::Result<()> {
        self.inner.flush()
    }
}
