// Texts that take no memory.
ghost use Rattle.std.specs.Prelude.{◌≡◌, ◌≤◌, ◌+◌, ◌++◌, length};

use arrayvec::ArrayVec;
use std::marker::Model;

/// The most bytes of a text that takes no memory.
pub const MOST_SHORT: usize = 256;

/// A text of at most 256 bytes, which takes no memory. Contracts see it as its bytes.
#[derive(Debug, Drop)]
pub struct ShortText {
    kept: ArrayVec<u8, MOST_SHORT>,
}

impl Model for ShortText {
    ghost use Rattle.std.specs.Prelude.{List, ℕ};

    ghost Value = { List ℕ };

    ghost view = { λ t. t.kept.items };
}

impl ShortText {
    /// The bytes.
    pub fn as_slice(&self) -> &[u8]
        ensures value { result.now ≡ self.now }
    {
        self.kept.as_slice()
    }

    // The text of these bytes.
    pub(crate) fn of(bytes: &[u8]) -> ShortText
        requires few { length bytes.now ≤ MOST_SHORT }
        ensures bytes { result ≡ bytes.now }
    {
        let mut kept = ArrayVec::new();
        let _fits = kept.try_extend_from_slice(bytes);
        ShortText { kept }
    }

    // Adds these bytes at the end.
    pub(crate) fn push(&mut self, bytes: &[u8])
        requires few { length self.old + length bytes.now ≤ MOST_SHORT }
        ensures bytes { self.new ≡ self.old ++ bytes.now }
    {
        let _fits = self.kept.try_extend_from_slice(bytes);
    }
}
