// What is left to know of the writers of a hall that has ended.
ghost use Rattle.std.specs.Prelude.{◌≡◌};

use std::marker::Model;

/// Whether the writers of a hall showed the last version of its board's plan. Only a hall makes one.
/// Contracts see the least number that the hall's first call could have, how many writers it has,
/// and that version.
#[derive(Drop)]
pub struct HallNote {
    pub(crate) begun: u64,
    pub(crate) version: u32,
    pub(crate) writers: usize,
    pub(crate) missed: bool,
}

impl Model for HallNote {
    ghost use Rattle.shown_board.specs.Halls.{HallNoteState};

    ghost Value = { HallNoteState };

    ghost view = { λ n. record {
      begun = n.begun;
      version = n.version;
      writers = n.writers;
      missed = n.missed;
    } };
}

impl HallNote {
    /// Whether some writer did not show the version.
    pub fn missed(&self) -> bool
        ensures value { result ≡ self.now.missed }
    {
        self.missed
    }
}
