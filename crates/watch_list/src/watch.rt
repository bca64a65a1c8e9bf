// A test of notes beside the fact that it answers what is stated.
ghost use Rattle.std.specs.Prelude.{◌≡◌, Bool};
ghost use Rattle.watch_list.specs.declared.note.Note.{Note};

use crate::note::{Note, Shown, Stated};
use apron_base::Name;
use std::marker::Model;

/// What tests a note. Each closure over a note is one by `TestBy`.
pub trait NoteTest {
    ghost use Rattle.std.specs.Prelude.{Bool};
    ghost use Rattle.watch_list.specs.declared.note.Note.{Note};

    /// It may be called on every note.
    ghost can_test: { Self → Type 0 };

    /// What it may answer on a note.
    ghost answers: { Self → Note → Bool → Type 0 };

    fn test(&self, note: &Note) -> bool
        requires can { can_test self.now }
        ensures answers { answers self.now note.now result };
}

/// A closure as a test.
#[derive(Clone, Copy, Drop)]
pub struct TestBy<F> {
    pub test: F,
}

impl<F: Fn(&Note) -> bool> NoteTest for TestBy<F> {
    ghost use Rattle.std.specs.Fn.{FnReturnsAt};

    ghost can_test = { λ t. F.IsAlwaysCallable t.test };

    ghost answers = { λ t. FnReturnsAt F.Fn t.test };

    fn test(&self, note: &Note) -> bool {
        (self.test)(note)
    }
}

impl NoteTest for Shown {
    ghost use Rattle.std.specs.Prelude.{◌≡◌};
    ghost use Rattle.watch_list.specs.Watches.{shows};

    ghost can_test = { λ shown. Unit {0} };

    ghost answers = { λ shown note answer. answer ≡ shows shown note };

    fn test(&self, note: &Note) -> bool {
        self.shows(note)
    }
}

/// A watch as contracts see it.
#[derive(Clone, Copy, Debug)]
pub struct Watched<R> {
    pub name: Name,
    pub stated: R,
}

/// A named test of notes, which answers exactly what is stated. Contracts see its name and what it
/// states.
#[derive(Drop)]
pub struct Watch<R: Stated, T: NoteTest> {
    name: Name,
    stated: R,
    test: T,
}

impl<R: Stated, T: NoteTest> Model for Watch<R, T> {
    ghost use Rattle.std.specs.Prelude.{◌≡◌, Bool};
    ghost use Rattle.watch_list.specs.declared.note.Note.{Note};
    ghost use Rattle.watch_list.specs.declared.watch.Watched.{Watched};

    ghost Value = { Watched R };

    ghost view = { λ w. record { name = w.name; stated = w.stated } };

    ghost invariant = { λ w. T.can_test w.test
        × ((note : Note) (answer : Bool)
        → T.answers w.test note answer
        → answer ≡ R.tells w.stated note) };
}

impl<R: Stated, T: NoteTest> Watch<R, T> {
    /// A watch of this name, whose test answers what is stated. It takes no memory.
    pub fn new(name: Name, stated: R, test: T) -> Watch<R, T>
        requires callable { T.can_test test }
        requires answers { (note : Note) (answer : Bool)
            → T.answers test note answer
            → answer ≡ R.tells stated note }
        ensures watch { result ≡ record { name = name; stated = stated } }
    {
        Watch { name, stated, test }
    }

    /// The name.
    pub fn name(&self) -> &Name
        ensures value { result.now ≡ self.now.name }
    {
        &self.name
    }

    /// Whether it tells of this note. It takes no memory.
    pub fn picks(&self, note: &Note) -> bool
        ensures tells { result ≡ R.tells self.now.stated note.now }
    {
        self.test.test(note)
    }
}
