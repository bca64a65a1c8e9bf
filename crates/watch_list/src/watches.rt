// Watches by their names.
ghost use Rattle.std.specs.Prelude.{◌≡◌, [], IfErr, IfOk, OnErr, OnOk};
ghost use Rattle.std.specs.Option.{option_copied};
ghost use Rattle.apron_base.specs.Keeper.{with_last};
ghost use Rattle.watch_list.specs.Watches.{AreWatches, CanAddWatch, IsWatchRefused, most_watches, watch_named};

use crate::note::Stated;
use crate::watch::{NoteTest, Watch};
use apron_base::{Memory, Name};
use std::alloc::Global;
use std::marker::Model;

/// The most watches of a list.
pub const MAX_WATCHES: usize = 16;

/// The limit in the code is the number in its definition.
pub fn limit_of_watches_is_as_defined()
    ensures watches { MAX_WATCHES ≡ most_watches }
{}

// How many watches a list has memory for from the start.
const FIRST_WATCHES: usize = 2;

/// Why a watch is not added: the first that holds, in this order.
#[derive(Clone, Copy, Debug, PartialEq, Eq)]
pub enum WatchFault {
    /// A watch of the list has the name.
    Taken,
    /// The list has 16 watches.
    Full,
    /// There is no memory.
    Memory,
}

/// At most 16 watches in the order of adding, each with a name of its own. Contracts see their
/// names and what they state.
#[derive(Drop)]
pub struct Watches<R: Stated, T: NoteTest> {
    kept: Vec<Watch<R, T>>,
}

impl<R: Stated, T: NoteTest> Model for Watches<R, T> {
    ghost use Rattle.std.specs.Prelude.{List};
    ghost use Rattle.watch_list.specs.declared.watch.Watched.{Watched};
    ghost use Rattle.watch_list.specs.Watches.{AreWatches};

    ghost Value = { List (Watched R) };

    ghost view = { λ w. w.kept.items };

    ghost invariant = { λ w. AreWatches w.kept.items };
}

impl<R: Stated, T: NoteTest> Watches<R, T> {
    /// No watch. At `Err` there is no memory for the first ones.
    pub fn new(alloc: Global) -> Result<Watches<R, T>, Memory>
        ensures none { IfOk result (λ watches. watches ≡ []) }
    {
        Ok(Watches {
            kept: Vec::with_capacity(alloc, FIRST_WATCHES)?,
        })
    }

    /// No watch. It takes no memory.
    pub fn none(alloc: Global) -> Watches<R, T>
        ensures none { result ≡ [] }
    {
        Watches {
            kept: Vec::new(alloc),
        }
    }

    /// Puts the watch last. At `Err` it comes back with the first cause that holds, and the list is
    /// as it was.
    pub fn add(&mut self, watch: Watch<R, T>) -> Result<(), (WatchFault, Watch<R, T>)>
        ensures last { OnOk result (self.new ≡ with_last watch self.old) }
        ensures place { OnOk result (CanAddWatch self.old watch) }
        ensures refused { IfErr result (λ refusal. IsWatchRefused self.old watch refusal.0) }
        ensures back { IfErr result (λ refusal. refusal.1 ≡ watch) }
        ensures same { OnErr result (self.new ≡ self.old) }
    {
        if self.find(watch.name()).is_some() {
            return Err((WatchFault::Taken, watch));
        }
        if self.kept.len() >= MAX_WATCHES {
            return Err((WatchFault::Full, watch));
        }
        if self.kept.reserve(1).is_err() {
            return Err((WatchFault::Memory, watch));
        }
        self.kept.push_reserved(watch);
        Ok(())
    }

    /// The watch of this name: None exactly if no watch has it.
    pub fn find(&self, name: &Name) -> Option<&Watch<R, T>>
        ensures found { option_copied result ≡ watch_named self.now name.now }
        ensures watches { AreWatches self.now }
    {
        self.kept.iter().find(|watch| name.is_same(watch.name()))
    }
}
