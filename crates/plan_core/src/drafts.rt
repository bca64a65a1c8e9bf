// The drafts of desks that became commits.
ghost use Rattle.std.specs.Prelude.{◌≡◌, ◌≤◌, ◌++◌, ◌∷◌, [], OnOk, None};
ghost use Rattle.plan_core.specs.Drafts.{AreIndexed, draft_version};

use apron_base::{Memory, Name};
use std::alloc::Global;
use std::collections::BTreeMap;
use std::marker::Model;

/// Which draft: the desk's name, and the number that the desk gave it.
#[derive(Clone, Copy, Debug, PartialEq, Eq, PartialOrd, Ord)]
pub struct DraftId {
    pub desk: Name,
    pub number: u32,
}

/// A draft that became a commit, and the version that this made.
#[derive(Clone, Copy, Debug, PartialEq, Eq)]
pub struct Drafted {
    pub id: DraftId,
    pub version: u32,
}

/// The drafts that became commits, in order, and the version of each by its id. The index lacks
/// those that were added since the last `reserve`, since it takes memory: these are looked through.
/// Contracts see the drafts as their list, and how many more can be added without taking memory.
#[derive(Drop)]
pub(crate) struct Drafts {
    kept: Vec<Drafted>,
    versions: BTreeMap<DraftId, u32>,
    indexed: usize,
}

impl Model for Drafts {
    ghost use Rattle.std.specs.Prelude.{◌-◌, vec_capacity, vec_len};
    ghost use Rattle.plan_core.specs.Drafts.{AreIndexed, DraftsHeld};

    ghost Value = { DraftsHeld };

    ghost view = { λ d. record {
      kept = d.kept.items;
      room = vec_capacity d.kept - vec_len d.kept;
    } };

    ghost invariant = { λ d. AreIndexed d.versions d.indexed d.kept.items };
}

impl Drafts {
    /// No drafts. It takes no memory.
    pub(crate) fn none(alloc: Global) -> Drafts
        ensures none { result.kept ≡ [] }
    {
        Drafts {
            kept: Vec::new(alloc),
            versions: BTreeMap::new(alloc),
            indexed: 0,
        }
    }

    /// The version that the commit of this draft made.
    pub(crate) fn version(&self, desk: &Name, number: u32) -> Option<u32>
        ensures version { result ≡ draft_version self.now.kept desk.now number }
    {
        let id = DraftId {
            desk: *desk,
            number,
        };
        match self.versions.get(&id) {
            Some(version) => Some(*version),
            None => version_of(&self.kept[self.indexed..], &id),
        }
    }

    /// Makes room for one more, and indexes all. `Err` if there is no memory; no room is lost then.
    pub(crate) fn reserve(&mut self) -> Result<(), Memory>
        ensures kept { self.new.kept ≡ self.old.kept }
        ensures ok { OnOk result (1 ≤ self.new.room) }
        ensures room { self.old.room ≤ self.new.room }
    {
        self.indexed = index_from(self.indexed, self.kept.as_slice(), &mut self.versions);
        if self.indexed < self.kept.len() {
            return Err(Memory);
        }
        self.kept.reserve(1)?;
        Ok(())
    }

    /// Puts the draft of the commit that made this version last. It takes no memory.
    pub(crate) fn push(&mut self, id: &DraftId, version: u32)
        requires new { draft_version self.old.kept id.now.desk id.now.number ≡ None }
        requires room { 1 ≤ self.old.room }
        ensures kept { self.new.kept
            ≡ self.old.kept ++ record { id = id.now; version = version } ∷ [] }
    {
        self.kept.push_reserved(Drafted { id: *id, version });
    }
}

// The version that the commit of this draft made, if it is one of these.
fn version_of(drafts: &[Drafted], id: &DraftId) -> Option<u32>
    ensures version { result ≡ draft_version drafts.now id.now.desk id.now.number }
{
    drafts
        .iter()
        .find(|drafted| *id == drafted.id)
        .map(|drafted| drafted.version)
}

// Puts the versions of the drafts from this place on into the index, while there is memory. Gives
// the place of the first draft that the index lacks, or the number of drafts if it has all.
fn index_from(from: usize, drafts: &[Drafted], versions: &mut BTreeMap<DraftId, u32>) -> usize
    requires indexed { AreIndexed versions.old from drafts.now }
    ensures indexed { AreIndexed versions.new result drafts.now }
{
    for place in from..drafts.len() {
        let drafted = &drafts[place];
        if versions.insert(drafted.id, drafted.version).is_err() {
            return place;
        }
    }
    drafts.len()
}
