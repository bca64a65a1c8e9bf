// How fast the neighbours of a stand are found, and the slots of a stand that have some minutes.
ghost use Rattle.std.specs.Prelude.{◌≡◌, ◌<◌, IfOk, length};

use apron_base::{Memory, PartId, Slot, StandNo, Steps, TypeNo, VisitNo};
use apron_rules::Airport;
use stand_index::StandIndex;
use std::alloc::Global;
use std::sync::ledger::{Blank, Ledger};

/// How many planned slots the stand has: seven a day for 14 days.
pub(crate) const SLOTS: u32 = 98;

// A slot begins each 200 minutes, and holds the stand for 70.
const APART: u32 = 200;

const HELD: u32 = 70;

const STAND: StandNo = StandNo(0);

/// How many looks there were, and how many stands or slots they found.
#[derive(Clone, Copy, Debug)]
pub(crate) struct Looks {
    pub(crate) looks: u64,
    pub(crate) found: u64,
}

impl Looks {
    /// None yet.
    pub(crate) fn none() -> Looks {
        Looks { looks: 0, found: 0 }
    }

    fn add(&mut self, found: usize) {
        self.looks = self.looks.saturating_add(1);
        self.found = self.found.saturating_add(found as u64);
    }
}

/// Looks up the neighbours of each stand except itself, this many times.
pub(crate) fn looks_at_neighbours(airport: &Airport, times: u64) -> Looks {
    let mut looks = Looks::none();
    for _ in 0..times {
        for stand in 0..airport.parts().stands.len() {
            let stand = StandNo(stand as u16);
            let neighbours = airport.neighbours(stand);
            looks.add(neighbours.iter().filter(|other| **other != stand).count());
        }
    }
    looks
}

/// One stand with its slots.
pub(crate) fn full_stand(alloc: Global) -> Result<StandIndex, Memory>
    ensures stands { IfOk result (λ index. length index ≡ 1) }
{
    let mut index = StandIndex::new(alloc, 1)?;
    index.reserve(STAND, SLOTS)?;
    for before in 0..SLOTS {
        index.insert(Slot {
            part: PartId {
                visit: VisitNo(before + 1),
                part: 1,
            },
            kind: TypeNo(0),
            stand: STAND,
            from: APART * before,
            end: APART * before + HELD,
            actual: false,
        });
    }
    Ok(index)
}

/// Looks for the slots that have one of 100 minutes, once for each minute that some slot has, this
/// many times.
pub(crate) fn looks_at_slots<L: Ledger>(
    alloc: Global,
    index: &StandIndex,
    times: u64,
    blank: Blank,
) -> Result<Looks, Memory>
    requires stands { length index.now ≡ 1 }
    requires name { blank.name ≡ L.name }
    requires parts { blank.parts ≡ L.parts }
    requires some { 0 < L.parts }
{
    let mut looks = Looks::none();
    let mut steps = Steps::<L>::new(blank);
    for _ in 0..times {
        for minute in 0..APART * SLOTS {
            let hits = index.hits(alloc, STAND, minute, minute + 100, &mut steps)?;
            looks.add(hits.len());
        }
    }
    Ok(looks)
}
