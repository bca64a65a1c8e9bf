// Looks into an index of two stands, with three planned slots and two actual ones on the first.
ghost use Rattle.std.specs.Prelude.{◌≡◌, ◌≤◌, ◌<◌, IfOk, length};

use apron_base::{Memory, Minute, PartId, Slot, StandNo, Steps, TypeNo, VisitNo};
use stand_index::StandIndex;
use std::alloc::Global;
use std::marker::Brand;
use std::sync::ledger::{Blank, Ledger};
use std::test::Fail;

const STAND: StandNo = StandNo(0);

const OTHER_STAND: StandNo = StandNo(1);

fn part(visit: u32) -> PartId
    ensures is { result ≡ record { visit = record { 0 = visit }; part = 1 } }
{
    PartId {
        visit: VisitNo(visit),
        part: 1,
    }
}

fn slot(visit: u32, from: Minute, end: Minute, actual: bool) -> Slot
    ensures is { result ≡ record {
      part = record { visit = record { 0 = visit }; part = 1 };
      kind = record { 0 = 0 };
      stand = record { 0 = 0 };
      from = from;
      end = end;
      actual = actual;
    } }
{
    Slot {
        part: part(visit),
        kind: TypeNo(0),
        stand: STAND,
        from,
        end,
        actual,
    }
}

// Slots of both kinds come out of order.
fn filled(alloc: Global) -> Result<StandIndex, Memory>
    ensures stands { IfOk result (λ index. length index ≡ 2) }
{
    let mut index = StandIndex::new(alloc, 2)?;
    index.reserve(STAND, 3)?;
    index.insert(slot(2, 670, 740, false));
    index.insert(slot(3, 800, 850, false));
    index.insert(slot(1, 600, 670, false));
    index.reserve(STAND, 2)?;
    index.insert(slot(5, 660, 690, true));
    index.insert(slot(4, 600, 610, true));
    Ok(index)
}

fn hits<L: Ledger>(
    alloc: Global,
    index: &StandIndex,
    stand: StandNo,
    minutes: (Minute, Minute),
    blank: Blank,
) -> Result<Vec<u32>, Memory>
    requires stand { stand.0 < length index.now }
    requires name { blank.name ≡ L.name }
    requires parts { blank.parts ≡ L.parts }
    requires some { 0 < L.parts }
{
    let (from, end) = minutes;
    let mut steps = Steps::<L>::new(blank);
    let mut visits = Vec::new(alloc);
    for slot in &index.hits(alloc, stand, from, end, &mut steps)? {
        visits.push(slot.part.visit.0)?;
    }
    Ok(visits)
}

// The visits whose slots have one of these minutes.
fn visits_at(
    alloc: Global,
    index: &StandIndex,
    stand: StandNo,
    minutes: (Minute, Minute),
) -> Result<Vec<u32>, Memory>
    requires stand { stand.0 < length index.now }
{
    hits::<Brand>(alloc, index, stand, minutes, Blank::new(1))
}

#[test]
fn slots_are_found_by_their_minutes(rt: HostRuntime) -> Result<(), Fail> {
    let alloc = rt.alloc();
    let mut index = filled(alloc)?;
    let cases: [((Minute, Minute), &[u32]); 10] = [
        ((0, 600), &[]),
        ((0, 601), &[1, 4]),
        ((609, 610), &[1, 4]),
        ((610, 611), &[1]),
        ((669, 670), &[1, 5]),
        ((670, 671), &[2, 5]),
        ((670, 670), &[]),
        ((740, 800), &[]),
        ((849, 900), &[3]),
        ((0, 900), &[1, 2, 3, 4, 5]),
    ];
    for (minutes, want) in &cases {
        assert_eq!(rt;
            visits_at(alloc, &index, STAND, *minutes)?.as_slice(),
            *want
        );
    }
    assert!(rt; visits_at(alloc, &index, OTHER_STAND, (0, 900))?.is_empty());

    // There may be no memory for this much room: either way the slots are as they were.
    let _ = index.reserve(STAND, u32::MAX);
    assert_eq!(rt;
        visits_at(alloc, &index, STAND, (0, 900))?.as_slice(),
        [1, 2, 3, 4, 5].as_slice()
    );

    index.remove(STAND, part(2));
    index.remove(STAND, part(4));
    index.remove(OTHER_STAND, part(1));
    assert_eq!(rt;
        visits_at(alloc, &index, STAND, (0, 900))?.as_slice(),
        [1, 3, 5].as_slice()
    );
    Ok(())
}
