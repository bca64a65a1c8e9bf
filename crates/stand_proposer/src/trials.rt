// Which stand is the first that takes a part, and why the others don't.
ghost use Rattle.std.specs.Prelude.{◌≡◌, ◌<◌, ◌++◌, ◌∷◌, [], All, IfOk, Some, length};
ghost use Rattle.apron_rules.specs.Clash.{IsFirstClash, IsSlotOf, IsSound};
ghost use Rattle.clash_check.specs.Clear.{IsClear};
ghost use Rattle.clash_check.specs.Indexed.{all_slots};
ghost use Rattle.visit_book.specs.PartFields.{part_at};
ghost use Rattle.visit_book.specs.WellFormed.{IsWellFormed};
ghost use Rattle.stand_proposer.specs.Trials.{IsTrial, IsTriedOn, slot_at};

use crate::Why;
use apron_base::{Listed, Memory, Slot, StandNo, Steps};
use apron_rules::{Airport, Clash, sooner};
use clash_check::{first_among, first_clash};
use stand_index::StandIndex;
use std::alloc::Global;
use std::sync::ledger::Ledger;
use visit_book::{Part, PartRow, Place, Visit, slot_of};

/// What came of trying the stands for a part.
#[derive(Drop)]
pub(crate) enum Tried {
    /// The slot of the part on the first stand that takes it.
    Fits(Slot),
    /// No stand takes it: the reason of each stand.
    Refused(Listed<Why>),
}

/// Tries the stands in order of number for a part of the visit that is on no stand, beside the
/// slots of the index and some more.
pub(crate) fn first_stand<L: Ledger>(
    alloc: Global,
    airport: &Airport,
    index: &StandIndex,
    more: &[Slot],
    visit: &Visit,
    row: &PartRow,
    steps: &mut Steps<L>,
) -> Result<Tried, Memory>
    requires clear { IsClear airport.now index.now [] }
    requires more { All (IsSlotOf airport.now) more.now }
    requires sound { IsSound airport.now (all_slots index.now ++ more.now) }
    requires visit { IsWellFormed airport.now visit.now }
    requires part { part_at visit.now.parts row.now.id.part ≡ Some row.now.part }
    ensures tried { IfOk result
        (IsTriedOn airport.now (all_slots index.now ++ more.now) visit.now row.now) }
{
    let mut whys = Listed::new(alloc);
    for number in 0..airport.parts().stands.len() {
        let slot = slot_at(airport, visit, row, StandNo(number as u16));
        match why_not(alloc, airport, index, more, &slot, steps)? {
            Some(why) => whys.push(why)?,
            None => return Ok(Tried::Fits(slot)),
        }
    }
    Ok(Tried::Refused(whys))
}

// The slot of the part if it is put on the stand.
fn slot_at(airport: &Airport, visit: &Visit, row: &PartRow, stand: StandNo) -> Slot
    requires visit { IsWellFormed airport.now visit.now }
    requires part { part_at visit.now.parts row.now.id.part ≡ Some row.now.part }
    requires stand { stand.0 < length airport.now.stands }
    ensures is { result ≡ slot_at airport.now visit.now row.now stand }
    ensures slot { IsSlotOf airport.now result }
{
    let part = Part {
        place: Place::Planned(stand),
        ..row.part
    };
    slot_of(airport, visit, row.id.part, &part).unwrap()
}

// Why the slot can't be added, if it can't. Whether the type fits is tested first, without a look
// at other slots.
fn why_not<L: Ledger>(
    alloc: Global,
    airport: &Airport,
    index: &StandIndex,
    more: &[Slot],
    slot: &Slot,
    steps: &mut Steps<L>,
) -> Result<Option<Why>, Memory>
    requires clear { IsClear airport.now index.now [] }
    requires more { All (IsSlotOf airport.now) more.now }
    requires sound { IsSound airport.now (all_slots index.now ++ more.now) }
    requires slot { IsSlotOf airport.now slot.now }
    ensures trial { IfOk result (IsTrial airport.now (all_slots index.now ++ more.now) slot.now) }
{
    if let Err(by) = airport.fits(slot.stand, slot.kind) {
        return Ok(Some(Why::Unfit(by)));
    }
    match first_clash_with(alloc, airport, index, more, slot, steps)? {
        Some(clash) => Ok(Some(Why::Clash(clash))),
        None => Ok(None),
    }
}

// The first clash with the slot added to those of the index and some more.
fn first_clash_with<L: Ledger>(
    alloc: Global,
    airport: &Airport,
    index: &StandIndex,
    more: &[Slot],
    slot: &Slot,
    steps: &mut Steps<L>,
) -> Result<Option<Clash>, Memory>
    requires clear { IsClear airport.now index.now [] }
    requires more { All (IsSlotOf airport.now) more.now }
    requires sound { IsSound airport.now (all_slots index.now ++ more.now) }
    requires slot { IsSlotOf airport.now slot.now }
    ensures first { IfOk result
        (IsFirstClash airport.now ((all_slots index.now ++ more.now) ++ slot.now ∷ [])) }
{
    let near = first_clash(alloc, airport, index, &[*slot], steps)?;
    Ok(sooner(near, first_among(airport, more, slot, steps)))
}
