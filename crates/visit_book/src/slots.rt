// The slots that parts on stands hold.
ghost use Rattle.std.specs.Prelude.{◌≡◌, ◌≤◌, ◌<◌, length};
ghost use Rattle.visit_book.specs.Places.{IsPlaceOf, is_actual, stand_of};
ghost use Rattle.visit_book.specs.Slots.{slot_of, slot_on};
ghost use Rattle.visit_book.specs.WellFormed.{latest_end};

use crate::visits::{Part, Place, Visit};
use apron_base::{PartId, Slot, StandNo};
use apron_rules::Airport;

/// The slot of a part of the visit, counted from 1: the minutes for which it holds its stand, up to
/// the stand's buffer after its end. `None` if it is on no stand.
pub fn slot_of(airport: &Airport, visit: &Visit, number: u8, part: &Part) -> Option<Slot>
    requires place { IsPlaceOf airport.now part.now.place }
    requires to { part.now.to ≤ latest_end airport.now visit.now.kind }
    ensures is { result ≡ slot_of airport.now visit.now number part.now }
{
    let stand = stand_of_place(&part.place)?;
    Some(slot_on(airport, visit, number, part, stand))
}

fn slot_on(airport: &Airport, visit: &Visit, number: u8, part: &Part, stand: StandNo) -> Slot
    requires stand { stand.0 < length airport.now.stands }
    requires to { part.now.to ≤ latest_end airport.now visit.now.kind }
    ensures is { result ≡ slot_on airport.now visit.now number part.now stand }
{
    Slot {
        part: PartId {
            visit: visit.number,
            part: number,
        },
        kind: visit.kind,
        stand,
        from: part.from,
        end: part.to + airport.buffer(stand),
        actual: is_actual(&part.place),
    }
}

fn stand_of_place(place: &Place) -> Option<StandNo>
    ensures is { result ≡ stand_of place.now }
{
    match *place {
        Place::Unplaced(_) => None,
        Place::Planned(stand) | Place::Actual(stand) => Some(stand),
    }
}

/// Whether an aircraft is or was there in fact.
pub fn is_actual(place: &Place) -> bool
    ensures is { result ≡ is_actual place.now }
{
    matches!(place, Place::Actual(_))
}
