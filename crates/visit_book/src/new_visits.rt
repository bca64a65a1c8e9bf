// Visits as they are added.
ghost use Rattle.std.specs.Prelude.{◌≡◌, ◌<◌, length, option_to_list};
ghost use Rattle.std.specs.List.{list_all};
ghost use Rattle.visit_book.specs.NewVisits.{added_visit, is_in_time, is_key_in_time, new_of};

use crate::changes::{are_apart, least_of};
use crate::{End, Key, NewVisit, Part, Parts, Place, Visit};
use apron_base::VisitNo;
use apron_rules::Airport;

/// The visit of this number, added by the entry that makes this version: expected, with one part
/// from on block to off block that is on no stand yet. It takes no memory.
pub fn added_visit(number: VisitNo, version: u32, new: &NewVisit) -> Visit
    ensures is { result ≡ added_visit number.0 version new.now }
{
    Visit {
        number,
        name: new.name,
        kind: new.kind,
        class: new.class,
        on: new.on,
        off: new.off,
        arr: new.arr,
        dep: new.dep,
        parts: Parts::one(Part {
            from: new.on,
            to: new.off,
            place: Place::Unplaced(None),
        }),
        on_block: false,
        end: End::Live,
        added: version,
        edited: 0,
    }
}

/// Whether the times are valid at the airport: on block before the plan ends; off block by then,
/// and at least the least minutes of the type later; and flights of days of the plan or the day
/// before.
pub fn is_in_time(airport: &Airport, new: &NewVisit) -> bool
    requires kind { new.now.kind.0 < length airport.now.types }
    ensures is { result ≡ is_in_time airport.now new.now }
{
    let end = airport.minutes();
    let least = least_of(airport, new.kind);
    new.on < end
        && new.off <= end
        && are_apart(least, new.on, new.off)
        && is_flight_in_time(airport, &new.arr)
        && is_flight_in_time(airport, &new.dep)
}

// Whether the flight, if there is one, is of a day of the plan or the day before.
fn is_flight_in_time(airport: &Airport, key: &Option<Key>) -> bool
    ensures is { result ≡ list_all (is_key_in_time airport.now) (option_to_list key.now) }
{
    match key {
        Some(key) => key.day as u32 <= airport.parts().days,
        None => true,
    }
}

/// What a visit was added with. It takes no memory.
pub fn new_of(visit: &Visit) -> NewVisit
    ensures is { result ≡ new_of visit.now }
{
    NewVisit {
        name: visit.name,
        kind: visit.kind,
        class: visit.class,
        on: visit.on,
        off: visit.off,
        arr: visit.arr,
        dep: visit.dep,
    }
}
