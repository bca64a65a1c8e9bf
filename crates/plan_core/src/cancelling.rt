// Cancelling a visit.
ghost use Rattle.std.specs.Prelude.{◌≡◌, map};
ghost use Rattle.plan_core.specs.Moving.{cancelled_visit, lifted_part};

use visit_book::{End, Part, Parts, Place, Visit};

/// The visit cancelled: none of its parts is on a stand, or has a record of what took its stand.
pub(crate) fn cancelled_visit(visit: &Visit) -> Visit
    ensures is { result ≡ cancelled_visit visit.now }
{
    Visit {
        parts: all_lifted(visit.parts),
        end: End::Cancelled,
        ..*visit
    }
}

fn all_lifted(parts: Parts) -> Parts
    ensures is { result ≡ map lifted_part parts }
{
    let mut made = parts;
    for index in 0..parts.len() {
        let part = parts.as_slice()[index];
        made = made.with(index as u8 + 1, lifted_part(part));
    }
    made
}

fn lifted_part(part: Part) -> Part
    ensures is { result ≡ lifted_part part }
{
    Part {
        place: Place::Unplaced(None),
        ..part
    }
}
