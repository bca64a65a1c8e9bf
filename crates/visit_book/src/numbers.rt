// Visits by their numbers.
ghost use Rattle.std.specs.Prelude.{◌≡◌};
ghost use Rattle.std.specs.Option.{option_copied};
ghost use Rattle.visit_book.specs.Numbers.{IsNumbered, visit_at};

use crate::Visit;
use apron_base::VisitNo;

/// The visit of a number: `None` for 0 and for a number above the last one's.
pub fn visit_at(visits: &[Visit], number: VisitNo) -> Option<&Visit>
    requires numbered { IsNumbered visits.now }
    ensures is { option_copied result ≡ visit_at visits.now number }
{
    let place = number.0 as usize;
    if place >= 1 && place <= visits.len() {
        Some(&visits[place - 1])
    } else {
        None
    }
}
