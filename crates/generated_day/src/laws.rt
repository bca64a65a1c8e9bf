// What holds of the limits of a generated day. The law is the contract of a function that does
// nothing.
ghost use Rattle.std.specs.Prelude.{◌≡◌};
ghost use Rattle.generated_day.specs.Days.{most_made};

use crate::making_visits::MAX_MADE;

/// The most visits that a caller may ask for are the most that the contracts allow.
pub fn limit_of_visits_is_as_defined()
    ensures most { MAX_MADE ≡ most_made }
{}
