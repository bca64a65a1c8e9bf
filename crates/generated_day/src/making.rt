// A day in the making.
ghost use Rattle.std.specs.Prelude.{◌≡◌};
ghost use Rattle.generated_day.specs.DayAirport.{day_airport};

use apron_base::SteadyKeeper;
use history_core::Board;

/// A day in the making.
#[derive(Drop)]
pub(crate) struct Making<'a> {
    pub(crate) board: Board<'a, SteadyKeeper>,
    /// The generator's number.
    pub(crate) seed: u32,
    /// The number of the next draft.
    pub(crate) draft: u32,
    /// How many commits were refused.
    pub(crate) refused: u32,
    /// How many parts were reported as bumped.
    pub(crate) bumped: u32,
    ghost of_day: { board.airport ≡ day_airport },
}
