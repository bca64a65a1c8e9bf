//! Screens: a writer shows the chart of one day of a plan, and a screen looks at what was shown
//! without waiting for anybody. It knows neither histories nor requests.
#![tactic(auto)]

mod appender;
mod book;
mod ends;
mod page;
mod sheet;
mod steps;

pub use ends::{Screen, ScreenWriter, Told};
pub use sheet::{Sheet, Unmade};
