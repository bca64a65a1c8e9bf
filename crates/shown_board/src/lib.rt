//! A board whose plan is shown on screens: a machine at which desks take turns, and whose writers
//! show the chart of its plan after each ask. It knows nothing of threads and connections, nor of
//! who looks at the screens.
#![tactic(auto)]

mod charts;
mod desks;
mod hall;
mod note;
mod show;

pub use hall::{Hall, HallFixed};
pub use note::HallNote;
