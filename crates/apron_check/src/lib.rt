//! Checks the airport file and the type file: the airport and its digests, or why there is none, and
//! the lines that `check` prints. It knows nothing of plans and desks.
#![tactic(auto)]

mod faults;
mod files;
mod line;

pub use faults::FilesFault;
pub use files::{AirportFiles, MAX_FILE, airport_of};
pub use line::{put_both, put_counts, put_fault, put_number};
