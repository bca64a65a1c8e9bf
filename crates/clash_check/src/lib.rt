//! Which slots clash with changed ones, found among the neighbours of their stands. It knows
//! nothing of visits, versions, and who edits.
#![tactic(auto)]

mod clashes;
mod first;
mod laws;
mod near;

pub use clashes::{clashes_of, clashes_within};
pub use first::{first_clash, first_clash_without};
pub use laws::{clear_is_clear_without_any, meetings_are_first, order_by_part_is_one};
pub use near::first_among;
