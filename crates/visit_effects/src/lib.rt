//! What movement messages do to visits: which element of a message counts, which visit it means,
//! and which minute a clock time names. It knows no plan and no versions.
#![tactic(auto)]

mod clock_times;
mod effects;
mod laws;

pub use effects::{Movement, effect_of, movement_meant};
pub use laws::{effects_are_of_one_visit, happenings_keep_visits};
