//! Tests of the crates of plans: stand rules, dates and slots, boards and their openings, replies,
//! watches, and generated days.
#![tactic(auto)]

#[cfg(test)]
mod tests;
