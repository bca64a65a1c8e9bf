//! Tests of boards at which several desks take turns.
#![tactic(auto)]

#[cfg(test)]
mod counting;
#[cfg(test)]
mod tests;
#[cfg(test)]
mod waking;
