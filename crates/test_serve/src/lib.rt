//! Tests of many desks at once over one journal.
#![tactic(auto)]

#[cfg(test)]
mod tests;
