//! Tests of `screen_feed` and `shown_board` by their public calls, at boards of the demo airport.
#![tactic(auto)]

#[cfg(test)]
mod tests;
