//! Tests of the crates that read and write texts and bytes: movement messages, heads and bodies of
//! requests, season files, airport files, and the entries of a journal.
#![tactic(auto)]

#[cfg(test)]
mod tests;
