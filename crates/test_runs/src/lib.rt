//! What the program does with whole sessions, and with files, journals and input that end, fail or
//! are missing: tables of test cases, and nothing else.
#![tactic(auto)]

#[cfg(test)]
mod tests;
