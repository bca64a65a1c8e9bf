//! What is printed of a first-fit draft for a desk: that the draft's number is used already, or the
//! lines of a proposal. It knows nothing of histories and words of the command line.
#![tactic(auto)]

mod drafts;
mod lines;
mod reasons;

pub use drafts::draft_text;
