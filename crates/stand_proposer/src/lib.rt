//! First-fit drafts: a stand for each part that waits, or why no stand takes it. It knows nothing
//! of histories and texts.
#![tactic(auto)]

mod proposals;
mod trials;

pub use proposals::{Left, Proposal, Why, propose};
