//! What is wrong in an airport file, a type file or a season file, in words: the line, the key or the
//! column, the value and the rule. It is told of files that were refused, and refuses none itself.
#![tactic(auto)]

mod airport;
mod columns;
mod complaint;
mod dates;
mod documents;
mod inline;
mod key_lines;
mod records;
mod rules;
mod season;
mod types;

pub use airport::airport_fault;
pub use complaint::Complaint;
pub use dates::dates_of_season;
pub use season::{season_fault, season_row_there};
pub use types::types_fault;
