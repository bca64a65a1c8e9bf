//! The JSON bodies of requests, as `serde_json` reads them. It knows nothing of the airport and the
//! plan: a stand stays the text that was written.
#![tactic(auto)]

mod commits;
mod fields;
mod reports;
mod visits;

pub use commits::{CommitText, EditText, read_commit};
pub use fields::BodyFault;
pub use reports::{EventText, ReportText, read_cancel, read_report};
pub use visits::{VisitText, read_visit};
