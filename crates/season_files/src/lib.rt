//! Season files: visits to be added, as a table of nine columns, read and written. It knows no
//! plan, and adds nothing.
#![tactic(auto)]

mod csv_writing;
mod faults;
mod laws;
mod read;
mod records;
mod write;

pub use faults::SeasonFault;
pub use laws::seasons_are_read_back;
pub use read::read_season;
pub use write::write_season;
