//! Watches: named filters of the parts that lost their stands, and a board that answers a desk which
//! asks for those that a watch picks, its feed. It knows nothing of requests.
#![tactic(auto)]

mod entry_notes;
mod feed_words;
mod later;
mod note;
mod noted_board;
mod watch;
mod watch_asks;
mod watch_board;
mod watch_feed;
mod watches;

pub use note::{Note, Shown, Stated};
pub use noted_board::notes_of;
pub use watch::{NoteTest, TestBy, Watch, Watched};
pub use watch_asks::{WatchAsk, WatchFixed};
pub use watch_board::WatchBoard;
pub use watch_feed::feed;
pub use watches::{MAX_WATCHES, WatchFault, Watches, limit_of_watches_is_as_defined};
