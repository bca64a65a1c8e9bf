// What a board with watches is asked, and what no ask changes of it.
use crate::watch::Watched;
use apron_base::Name;
use apron_rules::AirportParts;
use desk_asks::Ask;
use std::collections::LinkedList;

/// What a board with watches is asked.
#[derive(Debug, Drop)]
pub enum WatchAsk {
    /// What a board is asked.
    Plain(Ask),
    /// The notes that the watch of this name is fed with.
    Feed {
        /// The greatest version of the plan that the desk says it has seen, or 0 if it says none.
        seen: u32,
        watch: Name,
        /// The notes are of entries after this one: 0 for those of all.
        after: u32,
    },
}

/// The airport and the watches, which no ask changes. No value of it is made.
pub struct WatchFixed<R> {
    pub airport: AirportParts,
    pub watches: LinkedList<Watched<R>>,
}
