// What a server says on standard error when it begins to serve.

use std::fmt;
use std::net::SocketAddr;
use tcp_desks::TimeLimits;

/// An address, how many listeners there are at it, each of one worker, and whom they serve.
#[derive(Clone, Copy)]
pub(crate) struct ListenAddress<'a> {
    pub(crate) address: &'a str,
    pub(crate) listeners: u32,
    pub(crate) served: Peers<'a>,
}

/// Whom an address serves.
#[derive(Clone, Copy)]
pub(crate) enum Peers<'a> {
    /// The desks at the journal of this path.
    Desks(&'a str),
    /// The screens of this day.
    Screens(&'a str),
}

/// An address, and how it is bound, with the port that the system chose if none was asked
/// for.
#[derive(Clone, Copy)]
pub(crate) struct BoundAddress<'a> {
    pub(crate) listen: ListenAddress<'a>,
    pub(crate) bound: Option<SocketAddr>,
}

/// Where desks and screens are served, on which journal, and for how long a peer may keep a worker.
#[derive(Clone, Copy)]
pub(crate) struct Opening<'a> {
    pub(crate) desks: BoundAddress<'a>,
    pub(crate) screens: Option<BoundAddress<'a>>,
    pub(crate) journal: &'a str,
    pub(crate) limits: TimeLimits,
}

impl Opening<'_> {
    /// Says all of it. If standard error fails too, all are served all the same.
    pub(crate) fn tell<R: Eprint>(&self, rt: &R) {
        tell_address(rt, self.desks);
        if let Some(screens) = self.screens {
            tell_address(rt, screens);
        }
        let limits = self.limits;
        let _ = eprintln!(rt; "apron: limits of time: {limits}");
        let journal = self.journal;
        let _ = eprintln!(rt; "apron: {journal} is open, and desks are served");
    }
}

// Says whom an address serves, as it is bound.
fn tell_address<R: Eprint>(rt: &R, at: BoundAddress<'_>) {
    match at.bound {
        Some(bound) => tell_served(rt, at.listen, bound),
        None => tell_served(rt, at.listen, at.listen.address),
    }
}

fn tell_served<R: Eprint, A: fmt::Display + Drop>(rt: &R, at: ListenAddress<'_>, bound: A) {
    let listeners = at.listeners;
    let _ = match at.served {
        Peers::Desks(journal) => {
            eprintln!(rt; "apron: listening at {bound}, workers: {listeners}, journal: {journal}")
        }
        Peers::Screens(day) => {
            eprintln!(rt; "apron: screens at {bound}, screens: {listeners}, day: {day}")
        }
    };
}
