// Parts on stands with what ranks them, and what they do to one another.
use apron_base::{Minute, Slot};
use apron_rules::Rule;

/// A part on a stand, with the class and the scheduled minute on block of its visit.
#[derive(Clone, Copy, Debug)]
pub struct Ranked {
    pub class: u8,
    pub on: Minute,
    pub slot: Slot,
}

/// A planned part, a better one that it clashes with, and the first minute and the rule of their
/// clash.
#[derive(Clone, Copy, Debug)]
pub struct Conflict {
    pub blocker: Ranked,
    pub blocked: Ranked,
    pub minute: Minute,
    pub rule: Rule,
}

/// A part of the changed visit and another part that it clashes with, with the first minute and the
/// rule of their clash.
#[derive(Clone, Copy, Debug)]
pub struct KeptClash {
    pub own: Ranked,
    pub other: Ranked,
    pub minute: Minute,
    pub rule: Rule,
}
