// What a seat knows. Only contracts read these types: no value of them is made.
use std::collections::LinkedList;

/// Where a seat is in a call.
pub enum Stage {
    /// It has no number in flight.
    Idle,
    /// A number was drawn.
    Waiting,
    /// The machine was taken.
    Turn,
    /// The machine acted, and what it left was noted.
    Noted,
    /// The entry that the machine added is counted.
    Counted,
}

/// An ended call: its number, the machine's counts of faults that it found and left, and the entry
/// at risk that it left.
pub struct Call<E> {
    pub number: u64,
    pub found: u64,
    pub left: u64,
    pub at_risk: Option<E>,
}

/// The machine with which a board was made: its fixed part, the first number, and its count of
/// faults.
pub struct Start<F> {
    pub fixed: F,
    pub first: u64,
    pub faults: u64,
}

/// What a seat knows.
pub struct View<E, F> {
    /// A view that was taken in has none.
    pub start: Option<Start<F>>,
    /// The history that the seat has seen.
    pub seen: LinkedList<E>,
    /// What the seat with the shorter history had seen, until the next look.
    pub told: LinkedList<E>,
    /// The calls of the seat that had seen this.
    pub late: LinkedList<Call<E>>,
    /// The seat's ended calls.
    pub calls: LinkedList<Call<E>>,
    pub stage: Stage,
    /// The number in flight, except at the stage idle.
    pub number: u64,
    /// The count of faults that this call found.
    pub found: u64,
    /// The count of faults that this call left.
    pub left: u64,
    /// The entry at risk that this call found, and then the one that it left.
    pub at_risk: Option<E>,
    /// 1 if this call added an entry that is not counted yet.
    pub owes: u64,
    /// The seat found the numbers run out.
    pub exhausted: bool,
    /// Of the shares of all seats together.
    pub share: u64,
}
