// What the steps of a core answer.

use std::time::Duration;

/// Why a step was refused. A refused step changes nothing, and its moment does not count.
#[derive(Clone, Copy, PartialEq, Eq, Debug)]
pub enum Refusal {
    /// The core is closed.
    Closed,
    /// The id is not lent.
    NotLent,
    /// No opening with these tries is in work.
    NoOpening,
    /// The next id would be `u64::MAX`, which is never given.
    IdsUsedUp,
    /// The id does not await its admission.
    NotNumbered,
}

/// What a take gave.
#[derive(Drop, Debug)]
pub enum Take<T> {
    /// The idle connection that was next in the lending order.
    Found {
        /// The connection's id: give it back under this one.
        id: u64,
        /// The moment of its admission.
        birth: Duration,
        /// What its owner keeps of it.
        value: T,
        /// How many openings were ordered.
        ordered: u32,
    },
    /// None was idle.
    Empty {
        /// How many openings were ordered.
        ordered: u32,
    },
}

/// A lent connection whose check failed is gone.
#[derive(Clone, Copy, Debug)]
pub struct Gone {
    /// How long ago it was admitted.
    pub age: Duration,
    /// How many openings were ordered.
    pub ordered: u32,
}

/// What became of a connection that came back.
#[derive(Drop, Debug)]
pub enum Returned<T> {
    /// It is the newest idle one.
    Kept,
    /// It is the caller's to close.
    Closed {
        /// What its owner keeps of it.
        value: T,
        /// How long ago it was admitted.
        age: Duration,
        /// How many openings were ordered.
        ordered: u32,
    },
}

/// A connection that a reap closed.
#[derive(Drop, Debug)]
pub struct Released<T> {
    /// Its id, which is not given again.
    pub id: u64,
    /// How long ago it was admitted.
    pub age: Duration,
    /// What its owner keeps of it: close it.
    pub value: T,
}
