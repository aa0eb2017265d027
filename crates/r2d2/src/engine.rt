//! What the pool does to its book while it holds the lock: one function for each thing, which says
//! whom to wake when the lock is free again. Beside it `Payload`, which a pool's book keeps, and
//! `open`, which needs no book and no lock.

pub use crate::payload::{Payload, open};
pub use pool_state::engine::{
    Counted, Outcome, Settled, Uncounted, Wakes, give_back, lend, lend_counted, settle, sweep,
};
