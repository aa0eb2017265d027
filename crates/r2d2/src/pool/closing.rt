// How a pool ends.

use super::locking::Shared;
use pool_state::PoolState;
use pool_state::engine::TakeTotal;
use std::rt::Clock;
use std::sync::{Arc, Wait};

/// What pools and lent connections hold: when the last of them goes, the pool is closed.
pub struct Closer<P: Drop, C: TakeTotal, M: Drop, K: Drop, R: Clock + Wait + Drop> {
    pub(super) shared: Arc<Shared<PoolState<P, C>, M, K, R>>,
}

impl<P: Drop, C: TakeTotal, M: Drop, K: Drop, R: Clock + Wait + Drop> Drop
    for Closer<P, C, M, K, R> {
    // Closes the book, and drops what was idle, without events. The workers end even where such a
    // drop does not.
    fn drop(self) {
        // Modelled in model/waiting.pml: keep both alike.
        let Closer { shared } = self;
        drop(shared.close());
    }
}
