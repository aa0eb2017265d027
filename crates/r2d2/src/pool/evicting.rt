// What closes many connections at once: an eviction, and what it shares with a worker's reap.
ghost use Rattle.std.specs.Prelude.{◌≡◌, ◌<◌, ◌+◌, ◌*◌, ◌↔◌, IsTrue, IfOk, OnErr};
ghost use Rattle.pool_state.specs.Room.{HasRoom};

use super::PoolRuntime;
use super::locking::SharedOf;
use crate::ManageConnection;
use crate::event::ReleaseReason;
use crate::hooks::{Closed, PoolHooks};
use crate::payload::{Payload, PayloadOf};
use pool_state::engine::{TakeCounter, TakeTotal};
use pool_state::{ToWake, has_room};
use r2d2_core::{Book, Released};
use std::alloc::AllocError;

impl<C: TakeCounter, M: ManageConnection, K: PoolHooks<M>, R: PoolRuntime> SharedOf<C, M, K, R> {
    /// Closes what is idle now, and has what is lent now closed as it comes back. It returns how
    /// many were idle. The error is lack of memory for the list of those; then nothing has changed.
    pub(super) fn evict(&self, tally: &mut C::Tally) -> Result<usize, AllocError>
        requires { 0 < C.parts tally.old }
        ensures parts { C.parts tally.new ≡ C.parts tally.old }
        ensures amount { IfOk result
            (λ n. C.amount tally.new ≡ C.amount tally.old + n * C.per_take) }
        ensures refused { OnErr result (C.amount tally.new ≡ C.amount tally.old) }
    {
        // Modelled in model/waiting.pml: keep both alike.
        let max_size = self.status().max_size as usize;
        let mut evicted = Vec::with_capacity(self.rt.alloc(), max_size)?;
        let mut guarded = self.guarded.lock(&self.rt);
        let now = self.moment();
        let to_wake = if has_room(guarded.book(), &evicted) {
            guarded.evict(now, tally, &mut evicted)
        } else {
            ToWake::nobody()
        };
        drop(guarded);
        self.wake(to_wake);
        let count = evicted.len();
        for released in evicted.drain(..) {
            self.release(released, ReleaseReason::Evicted);
        }
        Ok(count)
    }
}

impl<C: TakeTotal, M: ManageConnection, K: PoolHooks<M>, R: PoolRuntime> SharedOf<C, M, K, R> {
    /// Releases what was closed under the lock.
    pub(super) fn release(&self, released: Released<PayloadOf<M>>, reason: ReleaseReason) {
        let Released { id, age, value } = released;
        let Payload { connection, .. } = value;
        self.hooks.release(Closed {
            id,
            age,
            reason,
            connection,
        });
    }
}
