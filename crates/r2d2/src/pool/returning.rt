// A lent connection comes back, and is kept or closed.
ghost use Rattle.std.specs.Prelude.{◌≡◌, IfSome};

use super::lent::Lent;
use super::locking::Shared;
use crate::Extension;
use crate::event::ReleaseReason;
use crate::hooks::Closed;
use crate::payload::Payload;
use pool_state::PoolState;
use pool_state::engine::TakeTotal;
use r2d2_core::Returned;
use std::rt::Clock;
use std::sync::Wait;

impl<X: Drop, E: Extension + Drop, C: TakeTotal, M, K, R: Clock + Wait> Shared<
    PoolState<Payload<X, E>, C>,
    M,
    K,
    R,
> {
    /// Puts a lent connection back. One that is unfit for some reason, too old, or evicted is
    /// closed, and so is each if the pool is closed: it returns that one.
    #[inline(always)]
    pub(super) fn give_back(
        &self,
        lent: Lent<Payload<X, E>>,
        unfit: Option<ReleaseReason>,
    ) -> Option<Closed<X>>
        ensures { IfSome result (λ closed. closed.id ≡ lent.id) }
    {
        let Lent { id, payload } = lent;
        let mut reason = ReleaseReason::Broken;
        let returned = self.step(|guarded, now| {
            reason = guarded.reason_of_return(id, unfit);
            let outlived = self.tuning.has_jitter()
                && guarded.is_outlived(&self.tuning, self.birth.created_at(), id, now);
            guarded.give_back(now, id, payload, unfit, outlived)
        });
        let Ok(Returned::Closed { value, age, .. }) = returned else {
            return None;
        };
        let Payload { connection, .. } = value;
        Some(Closed {
            id,
            age,
            reason,
            connection,
        })
    }
}
