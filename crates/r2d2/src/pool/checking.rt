// What is lent is checked first, and what a failed check says of the others.
ghost use Rattle.std.specs.Prelude.{◌≡◌, ◌&&◌, Some, false, IfSome, IsTrue, IsFalse};
ghost use Rattle.std.specs.Option.{IsNone};
ghost use Rattle.pool_state.specs.Checks.{is_check_due};

use super::PoolRuntime;
use super::call_time::CallTime;
use super::lent::Lent;
use super::locking::SharedOf;
use crate::ManageConnection;
use crate::event::ReleaseReason;
use crate::hooks::{Closed, PoolHooks};
use crate::payload::{Payload, PayloadOf};
use pool_state::engine::{Settled, TakeTotal};
use pool_state::text_of;
use std::time::Duration;

impl<C: TakeTotal, M: ManageConnection, K: PoolHooks<M>, R: PoolRuntime> SharedOf<C, M, K, R> {
    /// Whether what a call took is checked before it is lent.
    #[inline(always)]
    pub(super) fn is_to_check(&self, time: &CallTime) -> bool
        ensures { result ≡ (self.now.checks
            && is_check_due self.now.tuning.test_if_idle_for time.now.idle_since
            time.now.step) }
    {
        self.checks && time.has_check_due(&self.tuning)
    }

    /// The connection, if it need not be checked, or its check finds it sound. Else it is closed.
    #[inline(always)]
    pub(super) fn if_sound(
        &self,
        mut lent: Lent<PayloadOf<M>>,
        is_checked: bool,
        time: &CallTime,
    ) -> Option<Lent<PayloadOf<M>>>
        ensures unchecked { is_checked ≡ false → self.now.tuning.evict_idle_on_failed_check ≡ false
            → result ≡ Some lent }
        ensures id { IfSome result (λ sound. sound.id ≡ lent.id) }
        ensures extensions { IfSome result
            (λ sound. sound.payload.extensions ≡ lent.payload.extensions) }
    {
        if self.tuning.evict_idle_on_failed_check && self.is_distrusted(time.idle_since()) {
            if let Some(closed) = self.give_back(lent, Some(ReleaseReason::Distrusted)) {
                self.hooks.release(closed);
            }
            return None;
        }
        if is_checked {
            if let Err(error) = self.manager.is_valid(&mut lent.payload.connection) {
                self.close_unsound(lent, error, time.step());
                return None;
            }
        }
        Some(lent)
    }

    // Closes a connection whose check failed, which began at this moment.
    fn close_unsound(&self, lent: Lent<PayloadOf<M>>, error: M::Error, began: Duration) {
        // Modelled in model/waiting.pml: keep both alike.
        let text = text_of(self.rt.alloc(), &error);
        self.hooks.error(error);
        let Lent { id, payload } = lent;
        let Payload { connection, .. } = payload;
        let distrusted_before = self.tuning.distrusts_before(began);
        let settled = self.step(|guarded, now| guarded.fail_check(
            now,
            id,
            text,
            distrusted_before,
        ));
        if let Settled::Gone(gone) = settled {
            self.hooks.release(Closed {
                id,
                age: gone.age,
                reason: ReleaseReason::CheckFailed,
                connection,
            });
        }
    }

    // Whether a check failed that began after this moment, since when a connection is idle.
    fn is_distrusted(&self, idle_since: Option<Duration>) -> bool
        ensures unknown { IsNone idle_since → IsFalse result }
    {
        match idle_since {
            Some(since) => self.lock().is_distrusted(since),
            None => false,
        }
    }
}
