// How a caller comes to a connection.
ghost use Rattle.std.specs.Prelude.{◌≡◌, ◌≤◌, ◌<◌, ◌+◌, IfOk, IfErr, IfSome, IsSome};
ghost use Rattle.std.specs.Prelude.{Some, false, is_some};
ghost use Rattle.std.specs.Option.{IsNone};
ghost use Rattle.std.specs.Duration.{as_nanos};

use super::call_time::CallTime;
use super::lent::AnyConnection;
use super::locking::SharedOf;
use super::{AnyPool, PoolRuntime};
use crate::hooks::PoolHooks;
use crate::{Error, ErrorKind, ManageConnection};
use pool_state::engine::{TakeCounter, TakeTotal};
use std::sync::Arc;
use std::time::Duration;

impl<C: TakeCounter, M: ManageConnection, K: PoolHooks<M>, R: PoolRuntime> AnyPool<C, M, K, R> {
    ghost use Rattle.r2d2.specs.Failures.{IsOfMemory, IsOfAGet};

    /// Lends a connection that passed its check, and waits for one at most so long. With no timeout
    /// it does not wait, and orders none: it returns None if none is idle.
    #[inline(always)]
    pub(super) fn lend_within(
        &self,
        timeout: Option<Duration>,
        tally: &mut C::Tally,
    ) -> Result<Option<AnyConnection<C, M, K, R>>, Error>
        requires { 0 < C.parts tally.old }
        ensures settings { IfOk result (λ found. IfSome found (λ lent. lent.settings ≡ self.now)) }
        ensures refused { IfErr result IsOfAGet }
        ensures waits { IsSome timeout → IfOk result IsSome }
        ensures at_once { IsNone timeout → IfErr result IsOfMemory }
        ensures parts { C.parts tally.new ≡ C.parts tally.old }
        ensures amount { C.amount tally.old ≤ C.amount tally.new }
        ensures lent { IfOk result
            (λ found. IfSome found (λ _. C.amount tally.old + C.per_take ≤ C.amount tally.new)) }
    {
        // Modelled in model/waiting.pml: keep both alike.
        let shared = self.shared();
        let mut time = CallTime::new(shared.start_of_call());
        let closer = Arc::try_clone(&self.closer).map_err(|_| Error::memory())?;
        for _ in shared.rt.forever() {
            let found = match shared.lend(timeout, &mut time, tally) {
                Ok(Some(lent)) => lent,
                Ok(None) => return Ok(None),
                Err(error) => return Err(shared.tell_in_vain(error, timeout)),
            };
            let is_checked = shared.is_to_check(&time);
            if let Some(lent) = shared.if_sound(found, is_checked, &time) {
                let lent_at = shared.check_out(lent.id, is_checked, &time);
                return Ok(Some(AnyConnection {
                    closer,
                    lent_at,
                    lent,
                }));
            }
            if let Some(error) = shared.give_up_if_late(timeout, &mut time) {
                return Err(shared.tell_in_vain(error, timeout));
            }
        }
        unreachable!()
    }

    /// Whether callers wait in line: one without room is none.
    pub(super) fn is_in_line(&self) -> bool {
        !self.shared().slots.is_empty()
    }

    /// As `lend_within`, if callers wait in line. Who takes keeps its place until its check went
    /// well, so that it is the first again if it does not.
    #[cold]
    pub(super) fn lend_in_line(
        &self,
        timeout: Duration,
        tally: &mut C::Tally,
    ) -> Result<AnyConnection<C, M, K, R>, Error>
        requires { 0 < C.parts tally.old }
        ensures settings { IfOk result (λ lent. lent.settings ≡ self.now) }
        ensures refused { IfErr result IsOfAGet }
        ensures parts { C.parts tally.new ≡ C.parts tally.old }
        ensures amount { C.amount tally.old ≤ C.amount tally.new }
        ensures lent { IfOk result (λ _. C.amount tally.old + C.per_take ≤ C.amount tally.new) }
    {
        // Modelled in model/waiting.pml: keep both alike.
        let shared = self.shared();
        let mut time = CallTime::new(shared.start_of_call());
        let closer = Arc::try_clone(&self.closer).map_err(|_| Error::memory())?;
        let keeps_place = shared.tuning.may_fail_check(shared.checks);
        let mut place = None;
        for _ in shared.rt.forever() {
            let found = match shared.take_in_line(
                timeout,
                &mut time,
                &mut place,
                keeps_place,
                tally,
            ) {
                Ok(lent) => lent,
                Err(error) => return Err(shared.tell_in_vain(error, Some(timeout))),
            };
            let is_checked = shared.is_to_check(&time);
            if let Some(lent) = shared.if_sound(found, is_checked, &time) {
                shared.leave_line(&mut place);
                let lent_at = shared.check_out(lent.id, is_checked, &time);
                return Ok(AnyConnection {
                    closer,
                    lent_at,
                    lent,
                });
            }
            if let Some(error) = shared.give_up_if_late(Some(timeout), &mut time) {
                shared.leave_line(&mut place);
                return Err(shared.tell_in_vain(error, Some(timeout)));
            }
        }
        unreachable!()
    }
}

impl<C: TakeTotal, M: ManageConnection, K: PoolHooks<M>, R: PoolRuntime> SharedOf<C, M, K, R> {
    // The moment at which a call begins, where somebody sees it.
    fn start_of_call(&self) -> Option<Duration>
        ensures { is_some result ≡ self.now.listens }
    {
        if !self.listens {
            return None;
        }
        Some(self.moment())
    }

    // Reports that a connection is lent, and returns when. Where nobody listens and it was not
    // checked since, that is when it was taken.
    #[inline(always)]
    fn check_out(&self, id: u64, is_checked: bool, time: &CallTime) -> Duration
        ensures { self.now.listens ≡ false → is_checked ≡ false
            → as_nanos result ≡ time.now.step }
    {
        if !self.listens && !is_checked {
            return time.step();
        }
        let lent_at = self.moment();
        if self.listens {
            self.hooks.check_out(id, time.start(), lent_at);
        }
        lent_at
    }

    // Reports a call whose time ran out, and returns its error.
    fn tell_in_vain(&self, error: Error, timeout: Option<Duration>) -> Error
        ensures { result ≡ error }
    {
        if error.kind() == ErrorKind::Timeout {
            // Who brings no timeout never waited.
            self.hooks.timeout(timeout.unwrap_or(Duration::ZERO));
        }
        error
    }
}
