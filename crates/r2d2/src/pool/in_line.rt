// Those who wait in line: who has its turn is served.
ghost use Rattle.std.specs.Prelude.{◌≡◌, ◌<◌, ◌+◌, IsSome, IfSome, IfOk, IfErr, OnErr, MatchOption};
ghost use Rattle.std.specs.Prelude.{None};
ghost use Rattle.std.specs.Option.{IsNone};
ghost use Rattle.std.specs.Result.{IsOk};
ghost use Rattle.std.specs.Sync.Mutex.{mutex_guard_value};
ghost use Rattle.pool_state.specs.Failed.{one_more};
ghost use Rattle.r2d2.specs.Failures.{IsOfAGet};

use super::call_time::CallTime;
use super::lent::Lent;
use super::locking::Shared;
use crate::{Error, ErrorKind};
use pool_state::engine::{TakeCounter, TakeTotal};
use pool_state::{Look, PoolState};
use std::alloc::AllocGlobal;
use std::rt::Clock;
use std::sync::{MutexGuard, Wait};
use std::time::Duration;

impl<P: Drop, C: TakeCounter, M, K, R: Clock + Wait + AllocGlobal> Shared<
    PoolState<P, C>,
    M,
    K,
    R,
> {
    /// As `lend_until`, for a call that stands in line at this place, or nowhere yet, and waits
    /// there until it has its turn. One that is lent a connection keeps the place if it asks for
    /// that, so that it is the first again if the check fails; an error leaves none.
    pub(super) fn take_in_line(
        &self,
        timeout: Duration,
        time: &mut CallTime,
        place: &mut Option<u32>,
        keeps_place: bool,
        tally: &mut C::Tally,
    ) -> Result<Lent<P>, Error>
        requires { 0 < C.parts tally.old }
        ensures parts { C.parts tally.new ≡ C.parts tally.old }
        ensures lent { IfOk result (λ _. C.amount tally.new ≡ C.amount tally.old + C.per_take) }
        ensures refused { OnErr result (C.amount tally.new ≡ C.amount tally.old) }
        ensures error { IfErr result IsOfAGet }
    {
        // Modelled in model/waiting.pml: keep both alike.
        let mut guarded = self.lock_for(time);
        for _ in self.rt.forever() {
            let now = self.moment();
            time.look(now);
            if guarded.book().is_closed() {
                return Err(self.leave_with(guarded, place, Error::closed()));
            }
            if self.tuning.asks_idle_times() {
                time.find(guarded.book().next_idle_since());
            }
            let since = guarded.since_with(time.start());
            let (look, to_wake) = guarded.look_in_line(now, place, keeps_place, tally);
            let slot = match look {
                Look::Found { id, value } => {
                    drop(guarded);
                    self.wake(to_wake);
                    return Ok(Lent { id, payload: value });
                }
                Look::Stands(slot) => {
                    guarded.wait_in_line(since);
                    slot
                }
                Look::Full => {
                    guarded.refuse();
                    drop(guarded);
                    self.wake(to_wake);
                    return Err(Error::full());
                }
            };
            // Before the wait, which lets the lock go.
            self.wake(to_wake);
            let left = time.left_of(timeout);
            let own = self.variable_of(slot);
            let (again, outcome) = own.wait_timeout(&self.rt, guarded, left);
            guarded = again;
            if outcome.timed_out() {
                time.look(self.moment());
                return Err(self.give_up_in_line(guarded, place, time));
            }
        }
        unreachable!()
    }
}

impl<P: Drop, C: TakeTotal, M, K, R: Clock + Wait + AllocGlobal> Shared<PoolState<P, C>, M, K, R> {
    // Leaves the line, with this error.
    fn leave_with(
        &self,
        mut guarded: MutexGuard<'_, PoolState<P, C>>,
        place: &mut Option<u32>,
        error: Error,
    ) -> Error
        ensures error { result ≡ error }
        ensures gone { place.new ≡ None }
    {
        let to_wake = guarded.leave(place);
        drop(guarded);
        self.wake(to_wake);
        error
    }

    // Gives up, as one that does not stand in line: who was notified passes it on.
    fn give_up_in_line(
        &self,
        mut guarded: MutexGuard<'_, PoolState<P, C>>,
        place: &mut Option<u32>,
        time: &CallTime,
    ) -> Error
        ensures kind { result.kind ≡ ErrorKind.Timeout }
        ensures gone { place.new ≡ None }
        ensures counted { IfSome result.status (λ status. status.timeouts
            ≡ one_more (mutex_guard_value guarded.entry).failures.timeouts) }
    {
        // Modelled in model/waiting.pml: keep both alike.
        let ahead = guarded.ahead_of(*place);
        let to_wake = guarded.leave(place);
        guarded.give_up();
        let status = guarded.status();
        let error = guarded.take_error();
        drop(guarded);
        self.wake(to_wake);
        Error::timeout(self.rt.alloc(), error, status, time.waited(), Some(ahead))
    }

    /// A call whose check is over leaves the line, if it stands in it.
    pub(super) fn leave_line(&self, place: &mut Option<u32>)
        ensures gone { place.new ≡ None }
    {
        // Modelled in model/waiting.pml: keep both alike.
        if place.is_none() {
            return;
        }
        let mut guarded = self.lock();
        let to_wake = guarded.leave(place);
        drop(guarded);
        self.wake(to_wake);
    }
}
