// Those who wait at the callers' variable: a caller, the maker of a pool, and who drains one.
ghost use Rattle.std.specs.Prelude.{◌≡◌, ◌<◌, ◌+◌, ◌↔◌, IsSome, IfSome, MatchOption, IfOk, IfErr};
ghost use Rattle.std.specs.Prelude.{OnErr};
ghost use Rattle.std.specs.Option.{IsNone};
ghost use Rattle.std.specs.Result.{IsOk};
ghost use Rattle.std.specs.Duration.{as_nanos};
ghost use Rattle.std.specs.Sync.Mutex.{mutex_guard_value};
ghost use Rattle.r2d2.specs.CallTime.{looked_at, waited_of, left_of};
ghost use Rattle.pool_state.specs.Status.{IsStatus};
ghost use Rattle.pool_state.specs.Failed.{one_more};
ghost use Rattle.r2d2.specs.Failures.{IsOfAGet};

use super::call_time::CallTime;
use super::lent::Lent;
use super::locking::{Shared, pause};
use crate::{Error, ErrorKind};
use pool_state::engine::{TakeCounter, TakeTotal};
use pool_state::waiters::Waiting;
use pool_state::{PoolState, Status, ToWake, Turn, has_passed};
use r2d2_core::Take;
use std::alloc::AllocGlobal;
use std::rt::Clock;
use std::sync::{MutexGuard, Wait};
use std::time::Duration;

/// How often a caller looks again before it waits.
const LOOKS: u32 = 12;

/// How often it looks whether one that was woken, and is to come first, has come; and for how many
/// nanoseconds at most.
const LOOKS_FOR_OTHERS: u32 = 200;

const PATIENCE_FOR_OTHERS: u128 = 1_000_000;

impl<P: Drop, C: TakeCounter, M, K, R: Clock + Wait + AllocGlobal> Shared<
    PoolState<P, C>,
    M,
    K,
    R,
> {
    /// As `lend_until`; and with no timeout as `lend_once`.
    #[inline(always)]
    pub(super) fn lend(
        &self,
        timeout: Option<Duration>,
        time: &mut CallTime,
        tally: &mut C::Tally,
    ) -> Result<Option<Lent<P>>, Error>
        requires { 0 < C.parts tally.old }
        ensures parts { C.parts tally.new ≡ C.parts tally.old }
        ensures lent { IfOk result
            (λ found. MatchOption found (C.amount tally.new ≡ C.amount tally.old)
            (λ _. C.amount tally.new ≡ C.amount tally.old + C.per_take)) }
        ensures refused { OnErr result (C.amount tally.new ≡ C.amount tally.old) }
        ensures error { IfErr result IsOfAGet }
        ensures full { IfErr result (λ error. error.kind ≡ ErrorKind.QueueFull
            → IsSome self.now.tuning.max_waiting) }
        ensures waits { IsSome timeout → IfOk result IsSome }
        ensures at_once { IsNone timeout → IsOk result }
        ensures looks { IfOk result (λ found. IsSome found → IsSome time.new.start) }
    {
        match timeout {
            Some(timeout) => Ok(Some(self.lend_until(timeout, time, tally)?)),
            None => Ok(self.lend_once(time, tally)),
        }
    }

    /// Takes the idle connection that is lent next, if there is one that is kept for nobody, for a
    /// call that never waits: it orders none.
    #[inline(always)]
    pub(super) fn lend_once(&self, time: &mut CallTime, tally: &mut C::Tally) -> Option<Lent<P>>
        requires { 0 < C.parts tally.old }
        ensures parts { C.parts tally.new ≡ C.parts tally.old }
        ensures lent { MatchOption result (C.amount tally.new ≡ C.amount tally.old)
            (λ _. C.amount tally.new ≡ C.amount tally.old + C.per_take) }
        ensures looks { IsSome result → IsSome time.new.start }
    {
        let mut guarded = self.lock_for(time);
        if !time.may_take(guarded.book().idle()) {
            return None;
        }
        let now = self.look_at(&guarded, time);
        let (taken, ordered) = guarded.look_once(now, tally);
        drop(guarded);
        self.wake(ToWake::workers_if(ordered));
        match taken {
            Take::Found { id, value, .. } => Some(Lent { id, payload: value }),
            Take::Empty { .. } => None,
        }
    }

    /// Takes the idle connection that is lent next. If there is none it orders one and waits, until
    /// the call's timeout has passed, or until the pool is closed: each is an error.
    #[inline(always)]
    pub(super) fn lend_until(
        &self,
        timeout: Duration,
        time: &mut CallTime,
        tally: &mut C::Tally,
    ) -> Result<Lent<P>, Error>
        requires { 0 < C.parts tally.old }
        ensures parts { C.parts tally.new ≡ C.parts tally.old }
        ensures lent { IfOk result (λ _. C.amount tally.new ≡ C.amount tally.old + C.per_take) }
        ensures refused { OnErr result (C.amount tally.new ≡ C.amount tally.old) }
        ensures error { IfErr result IsOfAGet }
        ensures full { IfErr result (λ error. error.kind ≡ ErrorKind.QueueFull
            → IsSome self.now.tuning.max_waiting) }
        ensures looks { IsOk result → IsSome time.new.start }
    {
        // Modelled in model/waiting.pml: keep both alike.
        let mut guarded = self.lock_for(time);
        if !guarded.is_free() {
            guarded = match self.look_before_wait(guarded, time) {
                Some(guarded) => guarded,
                None => return Err(Error::full()),
            };
        }
        let now = self.look_at(&guarded, time);
        let (turn, ordered) = guarded.look(now, time.start(), tally);
        match turn {
            Turn::Found { id, value } => {
                drop(guarded);
                self.wake(ToWake::workers_if(ordered));
                Ok(Lent { id, payload: value })
            }
            Turn::Waits(waiting) => {
                self.wake(ToWake::workers_if(ordered));
                self.wait_for_turn(guarded, waiting, timeout, time, tally)
            }
            // So nothing was ordered, and there is nobody to wake.
            Turn::Closed => Err(Error::closed()),
        }
    }

    // Waits, and looks again each time that it is woken.
    fn wait_for_turn<'a>(
        &'a self,
        mut guarded: MutexGuard<'a, PoolState<P, C>>,
        mut waiting: Waiting,
        timeout: Duration,
        time: &mut CallTime,
        tally: &mut C::Tally,
    ) -> Result<Lent<P>, Error>
        requires parts { 0 < C.parts tally.old }
        requires begun { IsSome time.old.start }
        ensures parts { C.parts tally.new ≡ C.parts tally.old }
        ensures lent { IfOk result (λ _. C.amount tally.new ≡ C.amount tally.old + C.per_take) }
        ensures refused { OnErr result (C.amount tally.new ≡ C.amount tally.old) }
        ensures error { IfErr result IsOfAGet }
        ensures full { IfErr result (λ error. error.kind ≡ ErrorKind.QueueFull
            → IsSome self.now.tuning.max_waiting) }
        ensures looks { IsSome time.new.start }
    {
        // Modelled in model/waiting.pml: keep both alike.
        for _ in self.rt.forever() {
            let left = time.left_of(timeout);
            let (again, outcome) = self.callers.wait_timeout(&self.rt, guarded, left);
            guarded = again;
            guarded.end_turn();
            if outcome.timed_out() {
                time.look(self.moment());
                let to_wake = guarded.give_up_wait(waiting, time.seen());
                return Err(self.give_up(guarded, to_wake, time.waited()));
            }
            // It is counted meanwhile, so that nobody else takes its place.
            guarded = self.look_again(guarded, self.moment());
            guarded.end_turn();
            let now = self.look_at(&guarded, time);
            let (turn, ordered) = guarded.look_again(now, waiting, tally);
            match turn {
                Turn::Found { id, value } => {
                    drop(guarded);
                    self.wake(ToWake::workers_if(ordered));
                    return Ok(Lent { id, payload: value });
                }
                Turn::Waits(still) => {
                    // Before the wait, which lets the lock go.
                    self.wake(ToWake::workers_if(ordered));
                    waiting = still;
                }
                Turn::Closed => return Err(Error::closed()),
            }
        }
        unreachable!()
    }
}

impl<P: Drop, C: TakeTotal, M, K, R: Clock + Wait + AllocGlobal> Shared<PoolState<P, C>, M, K, R> {
    /// Takes the lock for a call. One that has to wait for it, and looked at no clock before, does
    /// so first.
    #[inline(always)]
    pub(super) fn lock_for(&self, time: &mut CallTime) -> MutexGuard<'_, PoolState<P, C>>
        ensures { IsSome time.old.start → time.new ≡ time.old }
    {
        if let Some(guarded) = self.guarded.try_lock() {
            return guarded;
        }
        self.begin(time);
        self.lock_in_turn()
    }

    // A call's time begins now, where it did not look at the clock before.
    fn begin(&self, time: &mut CallTime)
        ensures begun { IsSome time.new.start }
        ensures once { IsSome time.old.start → time.new ≡ time.old }
    {
        if !time.has_begun() {
            time.look(self.moment());
        }
    }

    // Before a call waits for the first time, where none is idle, or one that was woken is to come
    // first: its time begins, it looks again, and gives way. None where as many wait as may.
    fn look_before_wait<'a>(
        &'a self,
        mut guarded: MutexGuard<'a, PoolState<P, C>>,
        time: &mut CallTime,
    ) -> Option<MutexGuard<'a, PoolState<P, C>>>
        ensures begun { IsSome result → IsSome time.new.start }
        ensures once { IsSome time.old.start → time.new ≡ time.old }
        ensures full { IsNone result → IsSome self.now.tuning.max_waiting }
    {
        if guarded.is_refused(self.tuning.max_waiting) {
            return None;
        }
        self.begin(time);
        guarded = self.look_again(guarded, time.seen());
        guarded = self.give_way(guarded, time.seen());
        if guarded.is_refused(self.tuning.max_waiting) {
            return None;
        }
        Some(guarded)
    }

    // Where one that was woken is to come first, lets the lock alone until it has come, or for about
    // as long as a wake takes.
    fn give_way<'a>(
        &'a self,
        mut guarded: MutexGuard<'a, PoolState<P, C>>,
        begun: Duration,
    ) -> MutexGuard<'a, PoolState<P, C>> {
        for looks in 0..LOOKS_FOR_OTHERS {
            if !guarded.is_anothers_turn() {
                return guarded;
            }
            drop(guarded);
            pause();
            guarded = self.lock();
            if looks % 4 == 0 && has_passed(begun, self.moment(), PATIENCE_FOR_OTHERS) {
                break;
            }
        }
        guarded.end_turn();
        guarded
    }

    // Where all are lent, lets the lock alone and looks again, a few times, for about as long as a
    // sleep and a wake take. So who has a connection for no longer makes nobody sleep. The clock is
    // read again after one look in four.
    fn look_again<'a>(
        &'a self,
        mut guarded: MutexGuard<'a, PoolState<P, C>>,
        begun: Duration,
    ) -> MutexGuard<'a, PoolState<P, C>> {
        if guarded.is_hurried(begun) {
            return guarded;
        }
        for looks in 0..LOOKS {
            if !guarded.is_all_lent() {
                break;
            }
            drop(guarded);
            pause();
            guarded = self.lock();
            if looks % 4 == 0 && guarded.hurry_if_long(begun, self.moment()) {
                break;
            }
        }
        guarded
    }

    // The moment of a look, with what it notes of the clock and of what is lent next.
    #[inline(always)]
    fn look_at(&self, guarded: &PoolState<P, C>, time: &mut CallTime) -> Duration
        ensures begun { IsSome time.new.start }
    {
        let now = self.moment();
        time.look(now);
        if self.tuning.asks_idle_times() {
            time.find(guarded.book().next_idle_since());
        }
        now
    }

    // Gives up after so long, as was counted: the timeout has the latest error of an opening or a
    // check, where one is known, and what the pool shows now.
    fn give_up(
        &self,
        mut guarded: MutexGuard<'_, PoolState<P, C>>,
        to_wake: ToWake,
        waited: Duration,
    ) -> Error
        ensures kind { result.kind ≡ ErrorKind.Timeout }
        ensures waited { IfSome result.waited (λ length. as_nanos length ≡ as_nanos waited) }
        ensures counted { IfSome result.status (λ status. status.timeouts
            ≡ (mutex_guard_value guarded.entry).failures.timeouts) }
    {
        // Modelled in model/waiting.pml: keep both alike.
        let status = guarded.status();
        let error = guarded.take_error();
        drop(guarded);
        self.wake(to_wake);
        Error::timeout(self.rt.alloc(), error, status, waited, None)
    }

    /// Gives up for a call whose time is over; None if some is left, or if it brought no timeout.
    #[inline(always)]
    pub(super) fn give_up_if_late(
        &self,
        timeout: Option<Duration>,
        time: &mut CallTime,
    ) -> Option<Error>
        ensures late { IfSome result (λ error. error.kind ≡ ErrorKind.Timeout) }
        ensures waited { IfSome result
            (λ error. IfSome error.waited (λ length. as_nanos length ≡ waited_of time.new)) }
        ensures at_once { IsNone timeout → IsNone result }
        ensures looks { IfSome timeout
            (λ _. (now : _) × (time.new ≡ looked_at (as_nanos now) time.old)) }
        ensures left { IfSome timeout
            (λ longest. IsNone result ↔ (0 < left_of (as_nanos longest) time.new)) }
    {
        let timeout = timeout?;
        time.look(self.moment());
        if !time.left_of(timeout).is_zero() {
            return None;
        }
        let mut guarded = self.lock();
        let to_wake = guarded.give_up_late(time.seen());
        Some(self.give_up(guarded, to_wake, time.waited()))
    }

    /// Waits until there are as many connections as are wanted, and as long as this at most. Past
    /// that it is a timeout, with the latest error of an opening or a check.
    pub(super) fn wait_for_build(&self, timeout: Duration) -> Result<(), Error>
        ensures { IfErr result (λ error. error.kind ≡ ErrorKind.Timeout) }
    {
        // Modelled in model/waiting.pml: keep both alike.
        let mut time = CallTime::new(Some(self.moment()));
        let (mut guarded, outcome) = self.callers.wait_timeout_while(
            &self.rt,
            self.guarded.lock(&self.rt),
            timeout,
            |guarded| guarded.has_to_build(),
        );
        if outcome.timed_out() {
            time.look(self.moment());
            let status = guarded.status();
            let error = guarded.take_error();
            return Err(Error::timeout(self.rt.alloc(), error, status, time.waited(), None));
        }
        Ok(())
    }

    /// Waits until nothing is lent, and as long as this at most. Past that it returns what there
    /// is.
    pub(super) fn wait_for_returns(&self, timeout: Duration) -> Result<(), Status>
        ensures { IfErr result (λ status. IsStatus status × (0 < status.lent)) }
    {
        // Modelled in model/waiting.pml: keep both alike.
        let start = self.moment();
        let mut guarded = self.guarded.lock(&self.rt);
        guarded.begin_drain(start);
        let (mut guarded, _outcome) = self.callers.wait_timeout_while(
            &self.rt,
            guarded,
            timeout,
            |guarded| guarded.has_to_drain(),
        );
        guarded.end_drain();
        let status = guarded.status();
        if status.lent > 0 {
            return Err(status);
        }
        Ok(())
    }
}
