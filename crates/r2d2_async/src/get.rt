// How a task comes to a connection.
ghost use Rattle.std.specs.Prelude.{◌≡◌, ◌⊎◌, ℕ, None, Some, IsSome, IfSome, IsSomeAnd, IfOk};
ghost use Rattle.std.specs.Prelude.{IfErr, ◌&&◌, false, is_some, option_map};
ghost use Rattle.std.specs.Duration.{as_nanos};
ghost use Rattle.futures.specs.Task.{Hears, IsArmed, Keeps};
ghost use Rattle.futures.specs.Poll.{IfReady, OnPending};
ghost use Rattle.r2d2.specs.Failures.{IsOfAGet};
ghost use Rattle.pool_state.specs.Checks.{is_check_due};
ghost use Rattle.r2d2_async.specs.Sources.{told_of, settings_of};

use crate::hooks::Hooks;
use crate::lent::PooledConnection;
use crate::message::message_of;
use crate::shared::{CloserOf, PayloadOf, SharedOf, Taken, take_idle};
use crate::{AsyncRuntime, ManageConnection, Timer};
use futures::spin::lock;
use futures::task::{Context, Poll};
use futures::{Future, ready};
use pool_state::text_of;
use pool_tasks::{CallSpan, GaveUp, Looked, TaskBook};
use r2d2::engine::Payload;
use r2d2::event::ReleaseReason;
use r2d2::hooks::Closed;
use r2d2::{Error, Extension, Extensions, Settings};
use r2d2_core::Gone;
use std::sync::Arc;
use std::time::Duration;

// A connection that is checked.
#[derive(Drop)]
struct Checking<X: Extension, K> {
    id: u64,
    extensions: Extensions<X>,
    // When it began.
    began: Duration,
    check: K,
}

// A connection that is to be lent.
#[derive(Drop)]
struct Found<P> {
    id: u64,
    payload: P,
    // The moment of the take, where nobody has to know a later one.
    taken_at: Option<Duration>,
}

type CheckingOf<M> = Checking<<M as ManageConnection>::Extension, <M as ManageConnection>::Check>;

type Output<M, T, K, R> = Result<PooledConnection<M, T, K, R>, Error>;

/// The future of `Pool::get`: the connection, or why there is none.
///
/// It may be dropped at any time, and nothing is lost: it leaves the line, and if it was notified
/// the next caller is; a connection under check is closed, and reported as one whose check failed.
/// One that is neither polled nor dropped keeps its place in line, and what it was notified of,
/// until its timeout has passed; and a connection under check for as long as it is kept.
pub struct Get<M: ManageConnection, T: Timer, K: Hooks<M>, R: AsyncRuntime> {
    // Moves to what is lent; None once it was ready.
    closer: Option<Arc<CloserOf<M, T, K, R>>>,
    // The slot in line, where it stands there.
    place: Option<u32>,
    checking: Option<CheckingOf<M>>,
    // Until its time is over; None until it has to wait.
    sleep: Option<T::Sleep>,
    timeout: Duration,
    // When it first looked: its time runs since then.
    start: Option<Duration>,
}

impl<M: ManageConnection, T: Timer, K: Hooks<M>, R: AsyncRuntime> Get<M, T, K, R> {
    #[inline(always)]
    pub(crate) fn new(closer: Arc<CloserOf<M, T, K, R>>, timeout: Duration) -> Get<M, T, K, R>
        ensures closer { result.closer ≡ Some closer }
        ensures checking { result.checking ≡ None }
        ensures sleep { result.sleep ≡ None }
    {
        Get {
            closer: Some(closer),
            place: None,
            checking: None,
            sleep: None,
            timeout,
            start: None,
        }
    }

    // It is pending at its own sources; so it waits for the time to run out too.
    #[cold]
    fn poll_sleep(&mut self, cx: &mut Context<'_>) -> Poll<Output<M, T, K, R>>
        requires closer { IsSome self.old.closer }
        requires sleeps { IfSome self.old.sleep T.Sleep.can_poll }
        ensures sleeps { OnPending result (IfSome self.new.sleep T.Sleep.can_poll) }
        ensures closer { OnPending result (self.new.closer ≡ self.old.closer) }
        ensures checking { OnPending result (self.new.checking ≡ self.old.checking) }
        ensures heard { OnPending result (IsSomeAnd self.new.sleep
            (λ sleep. (s : ℕ) → T.Sleep.needs sleep s → Hears cx.new s)) }
        ensures value { IfReady result (λ r. IfErr r IsOfAGet) }
        ensures settings { IfReady result
            (λ r. IfOk r (λ lent. Some lent.settings ≡ settings_of self.old.closer)) }
        ensures kept { Keeps cx.old cx.new }
    {
        if let Some(mut sleep) = self.sleep_left() {
            if sleep.poll(cx).is_pending() {
                self.sleep = Some(sleep);
                return Poll::Pending;
            }
        }
        let checking = self.checking.take();
        let closer = self.closer.take().unwrap();
        let shared = &closer.shared;
        let (timeout, start) = (self.timeout, self.start);
        let place = &mut self.place;
        Poll::Ready(Err(give_up::<M, T, K, R>(shared, timeout, start, place, checking)))
    }

    // The sleep for the rest of its time, which begins where it first has to wait; None where no
    // time is left then.
    fn sleep_left(&mut self) -> Option<T::Sleep>
        requires closer { IsSome self.old.closer }
        requires sleeps { IfSome self.old.sleep T.Sleep.can_poll }
        ensures sleeps { IfSome result T.Sleep.can_poll }
        ensures closer { self.new.closer ≡ self.old.closer }
        ensures checking { self.new.checking ≡ self.old.checking }
    {
        if let Some(sleep) = self.sleep.take() {
            return Some(sleep);
        }
        let closer = self.closer.as_ref().unwrap();
        let shared = &closer.shared;
        // A check may have taken long, though it ended in its first poll.
        let now = shared.moment();
        let waited = now.saturating_sub(self.start.unwrap_or(now));
        let left = self.timeout.saturating_sub(waited);
        if left.is_zero() {
            return None;
        }
        Some(shared.timer.sleep(left))
    }

    // One poll of a check, if there is one: what to lend. None where it has to look.
    #[cold]
    fn poll_check(&mut self, cx: &mut Context<'_>) -> Poll<Option<Found<PayloadOf<M>>>>
        requires checks { IfSome self.old.checking (λ c. M.Check.can_poll c.check) }
        ensures checks { IfSome self.new.checking (λ c. M.Check.can_poll c.check) }
        ensures sleep { self.new.sleep ≡ self.old.sleep }
        ensures closer { self.new.closer ≡ self.old.closer }
        ensures ready { IfReady result (λ _. self.new.checking ≡ None) }
        ensures pending { OnPending result (IsSome self.new.checking) }
        ensures heard { OnPending result (IsArmed cx.new
            × IfSome self.new.checking (λ c. (s : ℕ) → M.Check.needs c.check s → Hears cx.new s)) }
        ensures kept { Keeps cx.old cx.new }
    {
        let Some(
            Checking {
                id,
                extensions,
                began,
                mut check,
            },
        ) = self.checking.take()
        else {
            return Poll::Ready(None);
        };
        let (connection, answer) = match check.poll(cx) {
            Poll::Ready(checked) => checked,
            Poll::Pending => {
                self.checking = Some(Checking {
                    id,
                    extensions,
                    began,
                    check,
                });
                return Poll::Pending;
            }
        };
        match (answer, &self.closer) {
            (Ok(()), _) => Poll::Ready(Some(Found {
                id,
                payload: Payload {
                    connection,
                    extensions,
                },
                taken_at: None,
            })),
            (Err(error), Some(closer)) => {
                close_unsound::<M, T, K, R>(&closer.shared, id, connection, error, began);
                Poll::Ready(None)
            }
            (Err(_), None) => Poll::Ready(None),
        }
    }

    // One look under the lock: what it takes.
    #[inline(always)]
    fn look(&mut self, cx: &mut Context<'_>) -> Poll<Result<Taken<PayloadOf<M>>, Error>>
        requires closer { IsSome self.old.closer }
        ensures checking { self.new.checking ≡ self.old.checking }
        ensures sleep { self.new.sleep ≡ self.old.sleep }
        ensures closer { self.new.closer ≡ self.old.closer }
        ensures refused { IfReady result (λ r. IfErr r IsOfAGet) }
        ensures heard { OnPending result (IsArmed cx.new
            × IfSome self.new.closer (λ closer. Hears cx.new (told_of closer))) }
        ensures kept { Keeps cx.old cx.new }
    {
        let closer = self.closer.as_ref().unwrap();
        let shared = &closer.shared;
        let Some(mut tasks) = lock(&shared.tasks) else {
            return cx.yield_now();
        };
        let now = shared.moment();
        let start = self.start.unwrap_or(now);
        self.start = Some(start);
        tasks.pass_late(now);
        // Who comes takes what is kept for nobody: then it needs no place, and no sleep.
        if self.place.is_none() && tasks.book().idle() > 0 {
            if let Some(taken) = take_idle(&mut tasks, now) {
                return Poll::Ready(Ok(taken));
            }
        }
        let end = start.saturating_add(self.timeout);
        let call = CallSpan { start, end };
        poll_place::<M, T, K, R>(shared, &mut tasks, now, call, cx, &mut self.place)
    }

    // What it took, where it is lent without a check; else its check begins, or it is closed.
    #[inline(always)]
    fn if_unchecked(&mut self, taken: Taken<PayloadOf<M>>) -> Option<Found<PayloadOf<M>>>
        requires closer { IsSome self.old.closer }
        requires checking { self.old.checking ≡ None }
        ensures checks { IfSome self.new.checking (λ c. M.Check.can_poll c.check) }
        ensures due { IfSome (settings_of self.old.closer)
            (λ settings. settings.tuning.evict_idle_on_failed_check ≡ false
            → is_some self.new.checking ≡ (settings.config.test_on_check_out
            && is_check_due settings.tuning.test_if_idle_for
            (option_map as_nanos taken.idle_since) (as_nanos taken.at))) }
        ensures sleep { self.new.sleep ≡ self.old.sleep }
        ensures closer { self.new.closer ≡ self.old.closer }
    {
        let Taken {
            id,
            payload,
            at,
            idle_since,
        } = taken;
        let closer = self.closer.as_ref().unwrap();
        let shared = &closer.shared;
        if shared.settings.tuning.evict_idle_on_failed_check && shared.is_distrusted(idle_since) {
            shared.put_back(id, payload, Some(ReleaseReason::Distrusted));
            return None;
        }
        if !shared.settings.config.test_on_check_out
            || !shared.settings.tuning.is_check_due(idle_since, at)
        {
            return Some(Found {
                id,
                payload,
                taken_at: Some(at),
            });
        }
        let Payload {
            connection,
            extensions,
        } = payload;
        let check = shared.manager.check(connection);
        self.checking = Some(Checking {
            id,
            extensions,
            began: at,
            check,
        });
        None
    }

    // One look, and one poll of the check: what to lend.
    #[inline(always)]
    fn poll_lent(&mut self, cx: &mut Context<'_>) -> Poll<Result<Found<PayloadOf<M>>, Error>>
        requires closer { IsSome self.old.closer }
        requires checks { IfSome self.old.checking (λ c. M.Check.can_poll c.check) }
        ensures checks { IfSome self.new.checking (λ c. M.Check.can_poll c.check) }
        ensures sleep { self.new.sleep ≡ self.old.sleep }
        ensures closer { self.new.closer ≡ self.old.closer }
        ensures refused { IfReady result (λ r. IfErr r IsOfAGet) }
        ensures armed { OnPending result (IsArmed cx.new) }
        ensures line { OnPending result (self.new.checking ≡ None
            → IfSome self.new.closer (λ closer. Hears cx.new (told_of closer))) }
        ensures check { OnPending result (IfSome self.new.checking
            (λ c. (s : ℕ) → M.Check.needs c.check s → Hears cx.new s)) }
        ensures kept { Keeps cx.old cx.new }
    {
        if self.checking.is_some() {
            if let Some(found) = ready!(self.poll_check(cx)) {
                return Poll::Ready(Ok(found));
            }
        }
        let taken = match ready!(self.look(cx)) {
            Ok(taken) => taken,
            Err(error) => return Poll::Ready(Err(error)),
        };
        if let Some(found) = self.if_unchecked(taken) {
            return Poll::Ready(Ok(found));
        }
        match ready!(self.poll_check(cx)) {
            Some(found) => Poll::Ready(Ok(found)),
            // It was unsound. Other tasks come first.
            None => cx.yield_now(),
        }
    }

    // Lends what it has, and leaves the line.
    #[inline(always)]
    fn lend(&mut self, found: Found<PayloadOf<M>>) -> PooledConnection<M, T, K, R>
        requires closer { IsSome self.old.closer }
        ensures settings { Some result.settings ≡ settings_of self.old.closer }
    {
        let closer = self.closer.take().unwrap();
        let Found {
            id,
            payload,
            taken_at,
        } = found;
        let shared = &closer.shared;
        shared.leave_line(&mut self.place);
        let lent_at = match taken_at {
            Some(moment) if !shared.settings.listens => moment,
            _ => shared.moment(),
        };
        if shared.settings.listens {
            let start = self.start.unwrap_or(lent_at);
            shared.hooks.check_out(id, start, lent_at);
        }
        PooledConnection {
            closer,
            id,
            lent_at,
            payload,
        }
    }
}

// A look under the lock of one who stands in line, or comes to stand there: what it takes.
fn poll_place<M: ManageConnection, T: Timer, K: Hooks<M>, R: AsyncRuntime>(
    shared: &SharedOf<M, T, K, R>,
    tasks: &mut TaskBook<PayloadOf<M>>,
    now: Duration,
    call: CallSpan,
    cx: &mut Context<'_>,
    place: &mut Option<u32>,
) -> Poll<Result<Taken<PayloadOf<M>>, Error>>
    ensures refused { IfReady result (λ r. IfErr r IsOfAGet) }
    ensures heard { OnPending result (IsArmed cx.new × Hears cx.new shared.now.told.id) }
    ensures kept { Keeps cx.old cx.new }
{
    let Settings { config, tuning, .. } = &shared.settings;
    let keeps_place = tuning.may_fail_check(config.test_on_check_out);
    match ready!(tasks.poll_look(now, call, cx, &shared.told, place, keeps_place)) {
        Looked::Closed => Poll::Ready(Err(Error::closed())),
        Looked::Full => Poll::Ready(Err(Error::full())),
        Looked::Found {
            id,
            payload,
            idle_since,
        } => Poll::Ready(Ok(Taken {
            id,
            payload,
            at: now,
            idle_since,
        })),
    }
}

// Leaves the line, and gives up a check: its connection goes with it.
#[cold]
fn abandon<M: ManageConnection, T: Timer, K: Hooks<M>, R: AsyncRuntime>(
    shared: &SharedOf<M, T, K, R>,
    mut place: Option<u32>,
    checking: Option<CheckingOf<M>>,
) {
    let checked = cut_off::<M>(checking).map(|(id, _began)| id);
    let gone = shared.abandon(&mut place, checked);
    tell_gone::<M, T, K, R>(shared, checked, gone);
}

// Gives up, since its time is over: so a check applies to others as a failed one does. It reports
// the timeout, and returns the error.
fn give_up<M: ManageConnection, T: Timer, K: Hooks<M>, R: AsyncRuntime>(
    shared: &SharedOf<M, T, K, R>,
    timeout: Duration,
    start: Option<Duration>,
    place: &mut Option<u32>,
    checking: Option<CheckingOf<M>>,
) -> Error
    ensures { IsOfAGet result }
{
    let check = cut_off::<M>(checking);
    let checked = check.map(|(id, _began)| id);
    let distrusted_before = match check {
        Some((_, began)) => shared.settings.tuning.distrusts_before(began),
        None => Duration::ZERO,
    };
    let GaveUp {
        at,
        gone,
        ahead,
        status,
        error,
    } = shared.give_up(place, checked, distrusted_before);
    tell_gone::<M, T, K, R>(shared, checked, gone);
    let waited = at.saturating_sub(start.unwrap_or(at));
    let alloc = shared.rt.alloc();
    let message = message_of(alloc, error, &status);
    shared.hooks.timeout(timeout);
    Error::timeout(alloc, message, status, waited, ahead)
}

// Drops a check before its end. It answers the connection's id, and when the check began.
fn cut_off<M: ManageConnection>(checking: Option<CheckingOf<M>>) -> Option<(u64, Duration)> {
    let Checking {
        id,
        began,
        check,
        ..
    } = checking?;
    drop(check);
    Some((id, began))
}

// Reports a connection that went with its check.
fn tell_gone<M: ManageConnection, T: Timer, K: Hooks<M>, R: AsyncRuntime>(
    shared: &SharedOf<M, T, K, R>,
    id: Option<u64>,
    gone: Option<Gone>,
) {
    if let (Some(id), Some(gone)) = (id, gone) {
        shared.hooks.gone(id, gone.age, ReleaseReason::CheckFailed);
    }
}

// Closes a connection whose check failed, which began at this moment.
fn close_unsound<M: ManageConnection, T: Timer, K: Hooks<M>, R: AsyncRuntime>(
    shared: &SharedOf<M, T, K, R>,
    id: u64,
    connection: M::Connection,
    error: M::Error,
    began: Duration,
) {
    let text = text_of(shared.rt.alloc(), &error);
    shared.hooks.error(error);
    let distrusted_before = shared.settings.tuning.distrusts_before(began);
    if let Some(gone) = shared.fail_check(id, text, distrusted_before) {
        shared.hooks.release(Closed {
            id,
            age: gone.age,
            reason: ReleaseReason::CheckFailed,
            connection,
        });
    }
}

impl<M: ManageConnection, T: Timer, K: Hooks<M>, R: AsyncRuntime> Future for Get<M, T, K, R> {
    type Output = Result<PooledConnection<M, T, K, R>, Error>;

    // It has not ended yet.
    ghost can_poll = { λ g. IsSome g.closer × (IfSome g.sleep T.Sleep.can_poll
        × IfSome g.checking (λ c. M.Check.can_poll c.check)) };

    // In line, that it is notified; else what its check waits for; and its time, for which it may
    // not wait without a sleep: that would need whatever there is.
    ghost needs = { λ g s. ((g.checking ≡ None)
        × IsSomeAnd g.closer (λ closer. s ≡ told_of closer))
        ⊎ (IsSomeAnd g.checking (λ c. M.Check.needs c.check s)
        ⊎ IfSome g.sleep (λ sleep. T.Sleep.needs sleep s)) };

    // A connection of a pool with the same settings; or an error of a `get`.
    ghost gives = { λ g r. IfOk r (λ lent. Some lent.settings ≡ settings_of g.closer)
        × IfErr r IsOfAGet };

    fn poll(&mut self, cx: &mut Context<'_>) -> Poll<Output<M, T, K, R>> {
        match self.poll_lent(cx) {
            Poll::Ready(Ok(found)) => Poll::Ready(Ok(self.lend(found))),
            Poll::Ready(Err(error)) => {
                self.closer = None;
                Poll::Ready(Err(error))
            }
            Poll::Pending => self.poll_sleep(cx),
        }
    }
}

impl<M: ManageConnection, T: Timer, K: Hooks<M>, R: AsyncRuntime> Drop for Get<M, T, K, R> {
    #[inline(always)]
    fn drop(self) {
        let Get {
            closer,
            place,
            checking,
            sleep: _,
            timeout: _,
            start: _,
        } = self;
        if let Some(closer) = closer {
            if place.is_some() || checking.is_some() {
                abandon::<M, T, K, R>(&closer.shared, place, checking);
            }
        }
    }
}
