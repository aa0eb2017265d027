// How one waits until nothing is lent.
ghost use Rattle.std.specs.Prelude.{◌≡◌, ◌⊎◌, ◌<◌, ℕ, true, None, IfSome, IsSomeAnd, IfOk, IfErr};
ghost use Rattle.futures.specs.Task.{Covers, Hears, IsArmed, Keeps};
ghost use Rattle.futures.specs.Poll.{IfReady, OnPending};
ghost use Rattle.pool_state.specs.Status.{IsStatus};
ghost use Rattle.r2d2_async.specs.Sources.{returns_of};

use crate::hooks::Hooks;
use crate::shared::SharedOf;
use crate::{AsyncRuntime, ManageConnection, Timer};
use futures::Future;
use futures::spin::{lock, lock_or_give_up};
use futures::task::{Context, Poll};
use futures::util::wait_list::Ticket;
use r2d2::{Error, Status};
use std::sync::Arc;
use std::time::Duration;

/// The future of `Pool::drain`: it ends once nothing is lent. The error is the status when its time
/// was over, in which at least one connection is lent.
///
/// It may be dropped at any time; the pool stays closed.
pub struct Drain<M: ManageConnection, T: Timer, K: Hooks<M>, R: AsyncRuntime> {
    shared: Arc<SharedOf<M, T, K, R>>,
    ticket: Ticket,
    // None once its time was over.
    sleep: Option<T::Sleep>,
    // When it was made: it waits since then.
    start: Duration,
    // Whether it is counted among those who wait.
    is_counted: bool,
}

impl<M: ManageConnection, T: Timer, K: Hooks<M>, R: AsyncRuntime> Drain<M, T, K, R> {
    // Its memory is taken here: its place among those who wait for returns.
    pub(crate) fn new(
        shared: Arc<SharedOf<M, T, K, R>>,
        timeout: Duration,
    ) -> Result<Drain<M, T, K, R>, Error>
        ensures { IfOk result (λ drain. IfSome drain.sleep T.Sleep.can_poll) }
    {
        let start = shared.moment();
        let added = match lock(&shared.tasks) {
            Some(mut tasks) => tasks.add_drain(),
            None => return Err(Error::memory()),
        };
        let Ok(ticket) = added else {
            return Err(Error::memory());
        };
        let sleep = Some(shared.timer.sleep(timeout));
        Ok(Drain {
            shared,
            ticket,
            sleep,
            start,
            is_counted: false,
        })
    }

    // One poll of the time that is left; whether it is over.
    fn is_over(&mut self, cx: &mut Context<'_>) -> bool
        requires sleeps { IfSome self.old.sleep T.Sleep.can_poll }
        ensures over { result ≡ true → self.new.sleep ≡ None }
        ensures sleeps { IfSome self.new.sleep T.Sleep.can_poll }
        ensures shared { self.new.shared ≡ self.old.shared }
        ensures heard { (s : ℕ) → IsSomeAnd self.new.sleep (λ sleep. T.Sleep.needs sleep s)
            → Hears cx.new s }
        ensures kept { Keeps cx.old cx.new }
    {
        let Some(mut sleep) = self.sleep.take() else {
            return true;
        };
        if sleep.poll(cx).is_pending() {
            self.sleep = Some(sleep);
            return false;
        }
        true
    }
}

impl<M: ManageConnection, T: Timer, K: Hooks<M>, R: AsyncRuntime> Future for Drain<M, T, K, R> {
    type Output = Result<(), Status>;

    ghost can_poll = { λ d. IfSome d.sleep T.Sleep.can_poll };

    // That nothing is lent, and its time.
    ghost needs = { λ d s. (s ≡ returns_of d.shared)
        ⊎ IsSomeAnd d.sleep (λ sleep. T.Sleep.needs sleep s) };

    ghost gives = { λ _ r. IfErr r (λ status. IsStatus status × (0 < status.lent)) };

    fn poll(&mut self, cx: &mut Context<'_>) -> Poll<Result<(), Status>> {
        let is_over = self.is_over(cx);
        let shared = &self.shared;
        let Some(mut tasks) = lock(&shared.tasks) else {
            return cx.yield_now();
        };
        if tasks.lent() > 0 && !is_over {
            tasks.count_drain(self.start, &mut self.is_counted);
            return tasks.park_drain(cx, &shared.returned, self.ticket.key());
        }
        tasks.uncount_drain(&mut self.is_counted);
        let status = tasks.status();
        if status.lent > 0 {
            return Poll::Ready(Err(status));
        }
        Poll::Ready(Ok(()))
    }
}

impl<M: ManageConnection, T: Timer, K: Hooks<M>, R: AsyncRuntime> Drop for Drain<M, T, K, R> {
    fn drop(self) {
        let Drain {
            shared,
            ticket,
            sleep: _,
            start: _,
            is_counted,
        } = self;
        match lock_or_give_up(&shared.tasks) {
            Ok(mut tasks) => tasks.drop_drain(is_counted, ticket),
            Err(gave_up) => ticket.abandon(gave_up),
        }
    }
}
