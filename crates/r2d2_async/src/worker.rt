// How a worker opens and closes connections.
ghost use Rattle.std.specs.Prelude.{◌≡◌, ◌≢◌, ◌⊎◌, ◌-◌, ℕ, None, true, false, IfSome, IfOk, IsSomeAnd, vec_len};
ghost use Rattle.std.specs.Duration.{as_nanos};
ghost use Rattle.futures.specs.Task.{Covers, Hears, IsArmed, Keeps};
ghost use Rattle.futures.specs.Poll.{IfReady, OnPending};
ghost use Rattle.r2d2_async.specs.Sources.{orders_of};

use crate::hooks::Hooks;
use crate::shared::{PayloadOf, SharedOf};
use crate::{AsyncRuntime, ManageConnection, Timer};
use futures::Future;
use futures::spin::{lock, lock_or_give_up};
use futures::task::{Context, Poll};
use futures::util::wait_list::Ticket;
use pool_state::{has_room, reason_of_reap, text_of};
use r2d2::Error;
use r2d2::engine::{Outcome, Payload};
use r2d2_core::{Job, Limits, Refusal, Released};
use std::sync::Arc;
use std::time::Duration;

// An opening in work.
#[derive(Drop)]
struct Opening<K> {
    tries: u32,
    connect: K,
}

// A sleep until this moment.
#[derive(Drop)]
struct Sleeping<S> {
    due: Duration,
    sleep: S,
}

// What the book said.
#[derive(Clone, Copy)]
enum Next {
    Again,
    /// Until this moment, which is so far away.
    Sleep { due: Duration, length: Duration },
    Idle,
    Open(u32),
    /// What was closed is released, by what these limits say of it.
    Reap(Limits),
    End,
}

/// A worker of a pool: a future that opens connections and closes expired ones until the pool is
/// closed. As many openings go on at once as workers are spawned. `Status::workers` counts it from
/// its first poll until it has ended or is dropped.
///
/// It may be dropped at any time: an opening in work counts as one that failed, and is tried again
/// by another worker.
pub struct Worker<M: ManageConnection, T: Timer, K: Hooks<M>, R: AsyncRuntime> {
    shared: Arc<SharedOf<M, T, K, R>>,
    ticket: Ticket,
    opening: Option<Opening<M::Connect>>,
    // It is kept from poll to poll: a timer may wake whose sleep it drops.
    sleep: Option<Sleeping<T::Sleep>>,
    // The latest moment that it saw: the clock may fail for one reading.
    seen: Duration,
    expired: Vec<Released<PayloadOf<M>>>,
    // Whether it is counted among those at work.
    is_at_work: bool,
}

impl<M: ManageConnection, T: Timer, K: Hooks<M>, R: AsyncRuntime> Worker<M, T, K, R> {
    // Its memory is taken here: the list for what a reap closes, and its place among the workers.
    pub(crate) fn new(shared: Arc<SharedOf<M, T, K, R>>) -> Result<Worker<M, T, K, R>, Error>
        ensures fresh { IfOk result (λ worker. (worker.opening ≡ None) × (worker.sleep ≡ None)) }
        ensures at_work { IfOk result (λ worker. worker.is_at_work ≡ false) }
    {
        let room = shared.settings.config.max_size as usize;
        let expired = Vec::with_capacity(shared.rt.alloc(), room).map_err(|_| Error::memory())?;
        let added = match lock(&shared.tasks) {
            Some(mut tasks) => tasks.add_worker(),
            None => return Err(Error::memory()),
        };
        let Ok(ticket) = added else {
            return Err(Error::memory());
        };
        Ok(Worker {
            shared,
            ticket,
            opening: None,
            sleep: None,
            seen: Duration::ZERO,
            expired,
            is_at_work: false,
        })
    }

    // Asks the book, and lies down under the same lock where there is nothing to do now. It is at
    // work from its first question on, until it is to end.
    fn ask(&mut self, cx: &mut Context<'_>) -> Next
        requires opening { self.old.opening ≡ None }
        ensures shared { self.new.shared ≡ self.old.shared }
        ensures opening { self.new.opening ≡ None }
        ensures sleep { self.new.sleep ≡ self.old.sleep }
        ensures ends { result ≡ Next.End → self.new.is_at_work ≡ false }
        ensures works { result ≢ Next.End → result ≢ Next.Again → self.new.is_at_work ≡ true }
        ensures idle { result ≡ Next.Idle → Covers cx.new (λ s. s ≡ orders_of self.new.shared) }
        ensures sleeps { (d : _) (l : _) → result ≡ Next.Sleep d l
            → Covers cx.new (λ s. s ≡ orders_of self.new.shared) }
        ensures length { (d : _) (l : _) → result ≡ Next.Sleep d l
            → as_nanos l ≡ as_nanos d - as_nanos self.new.seen }
        ensures kept { Keeps cx.old cx.new }
    {
        let shared = &self.shared;
        let Some(mut tasks) = lock(&shared.tasks) else {
            return Next::Again;
        };
        let now = shared.moment();
        self.seen = self.seen.max(now);
        tasks.begin_work(&mut self.is_at_work);
        match tasks.ask(now, cx, &shared.ordered, self.ticket.key()) {
            Job::Open { tries } => Next::Open(tries),
            Job::Reap => {
                if has_room(tasks.book(), &self.expired) {
                    tasks.sweep(now, &mut self.expired);
                }
                Next::Reap(tasks.book().limits())
            }
            Job::Wait(due) => Next::Sleep {
                due,
                length: due.saturating_sub(self.seen),
            },
            Job::Nothing => Next::Idle,
            Job::Closed => {
                tasks.end_work(&mut self.is_at_work);
                Next::End
            }
        }
    }

    // What a connect came to.
    fn opened(&self, tries: u32, answer: Result<M::Connection, M::Error>) {
        let shared = &self.shared;
        let customized = match answer {
            Ok(mut connection) => match shared.hooks.customize(&mut connection) {
                Ok(()) => Ok(connection),
                Err(error) => Err(error),
            },
            Err(error) => Err(error),
        };
        match customized {
            Ok(connection) => self.admit(tries, connection),
            Err(error) => {
                let text = text_of(shared.rt.alloc(), &error);
                shared.fail(tries, text);
                shared.hooks.error(error);
            }
        }
    }

    // Gives an opened connection its id, reports it, and admits it.
    fn admit(&self, tries: u32, connection: M::Connection) {
        let shared = &self.shared;
        match shared.number(tries) {
            Some(Ok(id)) => {
                shared.hooks.acquire(id);
                let value = Payload::new(shared.rt.alloc(), connection);
                shared.settle(Outcome::Opened { id, value });
            }
            Some(Err(Refusal::IdsUsedUp)) => {
                drop(connection);
                shared.fail(tries, None);
            }
            // A pool that was closed meanwhile has no use for it. None other comes, since the
            // opening is in work.
            Some(Err(_)) | None => drop(connection),
        }
    }

    // Releases what a reap closed.
    fn release_expired(&mut self, limits: Limits)
        ensures shared { self.new.shared ≡ self.old.shared }
        ensures opening { self.new.opening ≡ self.old.opening }
        ensures sleep { self.new.sleep ≡ self.old.sleep }
    {
        let shared = &self.shared;
        for released in self.expired.drain(..) {
            let reason = reason_of_reap(&limits, released.age);
            shared.release(released, reason);
        }
    }

    // One poll of an opening.
    fn poll_opening(&mut self, cx: &mut Context<'_>) -> Poll<()>
        requires opens { IfSome self.old.opening (λ o. M.Connect.can_poll o.connect) }
        ensures opens { IfSome self.new.opening (λ o. M.Connect.can_poll o.connect) }
        ensures opening { OnPending result (IsArmed cx.new × IsSomeAnd self.new.opening
            (λ o. (s : ℕ) → M.Connect.needs o.connect s → Hears cx.new s)) }
        ensures ready { IfReady result (λ _. self.new.opening ≡ None) }
        ensures sleep { self.new.sleep ≡ self.old.sleep }
        ensures kept { Keeps cx.old cx.new }
    {
        let Some(Opening { tries, mut connect }) = self.opening.take() else {
            return Poll::Ready(());
        };
        match connect.poll(cx) {
            Poll::Ready(answer) => {
                self.opened(tries, answer);
                Poll::Ready(())
            }
            Poll::Pending => {
                self.opening = Some(Opening { tries, connect });
                Poll::Pending
            }
        }
    }

    // One poll of a sleep until this moment, which is so far away: of the one that it slept, if that
    // was until the same moment.
    fn poll_sleep(
        &mut self,
        cx: &mut Context<'_>,
        slept: Option<Sleeping<T::Sleep>>,
        due: Duration,
        length: Duration,
    ) -> Poll<()>
        requires opening { self.old.opening ≡ None }
        requires awake { self.old.sleep ≡ None }
        requires sleeps { IfSome slept (λ s. T.Sleep.can_poll s.sleep) }
        requires parked { Covers cx.old (λ s. s ≡ orders_of self.old.shared) }
        ensures opening { self.new.opening ≡ None }
        ensures shared { self.new.shared ≡ self.old.shared }
        ensures pending { result ≡ Poll.Pending }
        ensures armed { IsArmed cx.new }
        ensures sleeps { IfSome self.new.sleep (λ s. T.Sleep.can_poll s.sleep) }
        ensures heard { (s : ℕ) → IsSomeAnd self.new.sleep (λ it. T.Sleep.needs it.sleep s)
            → Hears cx.new s }
        ensures kept { Keeps cx.old cx.new }
    {
        let mut sleep = match slept {
            Some(sleeping) if sleeping.due == due => sleeping.sleep,
            _other => self.shared.timer.sleep(length),
        };
        match sleep.poll(cx) {
            Poll::Pending => {
                self.sleep = Some(Sleeping { due, sleep });
                Poll::Pending
            }
            Poll::Ready(()) => cx.yield_now(),
        }
    }
}

impl<M: ManageConnection, T: Timer, K: Hooks<M>, R: AsyncRuntime> Future for Worker<M, T, K, R> {
    type Output = ();

    ghost can_poll = { λ w. IfSome w.opening (λ o. M.Connect.can_poll o.connect)
        × IfSome w.sleep (λ s. T.Sleep.can_poll s.sleep) };

    // What an opening waits for; else that something is ordered, and that something is due.
    ghost needs = { λ w s. IsSomeAnd w.opening (λ o. M.Connect.needs o.connect s)
        ⊎ ((w.opening ≡ None)
        × ((s ≡ orders_of w.shared) ⊎ IsSomeAnd w.sleep (λ it. T.Sleep.needs it.sleep s))) };

    fn poll(&mut self, cx: &mut Context<'_>) -> Poll<()> {
        if self.poll_opening(cx).is_pending() {
            return Poll::Pending;
        }
        let next = self.ask(cx);
        let slept = self.sleep.take();
        match next {
            Next::Again => cx.yield_now(),
            Next::Sleep { due, length } => self.poll_sleep(cx, slept, due, length),
            Next::Idle => Poll::Pending,
            Next::Open(tries) => {
                let connect = self.shared.manager.connect();
                self.opening = Some(Opening { tries, connect });
                cx.yield_now()
            }
            Next::Reap(limits) => {
                self.release_expired(limits);
                cx.yield_now()
            }
            Next::End => Poll::Ready(()),
        }
    }
}

impl<M: ManageConnection, T: Timer, K: Hooks<M>, R: AsyncRuntime> Drop for Worker<M, T, K, R> {
    // An opening in work goes back to the schedule.
    fn drop(self) {
        let Worker {
            shared,
            ticket,
            opening,
            sleep: _,
            seen: _,
            expired: _,
            is_at_work,
        } = self;
        let tries = match opening {
            Some(Opening { tries, connect }) => {
                drop(connect);
                Some(tries)
            }
            None => None,
        };
        match lock_or_give_up(&shared.tasks) {
            Ok(mut tasks) => tasks.drop_worker(shared.moment(), tries, is_at_work, ticket),
            Err(gave_up) => ticket.abandon(gave_up),
        }
    }
}
