// What pools, workers, gets and lent connections share.
ghost use Rattle.std.specs.Prelude.{◌≡◌, Some, IsSome, IfSome};
ghost use Rattle.pool_state.specs.Status.{IsStatus};

use crate::hooks::Hooks;
use crate::{AsyncRuntime, ManageConnection};
use futures::spin::lock;
use futures::task::Source;
use pool_tasks::{GaveUp, TaskBook};
use r2d2::birth::Birth;
use r2d2::engine::{Outcome, Payload, Settled};
use r2d2::event::ReleaseReason;
use r2d2::hooks::Closed;
use r2d2::{Extension, Settings, Status};
use r2d2_core::machine::Leftover;
use r2d2_core::{Gone, Refusal, Released, Returned};
use std::rt::Clock;
use std::sync::{Arc, Mutex};
use std::time::Duration;

/// What a pool of this manager keeps.
pub type PayloadOf<M> = Payload<
    <M as ManageConnection>::Connection,
    <M as ManageConnection>::Extension,
>;

/// What pools, workers, gets and lent connections share. The lock is held for the book's steps, and
/// while a report of it is copied.
#[derive(Drop)]
pub struct Shared<P, M, T, K, R> {
    /// Fires for a caller in line once it is notified, or the pool is closed.
    pub(crate) told: Source,
    /// Fires for a worker once an opening is ordered, or the pool is closed.
    pub(crate) ordered: Source,
    /// Fires for a drain once nothing is lent.
    pub(crate) returned: Source,
    pub(crate) tasks: Mutex<TaskBook<P>>,
    pub(crate) manager: M,
    pub(crate) timer: T,
    pub(crate) hooks: K,
    pub(crate) settings: Settings<(), (), ()>,
    /// When the pool was made.
    pub(crate) birth: Birth,
    pub(crate) rt: R,
}

/// What a pool shares, whose payload is its manager's.
pub type SharedOf<M, T, K, R> = Shared<PayloadOf<M>, M, T, K, R>;

/// A connection that was taken without a wait.
#[derive(Drop)]
pub struct Taken<P> {
    pub(crate) id: u64,
    pub(crate) payload: P,
    /// The moment of the take.
    pub(crate) at: Duration,
    pub(crate) idle_since: Option<Duration>,
}

// `lock` gives up after 2^64 tries, which no run makes: what stands at its `None` is never run.
impl<P: Drop, M, T, K, R: Clock> Shared<P, M, T, K, R> {
    /// The time since the pool was made.
    pub(crate) fn moment(&self) -> Duration {
        self.birth.moment(&self.rt)
    }

    /// The counts.
    pub(crate) fn status(&self) -> Status
        ensures sums { IsStatus result }
        ensures workers { IsSome result.workers }
    {
        match lock(&self.tasks) {
            Some(tasks) => tasks.status(),
            None => no_status(self.settings.config.max_size),
        }
    }

    /// A caller goes that was lent nothing, and the connection under its check with it: how that one
    /// went.
    pub(crate) fn abandon(&self, place: &mut Option<u32>, checked: Option<u64>) -> Option<Gone> {
        let mut tasks = lock(&self.tasks)?;
        tasks.abandon(self.moment(), place, checked, Duration::ZERO)
    }

    /// The same of a caller whose time is over, with what it gets.
    pub(crate) fn give_up(
        &self,
        place: &mut Option<u32>,
        checked: Option<u64>,
        distrusted_before: Duration,
    ) -> GaveUp
        ensures sums { IsStatus result.status }
        ensures workers { IsSome result.status.workers }
    {
        match lock(&self.tasks) {
            Some(mut tasks) => tasks.give_up(self.moment(), place, checked, distrusted_before),
            None => GaveUp {
                at: self.moment(),
                gone: None,
                ahead: None,
                status: no_status(self.settings.config.max_size),
                error: None,
            },
        }
    }

    /// Admits an opened connection under its id, or lets a lent one go for good.
    pub(crate) fn settle(&self, outcome: Outcome<P>) -> Option<Settled<P>> {
        let mut tasks = lock(&self.tasks)?;
        Some(tasks.settle(self.moment(), outcome))
    }

    /// Gives an opened connection its id.
    pub(crate) fn number(&self, tries: u32) -> Option<Result<u64, Refusal>> {
        Some(lock(&self.tasks)?.number(tries))
    }

    /// Reports a failed opening to the book.
    pub(crate) fn fail(&self, tries: u32, text: Option<String>) {
        if let Some(mut tasks) = lock(&self.tasks) {
            tasks.fail(self.moment(), tries, text);
        }
    }

    /// Reports a failed check to the book. What was idle before this moment is distrusted from now
    /// on.
    pub(crate) fn fail_check(
        &self,
        id: u64,
        text: Option<String>,
        distrusted_before: Duration,
    ) -> Option<Gone> {
        let mut tasks = lock(&self.tasks)?;
        match tasks.fail_check(self.moment(), id, text, distrusted_before) {
            Settled::Gone(gone) => Some(gone),
            _ => None,
        }
    }

    /// A caller leaves the line, if it stands in it. If it was notified, the next one is.
    #[inline(always)]
    pub(crate) fn leave_line(&self, place: &mut Option<u32>) {
        if place.is_none() {
            return;
        }
        if let Some(mut tasks) = lock(&self.tasks) {
            tasks.leave(place);
        }
    }

    /// Whether a check failed that began after this moment, since when a connection is idle.
    pub(crate) fn is_distrusted(&self, idle_since: Option<Duration>) -> bool {
        match (idle_since, lock(&self.tasks)) {
            (Some(since), Some(tasks)) => tasks.is_distrusted(since),
            _ => false,
        }
    }

    /// Takes an idle connection for a caller who does not wait, if one is not kept for those in
    /// line.
    pub(crate) fn take_now(&self) -> Option<Taken<P>> {
        let mut tasks = lock(&self.tasks)?;
        let at = self.moment();
        tasks.pass_late(at);
        take_idle(&mut tasks, at)
    }

    /// Closes the book, wakes all who wait, and hands over what was idle.
    pub(crate) fn close(&self) -> Option<Leftover<P>> {
        Some(lock(&self.tasks)?.close())
    }
}

impl<X: Drop, E: Extension + Drop, M, T, K, R: Clock> Shared<Payload<X, E>, M, T, K, R> {
    /// Puts a lent connection back. One that is unfit for some reason, too old, or evicted is
    /// closed, and so is each if the pool is closed: it returns that one.
    #[inline(always)]
    pub(crate) fn give_back(
        &self,
        id: u64,
        payload: Payload<X, E>,
        unfit: Option<ReleaseReason>,
    ) -> Option<Closed<X>>
        ensures { IfSome result (λ closed. closed.id ≡ id) }
    {
        let mut tasks = lock(&self.tasks)?;
        let now = self.moment();
        let reason = tasks.reason_of_return(id, unfit);
        let outlived = tasks.is_outlived(&self.settings.tuning, self.birth.created_at(), id, now);
        let returned = tasks.give_back(now, id, payload, unfit, outlived);
        // What is kept beside the connection is dropped once the lock is free.
        drop(tasks);
        let Ok(Returned::Closed { value, age, .. }) = returned else {
            return None;
        };
        let Payload { connection, .. } = value;
        Some(Closed {
            id,
            age,
            reason,
            connection,
        })
    }
}

/// Takes the connection that is lent next, if it is not kept for those in line.
#[inline(always)]
pub(crate) fn take_idle<P: Drop>(tasks: &mut TaskBook<P>, at: Duration) -> Option<Taken<P>> {
    let idle_since = tasks.book().next_idle_since();
    let (id, payload) = tasks.try_take(at)?;
    Some(Taken {
        id,
        payload,
        at,
        idle_since,
    })
}

// What a closed pool shows.
fn no_status(max_size: u32) -> Status
    ensures sums { IsStatus result }
    ensures workers { result.workers ≡ Some 0 }
{
    Status {
        max_size,
        wanted: 0,
        connections: 0,
        idle: 0,
        lent: 0,
        opening: 0,
        workers: Some(0),
        waiting: 0,
        waiting_since: None,
        failed_openings: 0,
        failed_checks: 0,
        refused: 0,
        timeouts: 0,
        latest_failure: None,
        closed: true,
    }
}

impl<M: ManageConnection, T, K: Hooks<M>, R: AsyncRuntime> SharedOf<M, T, K, R> {
    /// As `take_now`. One that is distrusted is closed, and it looks on: so it takes no more than
    /// were idle when it began.
    pub(crate) fn take_trusted(&self) -> Option<Taken<PayloadOf<M>>> {
        if !self.settings.tuning.evict_idle_on_failed_check {
            return self.take_now();
        }
        for _ in 0..self.status().idle {
            let taken = self.take_now()?;
            if !self.is_distrusted(taken.idle_since) {
                return Some(taken);
            }
            let Taken { id, payload, .. } = taken;
            self.put_back(id, payload, Some(ReleaseReason::Distrusted));
        }
        None
    }

    /// Puts a lent connection back, and releases it if it is closed.
    #[inline(always)]
    pub(crate) fn put_back(&self, id: u64, payload: PayloadOf<M>, unfit: Option<ReleaseReason>) {
        if let Some(closed) = self.give_back(id, payload, unfit) {
            self.hooks.release(closed);
        }
    }

    /// Releases what was closed under the lock.
    pub(crate) fn release(&self, released: Released<PayloadOf<M>>, reason: ReleaseReason) {
        let Released { id, age, value } = released;
        let Payload { connection, .. } = value;
        self.hooks.release(Closed {
            id,
            age,
            reason,
            connection,
        });
    }
}

/// What pools, gets and lent connections hold: when the last of them goes, the pool is closed.
pub struct Closer<P: Drop, M: Drop, T: Drop, K: Drop, R: Clock + Drop> {
    pub(crate) shared: Arc<Shared<P, M, T, K, R>>,
}

/// A closer of what this manager's pool shares.
pub type CloserOf<M, T, K, R> = Closer<PayloadOf<M>, M, T, K, R>;

impl<P: Drop, M: Drop, T: Drop, K: Drop, R: Clock + Drop> Drop for Closer<P, M, T, K, R> {
    // Closes the book, and drops what was idle, without events. The workers end.
    fn drop(self) {
        let Closer { shared } = self;
        drop(shared.close());
    }
}
