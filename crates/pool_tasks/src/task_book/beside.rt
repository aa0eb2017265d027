// Who waits beside the line: a worker for something to do, a drain until nothing is lent. Each has
// its place from its making on, so that waiting takes no memory.
ghost use Rattle.std.specs.Prelude.{◌≡◌, ◌<◌, ℕ, length, true, false, None, Some, IfOk, min};
ghost use Rattle.std.specs.Prelude.{if◌then◌else◌, ◌+◌, ◌-◌, ◌^◌};
ghost use Rattle.futures.specs.Task.{Covers, Keeps};
ghost use Rattle.futures.specs.WaitList.{IsParkedAt, IsQueued, SameQueue};
ghost use Rattle.pool_tasks.specs.Wakers.{HasPlace, SleepsUntil};
ghost use Rattle.pool_tasks.specs.InTime.{IsInTime};

use super::TaskBook;
use crate::wakers::park;
use futures::task::{Context, Poll, Source};
use futures::util::wait_list::Ticket;
use r2d2_core::Job;
use std::alloc::AllocError;
use std::time::Duration;

impl<P: Drop> TaskBook<P> {
    ghost use Rattle.std.specs.Duration.{as_nanos};
    ghost use Rattle.pool_state.specs.Failed.{one_more};
    ghost use Rattle.pool_state.specs.Since.{since_with};
    ghost use Rattle.pool_state.specs.Status.{all_who_wait};
    ghost use Rattle.pool_state.specs.Waits.{count_of};
    ghost use Rattle.r2d2_core.specs.BookSteps.{IsBegin};

    /// A place for a worker. The error is lack of memory.
    pub fn add_worker(&mut self) -> Result<Ticket, AllocError>
        ensures place { IfOk result (λ ticket. HasPlace self.new.workers ticket.key) }
        ensures queue { SameQueue self.old.workers self.new.workers }
        ensures drains { self.new.drains ≡ self.old.drains }
        ensures at_work { self.new.at_work ≡ self.old.at_work }
    {
        self.workers.insert(None)
    }

    /// A worker is counted among those at work, from its first poll on.
    pub fn begin_work(&mut self, is_at_work: &mut bool)
        ensures begun { is_at_work.new ≡ true }
        ensures count { self.new.at_work ≡ (if is_at_work.old
            then self.old.at_work
            else min (self.old.at_work + 1) (2 ^ 32 - 1)) }
        ensures guarded { self.new.guarded ≡ self.old.guarded }
        ensures workers { self.new.workers ≡ self.old.workers }
        ensures drains { self.new.drains ≡ self.old.drains }
        ensures wakers { self.new.wakers ≡ self.old.wakers }
    {
        if !*is_at_work {
            *is_at_work = true;
            self.at_work = self.at_work.saturating_add(1);
        }
    }

    /// It is at work no more.
    pub fn end_work(&mut self, is_at_work: &mut bool)
        ensures ended { is_at_work.new ≡ false }
        ensures count { self.new.at_work ≡ (if is_at_work.old
            then self.old.at_work - 1
            else self.old.at_work) }
        ensures guarded { self.new.guarded ≡ self.old.guarded }
        ensures workers { self.new.workers ≡ self.old.workers }
        ensures drains { self.new.drains ≡ self.old.drains }
        ensures wakers { self.new.wakers ≡ self.old.wakers }
    {
        if *is_at_work {
            *is_at_work = false;
            self.at_work = self.at_work.saturating_sub(1);
        }
    }

    /// A worker asks what it is to do. If that is to wait, it sleeps until the moment that it gets,
    /// or for good, unless something is ordered.
    pub fn ask(&mut self, now: Duration, cx: &mut Context<'_>, source: &Source, key: usize) -> Job
        ensures step { IsBegin now result self.old.guarded.book self.new.guarded.book }
        ensures waits { (due : Duration) → result ≡ Job.Wait due
            → Covers cx.new (λ s. s ≡ source.now.id) }
        ensures rests { result ≡ Job.Nothing → Covers cx.new (λ s. s ≡ source.now.id) }
        ensures until { (due : Duration) → result ≡ Job.Wait due → HasPlace self.old.workers key
            → SleepsUntil cx.old cx.new self.new.workers key (Some due) }
        ensures for_good { result ≡ Job.Nothing → HasPlace self.old.workers key
            → SleepsUntil cx.old cx.new self.new.workers key None }
        ensures kept { Keeps cx.old cx.new }
        ensures at_work { self.new.at_work ≡ self.old.at_work }
    {
        let job = self.begin(now);
        match job {
            Job::Wait(due) => {
                let _pending: Poll<()> = self.park_worker(cx, source, key, Some(due));
            }
            Job::Nothing => {
                let _pending: Poll<()> = self.park_worker(cx, source, key, None);
            }
            Job::Open { .. } | Job::Reap | Job::Closed => {}
        }
        job
    }

    /// A worker sleeps until this moment, or for good, unless something is ordered before.
    pub fn park_worker<U>(
        &mut self,
        cx: &mut Context<'_>,
        source: &Source,
        key: usize,
        until: Option<Duration>,
    ) -> Poll<U>
        requires open { self.old.guarded.book.picture.on_order.closed ≡ false }
        requires in_time { IsInTime until self.old.guarded.book.picture.on_order }
        ensures pending { result ≡ Poll.Pending }
        ensures registered { Covers cx.new (λ s. s ≡ source.now.id) }
        ensures kept { Keeps cx.old cx.new }
        ensures until { HasPlace self.old.workers key
            → SleepsUntil cx.old cx.new self.new.workers key until }
        ensures others { (other : ℕ) → IsQueued self.old.workers other
            → IsQueued self.new.workers other }
        ensures drains { self.new.drains ≡ self.old.drains }
        ensures line { self.new.wakers ≡ self.old.wakers }
        ensures guarded { self.new.guarded ≡ self.old.guarded }
        ensures at_work { self.new.at_work ≡ self.old.at_work }
    {
        park(&mut self.workers, cx, source, key, until)
    }

    /// A place for a drain. The error is lack of memory.
    pub fn add_drain(&mut self) -> Result<Ticket, AllocError>
        ensures place { IfOk result (λ ticket. HasPlace self.new.drains ticket.key) }
        ensures queue { SameQueue self.old.drains self.new.drains }
        ensures workers { self.new.workers ≡ self.old.workers }
    {
        self.drains.insert(())
    }

    /// A drain is counted among those who wait, from its first sleep on. It waits since its call
    /// began, at this moment.
    pub fn count_drain(&mut self, start: Duration, is_counted: &mut bool)
        ensures counted { is_counted.new ≡ true }
        ensures waiting { self.new.guarded.waiting.drains ≡ (if is_counted.old
            then self.old.guarded.waiting.drains
            else one_more self.old.guarded.waiting.drains) }
        ensures since { as_nanos self.new.guarded.waiting.since ≡ (if is_counted.old
            then as_nanos self.old.guarded.waiting.since
            else since_with (all_who_wait (count_of self.old.guarded.waiting)
            self.old.guarded.places) (as_nanos start)
            (as_nanos self.old.guarded.waiting.since)) }
        ensures book { self.new.guarded.book ≡ self.old.guarded.book }
        ensures wakers { self.new.wakers ≡ self.old.wakers }
    {
        if !*is_counted {
            *is_counted = true;
            self.guarded.begin_drain(start);
        }
    }

    /// It waits no more.
    pub fn uncount_drain(&mut self, is_counted: &mut bool)
        ensures counted { is_counted.new ≡ false }
        ensures waiting { self.new.guarded.waiting.drains ≡ (if is_counted.old
            then self.old.guarded.waiting.drains - 1
            else self.old.guarded.waiting.drains) }
        ensures since { self.new.guarded.waiting.since ≡ self.old.guarded.waiting.since }
        ensures book { self.new.guarded.book ≡ self.old.guarded.book }
        ensures line { self.new.guarded.places ≡ self.old.guarded.places }
        ensures drains { self.new.drains ≡ self.old.drains }
        ensures workers { self.new.workers ≡ self.old.workers }
        ensures at_work { self.new.at_work ≡ self.old.at_work }
        ensures wakers { self.new.wakers ≡ self.old.wakers }
    {
        if *is_counted {
            *is_counted = false;
            self.guarded.end_drain();
        }
    }

    /// A drain sleeps until nothing is lent.
    pub fn park_drain<U>(&mut self, cx: &mut Context<'_>, source: &Source, key: usize) -> Poll<U>
        requires { 0 < length self.old.guarded.book.picture.lent }
        ensures pending { result ≡ Poll.Pending }
        ensures registered { Covers cx.new (λ s. s ≡ source.now.id) }
        ensures kept { Keeps cx.old cx.new }
        ensures parked { HasPlace self.old.drains key
            → IsParkedAt cx.old cx.new self.new.drains key }
        ensures others { (other : ℕ) → IsQueued self.old.drains other
            → IsQueued self.new.drains other }
        ensures workers { self.new.workers ≡ self.old.workers }
        ensures line { self.new.wakers ≡ self.old.wakers }
        ensures guarded { self.new.guarded ≡ self.old.guarded }
    {
        park(&mut self.drains, cx, source, key, ())
    }
}
