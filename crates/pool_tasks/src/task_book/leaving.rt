// What a task leaves that is dropped, or gives up: each in one step.
ghost use Rattle.std.specs.Prelude.{◌≡◌, ◌≢◌, ◌<◌, ◌+◌, ◌-◌, ℕ, List, Some, None, true, length, min};
ghost use Rattle.std.specs.Prelude.{IfSome, MatchOption, is_some, if◌then◌else◌};
ghost use Rattle.futures.specs.WaitList.{value_of, IsQueued, Leaves};
ghost use Rattle.pool_state.specs.Order.{Event, IsHistoryOf, with_told, with_leave};
ghost use Rattle.pool_tasks.specs.Wakers.{waker_at, NobodySleeps};
ghost use Rattle.pool_tasks.specs.Leaving.{IsLost, CountsLoss, gone_in, without_caller, told_without};

use super::TaskBook;
use futures::util::wait_list::Ticket;
use pool_state::Status;
use pool_state::engine::Settled;
use r2d2_core::Gone;
use std::time::Duration;

/// What a caller gets that gave up.
#[derive(Drop)]
pub struct GaveUp {
    /// The moment at which it did.
    pub at: Duration,
    /// How the connection went that was under its check.
    pub gone: Option<Gone>,
    /// How many waited before it, if no connection was.
    pub ahead: Option<usize>,
    pub status: Status,
    /// The latest error.
    pub error: Option<String>,
}

impl<P: Drop> TaskBook<P> {
    ghost use Rattle.r2d2_core.specs.Book.{SeenBook};
    ghost use Rattle.r2d2_core.specs.BookSteps.{IsTelling};
    ghost use Rattle.pool_state.specs.declared.engine.Outcome.TheVariants as outcome;
    ghost use Rattle.pool_state.specs.declared.failures.Failures.{Failures as SeenFailures};
    ghost use Rattle.pool_state.specs.Failed.{IsOneOpeningMore, IsOneTimeoutMore};
    ghost use Rattle.pool_state.specs.Settled.{IsSettling};
    ghost use Rattle.pool_state.specs.Status.{IsStatus, all_who_wait};
    ghost use Rattle.pool_state.specs.Waiting.{before, slot_if, told_if, told_by};
    ghost use Rattle.pool_state.specs.Waits.{WaitAsBefore, count_of};

    /// A caller goes that was lent nothing: it leaves the line, and a connection under its check,
    /// which went with it, is no longer the pool's, as one whose check failed. What was idle before
    /// this moment is distrusted then. How that connection went.
    pub fn abandon(
        &mut self,
        now: Duration,
        place: &mut Option<u32>,
        checked: Option<u64>,
        distrusted_before: Duration,
    ) -> Option<Gone>
        ensures lost { IsLost now checked result self.old.guarded.book self.new.guarded.book }
        ensures failures { CountsLoss now distrusted_before checked self.old.guarded.failures
            self.new.guarded.failures }
        ensures line { self.new.guarded.places
            ≡ without_caller (is_some result) place.old self.old.guarded.places }
        ensures history { (h : List Event) → IsHistoryOf h self.old.guarded.places → IsHistoryOf
            (with_told (told_without (is_some result) place.old self.old.guarded.places)
            (with_leave place.old
            (with_told (slot_if (is_some result) self.old.guarded.places) h)))
            self.new.guarded.places }
        ensures gone { place.new ≡ None }
        // No waker is left at its slot; and nobody else in line is woken but those who are
        // notified.
        ensures left { IfSome place.old (λ slot. waker_at self.new.wakers slot ≡ None) }
        ensures alone { (slot : ℕ) → place.old ≢ Some slot
            → slot_if (is_some result) self.old.guarded.places ≢ Some slot
            → told_without (is_some result) place.old self.old.guarded.places ≢ Some slot
            → waker_at self.new.wakers slot ≡ waker_at self.old.wakers slot }
        ensures waits { WaitAsBefore self.old.guarded.waiting self.new.guarded.waiting }
        ensures workers { IfSome result
            (λ gone. 0 < gone.ordered → NobodySleeps self.new.workers) }
        ensures at_work { self.new.at_work ≡ self.old.at_work }
    {
        let gone = self.lose(now, checked, distrusted_before);
        self.leave(place);
        gone
    }

    // A connection under a check goes, as one whose check failed, if there is one.
    fn lose(
        &mut self,
        now: Duration,
        checked: Option<u64>,
        distrusted_before: Duration,
    ) -> Option<Gone>
        ensures lost { IsLost now checked result self.old.guarded.book self.new.guarded.book }
        ensures failures { CountsLoss now distrusted_before checked self.old.guarded.failures
            self.new.guarded.failures }
        ensures line { self.new.guarded.places
            ≡ told_if (is_some result) self.old.guarded.places }
        ensures history { (h : List Event) → IsHistoryOf h self.old.guarded.places
            → IsHistoryOf (with_told (slot_if (is_some result) self.old.guarded.places) h)
            self.new.guarded.places }
        ensures alone { (slot : ℕ) → slot_if (is_some result) self.old.guarded.places ≢ Some slot
            → waker_at self.new.wakers slot ≡ waker_at self.old.wakers slot }
        ensures waits { WaitAsBefore self.old.guarded.waiting self.new.guarded.waiting }
        ensures workers { IfSome result
            (λ gone. 0 < gone.ordered → NobodySleeps self.new.workers) }
        ensures at_work { self.new.at_work ≡ self.old.at_work }
    {
        let Some(id) = checked else {
            return None;
        };
        gone_of(self.fail_check(now, id, None, distrusted_before))
    }

    /// The same of a caller whose time is over, with what it gets, as all stands then.
    pub fn give_up(
        &mut self,
        now: Duration,
        place: &mut Option<u32>,
        checked: Option<u64>,
        distrusted_before: Duration,
    ) -> GaveUp
        ensures book { (lost : SeenBook P)
            × IsLost now checked result.gone self.old.guarded.book lost
            × IsTelling result.error lost self.new.guarded.book }
        ensures failures { (lost : SeenFailures)
            × CountsLoss now distrusted_before checked self.old.guarded.failures lost
            × IsOneTimeoutMore lost self.new.guarded.failures }
        ensures ahead { MatchOption checked
            (result.ahead ≡ Some (min (before place.old self.old.guarded.places) 1000))
            (λ _. result.ahead ≡ None) }
        ensures at { result.at ≡ now }
        ensures status { IsStatus result.status }
        ensures idle { result.status.idle ≡ length self.new.guarded.book.picture.idle }
        ensures lent { result.status.lent ≡ length self.new.guarded.book.picture.lent }
        ensures opening { result.status.opening
            ≡ self.new.guarded.book.picture.on_order.pending }
        ensures waiting { result.status.waiting
            ≡ all_who_wait (count_of self.new.guarded.waiting) self.new.guarded.places }
        ensures timeouts { result.status.timeouts ≡ self.new.guarded.failures.timeouts }
        ensures workers { result.status.workers ≡ Some self.old.at_work }
        ensures line { self.new.guarded.places
            ≡ without_caller (is_some result.gone) place.old self.old.guarded.places }
        ensures history { (h : List Event) → IsHistoryOf h self.old.guarded.places → IsHistoryOf
            (with_told (told_without (is_some result.gone) place.old self.old.guarded.places)
            (with_leave place.old
            (with_told (slot_if (is_some result.gone) self.old.guarded.places) h)))
            self.new.guarded.places }
        ensures gone { place.new ≡ None }
        ensures left { IfSome place.old (λ slot. waker_at self.new.wakers slot ≡ None) }
        ensures waits { WaitAsBefore self.old.guarded.waiting self.new.guarded.waiting }
        ensures woken { IfSome result.gone
            (λ gone. 0 < gone.ordered → NobodySleeps self.new.workers) }
        ensures at_work { self.new.at_work ≡ self.old.at_work }
    {
        let ahead = self.ahead_unless(checked, *place);
        let gone = self.abandon(now, place, checked, distrusted_before);
        self.count_timeout();
        let error = self.take_error();
        let status = self.status();
        GaveUp {
            at: now,
            gone,
            ahead,
            status,
            error,
        }
    }

    // How many wait before a caller that has no connection under a check.
    fn ahead_unless(&self, checked: Option<u64>, place: Option<u32>) -> Option<usize>
        ensures { MatchOption checked
            (result ≡ Some (min (before place self.now.guarded.places) 1000))
            (λ _. result ≡ None) }
    {
        match checked {
            Some(_) => None,
            None => Some(self.ahead_of(place)),
        }
    }

    /// A worker goes: its place is free, and it is at work no more. An opening that it had in work,
    /// after so many that failed, is one that failed.
    pub fn drop_worker(
        &mut self,
        now: Duration,
        tries: Option<u32>,
        is_at_work: bool,
        ticket: Ticket,
    )
        ensures opening { MatchOption tries (self.new.guarded ≡ self.old.guarded)
            (λ n. (settled : _) × IsSettling now (outcome.Failed n None) settled
            self.old.guarded.book self.new.guarded.book) }
        ensures failures { MatchOption tries
            (self.new.guarded.failures ≡ self.old.guarded.failures)
            (λ _. IsOneOpeningMore now self.old.guarded.failures self.new.guarded.failures) }
        ensures line { self.new.guarded.places ≡ self.old.guarded.places }
        ensures waits { WaitAsBefore self.old.guarded.waiting self.new.guarded.waiting }
        ensures at_work { self.new.at_work
            ≡ (if is_at_work then self.old.at_work - 1 else self.old.at_work) }
        ensures free { value_of self.new.workers ticket.key ≡ None }
        ensures gone { ¬ IsQueued self.new.workers ticket.key }
        ensures fewer { (key : ℕ) → IsQueued self.new.workers key
            → IsQueued self.old.workers key }
        ensures drains { self.new.drains ≡ self.old.drains }
    {
        self.put_back_opening(now, tries);
        let mut is_at_work = is_at_work;
        self.end_work(&mut is_at_work);
        let key = self.workers.redeem(ticket);
        self.workers.remove(key);
    }

    // An opening that was in work, if there is one, is one that failed.
    fn put_back_opening(&mut self, now: Duration, tries: Option<u32>)
        ensures opening { MatchOption tries (self.new.guarded ≡ self.old.guarded)
            (λ n. (settled : _) × IsSettling now (outcome.Failed n None) settled
            self.old.guarded.book self.new.guarded.book) }
        ensures failures { MatchOption tries
            (self.new.guarded.failures ≡ self.old.guarded.failures)
            (λ _. IsOneOpeningMore now self.old.guarded.failures self.new.guarded.failures) }
        ensures line { self.new.guarded.places ≡ self.old.guarded.places }
        ensures waits { WaitAsBefore self.old.guarded.waiting self.new.guarded.waiting }
        ensures at_work { self.new.at_work ≡ self.old.at_work }
        ensures fewer { (key : ℕ) → IsQueued self.new.workers key
            → IsQueued self.old.workers key }
        ensures drains { self.new.drains ≡ self.old.drains }
    {
        if let Some(tries) = tries {
            drop(self.fail(now, tries, None));
        }
    }

    /// A drain goes: its place is free, and it waits no more.
    pub fn drop_drain(&mut self, is_counted: bool, ticket: Ticket)
        ensures waiting { self.new.guarded.waiting.drains ≡ (if is_counted
            then self.old.guarded.waiting.drains - 1
            else self.old.guarded.waiting.drains) }
        ensures since { self.new.guarded.waiting.since ≡ self.old.guarded.waiting.since }
        ensures book { self.new.guarded.book ≡ self.old.guarded.book }
        ensures line { self.new.guarded.places ≡ self.old.guarded.places }
        ensures wakers { self.new.wakers ≡ self.old.wakers }
        ensures free { value_of self.new.drains ticket.key ≡ None }
        ensures leaves { Leaves self.old.drains self.new.drains ticket.key }
        ensures workers { self.new.workers ≡ self.old.workers }
        ensures at_work { self.new.at_work ≡ self.old.at_work }
    {
        let mut is_counted = is_counted;
        self.uncount_drain(&mut is_counted);
        let key = self.drains.redeem(ticket);
        self.drains.remove(key);
    }
}

// How a connection went whose check was settled so.
fn gone_of<P: Drop>(settled: Settled<P>) -> Option<Gone>
    ensures { result ≡ gone_in settled }
{
    match settled {
        Settled::Gone(gone) => Some(gone),
        _ => None,
    }
}
