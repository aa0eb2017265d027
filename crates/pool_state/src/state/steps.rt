// The steps of the book, and whom each of them is to wake.
ghost use Rattle.std.specs.Prelude.{◌≡◌, ◌≤◌, ◌<◌, ◌+◌, ◌-◌, ◌*◌, map, length};
ghost use Rattle.std.specs.Prelude.{vec_len, vec_capacity, IfSome, IsTrue, List};
ghost use Rattle.std.specs.Duration.{as_nanos};
ghost use Rattle.r2d2_core.specs.BookSteps.{IsBegin, IsNumbering, IsReturn, IsReap};
ghost use Rattle.r2d2_core.specs.BookSteps.{IsTelling, IsClose};
ghost use Rattle.pool_machine.specs.Seen.{seen_returned, map_ok};
ghost use Rattle.pool_state.specs.Order.{Event, IsHistoryOf, with_told};
ghost use Rattle.pool_state.specs.Ring.{places_in};
ghost use Rattle.pool_state.specs.Waits.{AreWoken, AllAreWoken, IsForAll};

use super::PoolState;
use crate::engine::{Outcome, Settled, TakeCounter, TakeTotal, Wakes};
use crate::line::queue::Line;
use crate::reason::ReleaseReason;
use crate::tuning::Tuning;
use crate::waiters::{ToWake, Waiters};
use r2d2_core::machine::Leftover;
use r2d2_core::{Job, Refusal, Released, Returned};
use std::time::{Duration, SystemTime};

// Where a step left something for these, notifies the first in line that was not notified, and
// counts the wake of one who waits elsewhere.
#[inline(always)]
fn due(wakes: Wakes, line: &mut Line, waiting: &mut Waiters, now: Duration) -> ToWake
    requires { waiting.old.woken ≤ waiting.old.callers }
    ensures woken { AreWoken wakes result waiting.old waiting.new (places_in line.old.ring)
        (places_in line.new.ring) }
    ensures within { waiting.new.woken ≤ waiting.old.callers }
    ensures history { (h : List Event) → IsHistoryOf h (places_in line.old.ring)
        → IsHistoryOf (with_told result.told h) (places_in line.new.ring) }
{
    let told = line.tell_if(wakes.caller);
    ToWake {
        callers: waiting.wake_if(wakes.caller, now),
        workers: wakes.workers,
        told,
        all_in_line: false,
    }
}

// Counts all as woken who wait, in line or elsewhere, and has them woken.
fn due_to_all(waiting: &mut Waiters) -> ToWake
    ensures counted { AllAreWoken waiting.old waiting.new }
    ensures sent { IsForAll result }
{
    ToWake {
        callers: waiting.wake_all(),
        workers: true,
        told: None,
        all_in_line: true,
    }
}

// Those that owe nobody a wake.
impl<P, C: TakeTotal> PoolState<P, C> {
    /// As `Book::begin`.
    pub fn begin(&mut self, now: Duration) -> Job
        ensures step { IsBegin now result self.old.book self.new.book }
        ensures same { self.new ≡ record self.old { book = self.new.book } }
    {
        self.book.begin(now)
    }

    /// As `Book::number`.
    pub fn number(&mut self, tries: u32) -> Result<u64, Refusal>
        ensures step { IsNumbering tries result self.old.book self.new.book }
        ensures same { self.new ≡ record self.old { book = self.new.book } }
    {
        self.book.number(tries)
    }

    /// As `Book::take_error`.
    pub fn take_error(&mut self) -> Option<String>
        ensures step { IsTelling result self.old.book self.new.book }
        ensures same { self.new ≡ record self.old { book = self.new.book } }
    {
        self.book.take_error()
    }
}

// Those that do.
impl<P, C: TakeTotal> PoolState<P, C> {
    ghost use Rattle.std.specs.Prelude.{IsFalse, IsSome};
    ghost use Rattle.std.specs.Option.{IsNone};
    ghost use Rattle.pool_machine.specs.Connections.{birth_in};
    ghost use Rattle.pool_state.specs.declared.engine.Outcome.TheVariants as outcome;
    ghost use Rattle.pool_state.specs.Evicted.{is_evicted, is_to_close};
    ghost use Rattle.pool_state.specs.Failed.{IsOneOpeningMore, IsOneCheckMore};
    ghost use Rattle.pool_state.specs.Reasons.{reason_of_return};
    ghost use Rattle.pool_state.specs.Settled.{seen_settled, wakes_of_settled, IsSettling};
    ghost use Rattle.pool_state.specs.Wakes.{wakes_of_return, wakes_of_reap};

    // Whether an eviction reached the connection with this id.
    fn is_evicted(&self, id: u64) -> bool
        ensures { result ≡ is_evicted id self.now.evicted_below }
    {
        id < self.evicted_below
    }

    /// Why a connection is closed, if it is, that comes back now and is unfit for this reason or
    /// for none.
    pub fn reason_of_return(&self, id: u64, unfit: Option<ReleaseReason>) -> ReleaseReason
        ensures { result ≡ reason_of_return unfit (is_evicted id self.now.evicted_below)
            self.now.book.picture.on_order.closed }
    {
        match unfit {
            Some(reason) => reason,
            None if self.is_evicted(id) => ReleaseReason::Evicted,
            None if self.book.book().is_closed() => ReleaseReason::PoolClosed,
            None => ReleaseReason::Lifetime,
        }
    }

    /// Whether the lent connection with this id has outlived its own lifetime, if lifetimes differ.
    pub fn is_outlived(
        &self,
        tuning: &Tuning,
        created_at: Option<SystemTime>,
        id: u64,
        now: Duration,
    ) -> bool
        ensures off { IsNone tuning.now.lifetime_jitter → IsFalse result }
        ensures endless { IsNone self.now.book.picture.on_order.limits.max_lifetime
            → IsFalse result }
        ensures unknown { IsNone (birth_in id self.now.book.picture.lent) → IsFalse result }
        ensures early { IsTrue result → IfSome (birth_in id self.now.book.picture.lent)
            (λ birth. IfSome self.now.book.picture.on_order.limits.max_lifetime
            (λ longest. IfSome tuning.now.lifetime_jitter
            (λ jitter. as_nanos longest - as_nanos jitter ≤ as_nanos now - birth))) }
        ensures late { IsSome tuning.now.lifetime_jitter
            → IfSome (birth_in id self.now.book.picture.lent)
            (λ birth. IfSome self.now.book.picture.on_order.limits.max_lifetime
            (λ longest. as_nanos longest ≤ as_nanos now - birth → IsTrue result)) }
    {
        if tuning.lifetime_jitter.is_none() {
            return false;
        }
        let book = self.book.book();
        match book.lent_birth(id) {
            Some(birth) => {
                let age = now.saturating_sub(birth);
                tuning.is_outlived(book.limits().max_lifetime(), created_at, id, age)
            }
            None => false,
        }
    }

    /// Puts a lent connection back. One that is unfit, has outlived its own lifetime, or was opened
    /// before the latest eviction is closed, as a broken one is.
    #[inline(always)]
    pub fn give_back(
        &mut self,
        now: Duration,
        id: u64,
        value: P,
        unfit: Option<ReleaseReason>,
        outlived: bool,
    ) -> (Result<Returned<P>, (Refusal, P)>, ToWake)
        ensures step { IsReturn now id value
            (is_to_close unfit outlived id self.old.evicted_below) result.0 self.old.book
            self.new.book }
        ensures wakes { AreWoken (wakes_of_return (map_ok seen_returned result.0)) result.1
            self.old.waiting self.new.waiting self.old.places self.new.places }
        ensures history { (h : List Event) → IsHistoryOf h self.old.places
            → IsHistoryOf (with_told result.1.told h) self.new.places }
        ensures same { self.new ≡ record self.old {
          book = self.new.book;
          places = self.new.places;
          waiting = self.new.waiting;
        } }
    {
        let is_to_close = unfit.is_some() || outlived || self.is_evicted(id);
        let (returned, wakes) = self.book.give_back(now, id, value, is_to_close);
        let to_wake = due(wakes, &mut self.line, &mut self.waiting, now);
        (returned, to_wake)
    }

    /// Reports an outcome to the book.
    pub fn settle(&mut self, now: Duration, outcome: Outcome<P>) -> (Settled<P>, ToWake)
        ensures step { IsSettling now outcome result.0 self.old.book self.new.book }
        ensures wakes { AreWoken (wakes_of_settled (seen_settled result.0)) result.1
            self.old.waiting self.new.waiting self.old.places self.new.places }
        ensures history { (h : List Event) → IsHistoryOf h self.old.places
            → IsHistoryOf (with_told result.1.told h) self.new.places }
        ensures same { self.new ≡ record self.old {
          book = self.new.book;
          places = self.new.places;
          waiting = self.new.waiting;
        } }
    {
        let (settled, wakes) = self.book.settle(now, outcome);
        let to_wake = due(wakes, &mut self.line, &mut self.waiting, now);
        (settled, to_wake)
    }

    /// Reports a failed opening to the book.
    pub fn fail(&mut self, now: Duration, tries: u32, text: Option<String>) -> (Settled<P>, ToWake)
        ensures step { IsSettling now (outcome.Failed tries text) result.0 self.old.book
            self.new.book }
        ensures wakes { AreWoken (wakes_of_settled (seen_settled result.0)) result.1
            self.old.waiting self.new.waiting self.old.places self.new.places }
        ensures history { (h : List Event) → IsHistoryOf h self.old.places
            → IsHistoryOf (with_told result.1.told h) self.new.places }
        ensures failures { IsOneOpeningMore now self.old.failures self.new.failures }
        ensures same { self.new ≡ record self.old {
          book = self.new.book;
          places = self.new.places;
          waiting = self.new.waiting;
          failures = self.new.failures;
        } }
    {
        self.failures.add_opening(now);
        self.settle(now, Outcome::Failed { tries, text })
    }

    /// Reports a failed check to the book. What was idle before this moment is distrusted from now
    /// on.
    pub fn fail_check(
        &mut self,
        now: Duration,
        id: u64,
        text: Option<String>,
        distrusted_before: Duration,
    ) -> (Settled<P>, ToWake)
        ensures step { IsSettling now (outcome.Unsound id text) result.0 self.old.book
            self.new.book }
        ensures wakes { AreWoken (wakes_of_settled (seen_settled result.0)) result.1
            self.old.waiting self.new.waiting self.old.places self.new.places }
        ensures history { (h : List Event) → IsHistoryOf h self.old.places
            → IsHistoryOf (with_told result.1.told h) self.new.places }
        ensures failures { IsOneCheckMore now distrusted_before
            self.old.failures self.new.failures }
        ensures same { self.new ≡ record self.old {
          book = self.new.book;
          places = self.new.places;
          waiting = self.new.waiting;
          failures = self.new.failures;
        } }
    {
        self.failures.add_check(now, distrusted_before);
        self.settle(now, Outcome::Unsound { id, text })
    }

    /// Closes what is expired, into the list, which is empty and has room for all.
    pub fn reap(&mut self, now: Duration, expired: &mut Vec<Released<P>>) -> (u32, ToWake)
        requires empty { vec_len expired.old ≡ 0 }
        requires room { self.old.book.picture.on_order.limits.max_size ≤ vec_capacity expired.old }
        ensures step { IsReap now expired.new.items result.0 self.old.book self.new.book }
        ensures wakes { AreWoken (wakes_of_reap (length expired.new.items) result.0) result.1
            self.old.waiting self.new.waiting self.old.places self.new.places }
        ensures history { (h : List Event) → IsHistoryOf h self.old.places
            → IsHistoryOf (with_told result.1.told h) self.new.places }
        ensures same { self.new ≡ record self.old {
          book = self.new.book;
          places = self.new.places;
          waiting = self.new.waiting;
        } }
    {
        let (ordered, wakes) = self.book.sweep(now, expired);
        let to_wake = due(wakes, &mut self.line, &mut self.waiting, now);
        (ordered, to_wake)
    }

    /// Closes the book, and has all woken who wait.
    pub fn close(&mut self) -> (Leftover<P>, ToWake)
        ensures step { IsClose result.0 self.old.book self.new.book }
        ensures wakes { IsForAll result.1 }
        ensures waiting { AllAreWoken self.old.waiting self.new.waiting }
        ensures same { self.new
            ≡ record self.old { book = self.new.book; waiting = self.new.waiting } }
    {
        let to_wake = due_to_all(&mut self.waiting);
        (self.book.close(), to_wake)
    }
}

impl<P: Drop, C: TakeCounter> PoolState<P, C> {
    ghost use Rattle.pool_machine.specs.Seen.{seen_released};
    ghost use Rattle.pool_state.specs.Evicted.{evicted_of, after_eviction, IsEvicted};

    /// As `CountingBook::evict`, and has what is lent closed as it comes back. What is opened from
    /// now on stays. All who wait are woken.
    pub fn evict(
        &mut self,
        now: Duration,
        tally: &mut C::Tally,
        evicted: &mut Vec<Released<P>>,
    ) -> ToWake
        requires parts { 0 < C.parts tally.old }
        requires empty { vec_len evicted.old ≡ 0 }
        requires room { self.old.book.picture.on_order.limits.max_size ≤ vec_capacity evicted.old }
        ensures released { map seen_released evicted.new.items
            ≡ evicted_of (as_nanos now) self.old.book.picture }
        ensures after { self.new.book ≡ after_eviction (as_nanos now) self.old.book }
        ensures comes_to { IsEvicted (as_nanos now) self.old.book.picture self.new.book.picture }
        ensures kept { self.new.evicted_below ≡ self.old.book.picture.on_order.next_id }
        ensures wakes { IsForAll result }
        ensures waiting { AllAreWoken self.old.waiting self.new.waiting }
        ensures parts { C.parts tally.new ≡ C.parts tally.old }
        ensures amount { C.amount tally.new
            ≡ C.amount tally.old + length evicted.new.items * C.per_take }
        ensures same { self.new ≡ record self.old {
          book = self.new.book;
          total = self.new.total;
          waiting = self.new.waiting;
          evicted_below = self.new.evicted_below;
        } }
    {
        let to_wake = due_to_all(&mut self.waiting);
        self.book.evict(now, tally, evicted);
        self.evicted_below = self.book.book().next_id();
        to_wake
    }
}
