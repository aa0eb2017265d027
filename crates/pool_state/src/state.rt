// What the lock of a pool guards, and how it is read.
ghost use Rattle.std.specs.Prelude.{◌≡◌, ◌≤◌, ◌<◌, ◌+◌, ◌-◌, ◌↔◌, [], min, length};
ghost use Rattle.std.specs.Prelude.{IfOk, IsTrue, false, None};
ghost use Rattle.std.specs.Duration.{as_nanos, max_nanos};
ghost use Rattle.r2d2_core.specs.Reports.{IsSoundReport};
ghost use Rattle.pool_state.specs.Waits.{count_of};
ghost use Rattle.pool_state.specs.Ring.{places_in};

use crate::engine::{CountingBook, LedgerCounter, TakeTotal};
use crate::failures::Failures;
use crate::line::queue::Line;
use crate::moments::has_passed;
use crate::status::Status;
use crate::waiters::Waiters;
use r2d2_core::{Book, Report};
use std::alloc::AllocError;
use std::marker::Model;
use std::sync::ledger::{Ledger, Share};
use std::time::Duration;

pub mod looking;
pub mod serving;
mod sleeping;
mod steps;

/// How many nanoseconds a caller looks again at most. If others want the processor, to let them run
/// takes many times as long as a sleep and a wake.
const PATIENCE: u128 = 200_000;

/// As many who wait before a caller are counted for it when it gives up.
pub const MOST_AHEAD: usize = 1_000;

/// What the lock guards: the book, who stands in line for what it lends, who waits elsewhere, which
/// connections stay, and what failed. If a pool has no line, nobody ever stands in it.
#[derive(Drop)]
pub struct PoolState<P, C: TakeTotal> {
    // Beside the lock, and the book after them: each step reads them.
    /// Who waits beside the line, and since when somebody waits at all.
    waiting: Waiters,
    /// The least id that no eviction has reached: those below it are closed as they come back.
    evicted_below: u64,
    /// Until this moment nobody looks again before it waits, since letting others run took long.
    hurried_until: Duration,
    line: Line,
    /// How many openings callers in line have yet to order, since what was idle was kept for
    /// others.
    owed: u32,
    book: CountingBook<P, C>,
    failures: Failures,
}

// That those in line were notified of what is idle, and that no wake is lost, is part of the type:
// each step keeps it, so a step that owes a wake and answers none is refused.
impl<P, C: TakeTotal> Model for PoolState<P, C> {
    ghost use Rattle.pool_state.specs.Guarded.{SeenState, seen_state, IsKeptFor};
    ghost use Rattle.pool_state.specs.Ring.{places_in};

    ghost Value = { SeenState P C };

    ghost view = { λ s. seen_state s.book.book s.book.total (places_in s.line.ring) s.owed
        s.waiting s.evicted_below s.hurried_until s.failures };

    ghost invariant = { λ s. IsKeptFor s.book.book.picture (places_in s.line.ring) s.owed
        s.waiting };
}

impl<P, C: TakeTotal> PoolState<P, C> {
    ghost use Rattle.std.specs.Prelude.{IsFalse};
    ghost use Rattle.pool_machine.specs.Limits.{wanted_of};
    ghost use Rattle.pool_state.specs.Failed.{HaveNone, IsOneRefusalMore, IsOneTimeoutMore};
    ghost use Rattle.pool_state.specs.Order.{IsHistoryOf};
    ghost use Rattle.pool_state.specs.Since.{since_with, since_if};
    ghost use Rattle.pool_state.specs.Status.{IsStatus, all_who_wait, is_all_lent, is_full};
    ghost use Rattle.pool_state.specs.Waits.{NobodyWaits};

    /// A book for which nobody waits yet, and of which nothing was evicted.
    pub fn new(book: CountingBook<P, C>, line: Line) -> PoolState<P, C>
        requires { places_in line.ring ≡ [] }
        ensures book { result.book ≡ book.book }
        ensures total { result.total ≡ book.total }
        ensures line { result.places ≡ [] }
        ensures history { IsHistoryOf [] result.places }
        ensures owed { result.owed ≡ 0 }
        ensures nobody { NobodyWaits result.waiting }
        ensures drains { result.waiting.drains ≡ 0 }
        ensures evicted { result.evicted_below ≡ 0 }
        ensures hurried { as_nanos result.hurried_until ≡ 0 }
        ensures failures { HaveNone result.failures }
    {
        PoolState {
            waiting: Waiters::nobody(),
            evicted_below: 0,
            hurried_until: Duration::ZERO,
            line,
            owed: 0,
            book,
            failures: Failures::none(),
        }
    }

    /// The book, to be read.
    pub fn book(&self) -> &Book<P>
        ensures value { result.now ≡ self.now.book }
    {
        self.book.book()
    }

    /// What the book reports.
    pub fn report(&self) -> Result<Report, AllocError>
        ensures sound { IfOk result IsSoundReport }
    {
        self.book.report()
    }

    /// The counts, with those of the callers who wait.
    pub fn status(&self) -> Status
        ensures sums { IsStatus result }
        ensures max_size { result.max_size ≡ self.now.book.picture.on_order.limits.max_size }
        ensures wanted { result.wanted ≡ wanted_of self.now.book.picture.on_order.limits }
        ensures idle { result.idle ≡ length self.now.book.picture.idle }
        ensures lent { result.lent ≡ length self.now.book.picture.lent }
        ensures opening { result.opening ≡ self.now.book.picture.on_order.pending }
        ensures workers { result.workers ≡ None }
        ensures waiting { result.waiting ≡ all_who_wait (count_of self.now.waiting)
            self.now.places }
        ensures since { result.waiting_since
            ≡ since_if (all_who_wait (count_of self.now.waiting) self.now.places)
            self.now.waiting.since }
        ensures openings { result.failed_openings ≡ self.now.failures.openings }
        ensures checks { result.failed_checks ≡ self.now.failures.checks }
        ensures refused { result.refused ≡ self.now.failures.refused }
        ensures timeouts { result.timeouts ≡ self.now.failures.timeouts }
        ensures latest { result.latest_failure ≡ self.now.failures.latest }
        ensures closed { result.closed ≡ self.now.book.picture.on_order.closed }
    {
        let (waiting, since) = (self.all_who_wait(), self.waiting.since);
        Status::of(self.book.book(), waiting, since, &self.failures)
    }

    // How many wait, at the callers' variable and in line.
    fn all_who_wait(&self) -> u64
        ensures { result ≡ all_who_wait (count_of self.now.waiting) self.now.places }
    {
        self.waiting
            .count()
            .saturating_add(self.line.waiting() as u64)
    }

    /// Since when somebody waits, once a caller does whose call began at this moment: since then,
    /// if nobody waits yet; else since the earlier of that moment and the one before.
    pub fn since_with(&self, start: Duration) -> Duration
        ensures { as_nanos result
            ≡ since_with (all_who_wait (count_of self.now.waiting) self.now.places)
            (as_nanos start) (as_nanos self.now.waiting.since) }
    {
        if self.all_who_wait() == 0 {
            return start;
        }
        self.waiting.since.min(start)
    }

    /// Whether a failed check applies to a connection that is idle since this moment.
    pub fn is_distrusted(&self, idle_since: Duration) -> bool
        ensures { IsTrue result
            ↔ (as_nanos idle_since < as_nanos self.now.failures.distrusted_before) }
    {
        self.failures.tell_of(idle_since)
    }

    /// Whether a caller that finds all lent is to wait at once, rather than to look again.
    pub fn is_hurried(&self, now: Duration) -> bool
        ensures { IsTrue result ↔ (as_nanos now < as_nanos self.now.hurried_until) }
    {
        now.as_nanos() < self.hurried_until.as_nanos()
    }

    /// Whether looks that began at the first moment have taken too long at the second. If so,
    /// nobody looks again for a second.
    pub fn hurry_if_long(&mut self, begun: Duration, now: Duration) -> bool
        ensures value { IsTrue result ↔ (PATIENCE ≤ as_nanos now - as_nanos begun) }
        ensures hurried { IsTrue result
            → as_nanos self.new.hurried_until ≡ min (as_nanos now + 1_000_000_000) max_nanos }
        ensures calm { result ≡ false → self.new.hurried_until ≡ self.old.hurried_until }
        ensures same { self.new ≡ record self.old { hurried_until = self.new.hurried_until } }
    {
        let is_long = has_passed(begun, now, PATIENCE);
        if is_long {
            self.hurried_until = now.saturating_add(Duration::from_secs(1));
        }
        is_long
    }

    /// Another caller is refused, since as many wait as may.
    pub fn refuse(&mut self)
        ensures failures { IsOneRefusalMore self.old.failures self.new.failures }
        ensures same { self.new ≡ record self.old { failures = self.new.failures } }
    {
        self.failures.add_refusal();
    }

    /// Another caller gives up, since its time is over.
    pub fn give_up(&mut self)
        ensures failures { IsOneTimeoutMore self.old.failures self.new.failures }
        ensures same { self.new ≡ record self.old { failures = self.new.failures } }
    {
        self.failures.add_timeout();
    }

    /// A caller that was woken came, or did not in time: nobody gives way to it any more.
    pub fn end_turn(&mut self)
        ensures same { self.new
            ≡ record self.old { waiting = record self.old.waiting { has_turn = false } } }
    {
        self.waiting.end_turn();
    }

    /// Whether something is idle that a caller may take as it comes, and gives way to nobody.
    pub fn is_free(&self) -> bool
        ensures { IsTrue result ↔ (0 < length self.now.book.picture.idle)
            × IsFalse self.now.waiting.has_turn }
    {
        self.book.book().idle() > 0 && !self.waiting.has_turn
    }

    /// Whether something is idle that one who was woken is to take first.
    pub fn is_anothers_turn(&self) -> bool
        ensures { IsTrue result ↔ (0 < length self.now.book.picture.idle)
            × IsTrue self.now.waiting.has_turn }
    {
        self.book.book().idle() > 0 && self.waiting.has_turn
    }

    /// Whether nothing is idle, and something is to come back.
    pub fn is_all_lent(&self) -> bool
        ensures { result ≡ is_all_lent self.now.book.picture }
    {
        let book = self.book.book();
        book.idle() == 0 && book.connections() > 0 && !book.is_closed()
    }

    /// Whether a caller would have to wait, if as many wait as may: then it counts as refused.
    pub fn is_refused(&mut self, max_waiting: Option<u32>) -> bool
        ensures value { result ≡ is_full max_waiting self.old.waiting.callers
            self.old.book.picture }
        ensures counted { IsTrue result → IsOneRefusalMore self.old.failures self.new.failures }
        ensures passed { result ≡ false → self.new.failures ≡ self.old.failures }
        ensures same { self.new ≡ record self.old { failures = self.new.failures } }
    {
        let is_full = self.is_full(max_waiting);
        if is_full {
            self.refuse();
        }
        is_full
    }

    /// Whether a caller would have to wait, if as many wait as may.
    pub fn is_full(&self, max_waiting: Option<u32>) -> bool
        ensures { result ≡ is_full max_waiting self.now.waiting.callers self.now.book.picture }
    {
        let Some(most) = max_waiting else {
            return false;
        };
        let book = self.book.book();
        book.idle() == 0 && !book.is_closed() && self.waiting.callers >= u64::from(most)
    }
}

impl<P, L: Ledger> PoolState<P, LedgerCounter<L>> {
    ghost use Rattle.pool_state.specs.Counted.{counted_up_to};

    /// As `Counted::audit`.
    pub fn audit(&mut self, all: &mut Share<L>) -> Result<Report, AllocError>
        requires { all.old.parts ≡ L.parts }
        ensures sound { IfOk result IsSoundReport }
        ensures takes { IfOk result (λ report. report.takes ≡ counted_up_to all.old.amount) }
        ensures same { self.new ≡ self.old }
        ensures amount { all.new.amount ≡ all.old.amount }
        ensures parts { all.new.parts ≡ all.old.parts }
    {
        self.book.audit(all)
    }
}
