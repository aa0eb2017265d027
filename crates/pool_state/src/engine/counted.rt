// A book whose takes a ledger counts.
ghost use Rattle.std.specs.Prelude.{ℕ, ⊤, ◌≡◌, ◌+◌, ◌*◌, ◌<◌, ◌≤◌, length, vec_len, vec_capacity};
ghost use Rattle.std.specs.Prelude.{IfOk};
ghost use Rattle.std.specs.Duration.{as_nanos};
ghost use Rattle.pool_machine.specs.Seen.{seen_take, seen_returned, map_ok};
ghost use Rattle.r2d2_core.specs.BookSteps.{IsTake, IsBegin, IsNumbering, IsReturn, IsReap};
ghost use Rattle.r2d2_core.specs.BookSteps.{IsTelling, IsClose};
ghost use Rattle.r2d2_core.specs.Journal.{next_count};
ghost use Rattle.r2d2_core.specs.Reports.{IsReportOf, IsSoundReport};
ghost use Rattle.pool_state.specs.Wakes.{wakes_of_take, wakes_of_return, wakes_of_reap};
ghost use Rattle.pool_state.specs.Settled.{seen_settled, wakes_of_settled, IsSettling};
ghost use Rattle.pool_state.specs.Counted.{found_by, counted_up_to, counted_where};

use super::{Outcome, Settled, Wakes, give_back, lend, settle, sweep};
use r2d2_core::machine::Leftover;
use r2d2_core::{Book, Job, Refusal, Released, Report, Returned, Take};
use std::alloc::AllocError;
use std::marker::Model;
use std::sync::ledger;
use std::sync::ledger::{Ledger, Share};
use std::time::Duration;

/// What counts the takes of a book that found: it stands at their number.
///
/// It is public as far as the types of `Pool` and `Counted` ask, and so are `TakeCounter`,
/// `Uncounted`, `LedgerCounter` and `CountingBook`: no user names or implements them.
pub trait TakeTotal: Drop {
    // Whether it stands at a count of takes.
    ghost stands_at: { Self → ℕ → Type 0 };
}

/// A counter that is called for each take that found, with a tally.
pub trait TakeCounter: TakeTotal {
    /// What a take is counted with.
    type Tally;

    // The tally's right to count, what it counted, and by how much a take that finds raises that.
    ghost parts: { Self.Tally → ℕ };

    ghost amount: { Self.Tally → ℕ };

    ghost per_take: { ℕ };

    // At what it stands after one more.
    ghost counts: { Self → Self → Type 0 };

    /// Counts a take.
    fn count(&mut self, tally: &mut Self::Tally)
        requires { 0 < parts tally.old }
        ensures parts { parts tally.new ≡ parts tally.old }
        ensures amount { amount tally.new ≡ amount tally.old + per_take }
        ensures counts { counts self.old self.new }
        ensures stands { (takes : ℕ) → Self.stands_at self.old takes
            → Self.stands_at self.new (next_count takes) };
}

/// Counts nothing.
#[derive(Drop)]
pub struct Uncounted;

impl TakeTotal for Uncounted {
    ghost stands_at = { λ _ _. ⊤ };
}

impl TakeCounter for Uncounted {
    type Tally = ();

    ghost parts = { λ _. 1 };

    ghost amount = { λ _. 0 };

    ghost per_take = { 0 };

    ghost counts = { λ _ _. ⊤ };

    fn count(&mut self, _tally: &mut ()) {}
}

/// Counts in the book of a ledger: a take adds one to the share that it brings, and to the ledger's
/// total.
#[derive(Drop)]
pub struct LedgerCounter<L: Ledger> {
    book: ledger::Book<L>,
}

// Contracts see it as the ledger's total.
impl<L: Ledger> Model for LedgerCounter<L> {
    ghost use Rattle.std.specs.Prelude.{ℕ};

    ghost Value = { ℕ };

    ghost view = { λ t. t.book.total };
}

impl<L: Ledger> TakeTotal for LedgerCounter<L> {
    ghost stands_at = { λ total takes. takes ≡ counted_up_to total };
}

impl<L: Ledger> TakeCounter for LedgerCounter<L> {
    type Tally = Share<L>;

    ghost parts = { λ share. share.parts };

    ghost amount = { λ share. share.amount };

    ghost per_take = { 1 };

    ghost counts = { λ old new. new ≡ old + 1 };

    fn count(&mut self, tally: &mut Share<L>) {
        self.book.add(tally, 1);
    }
}

/// A book beside what counts its takes: the counter stands at the number of the book's takes that
/// found.
///
/// Outside of this crate it has no name but `Counted`, whose one take is `lend_counted`. All else
/// is the book's, and leaves the counter.
#[derive(Drop)]
pub struct CountingBook<T, C: TakeTotal> {
    book: Book<T>,
    total: C,
}

impl<T, C: TakeTotal> Model for CountingBook<T, C> {
    ghost use Rattle.pool_state.specs.Counted.{SeenCounted, seen_counted};

    ghost Value = { SeenCounted T C };

    ghost view = { λ c. seen_counted c.book c.total };

    ghost invariant = { λ c. C.stands_at c.total c.book.journal.takes };
}

/// A book beside the book of a ledger. The ledger's total is the number of the book's takes that
/// found, up to `u64::MAX`.
pub type Counted<T, L> = CountingBook<T, LedgerCounter<L>>;

impl<T> CountingBook<T, Uncounted> {
    /// A book whose takes nothing counts.
    pub fn plain(book: Book<T>) -> CountingBook<T, Uncounted>
        ensures book { result.book ≡ book }
    {
        CountingBook {
            book,
            total: Uncounted,
        }
    }
}

impl<T, L: Ledger> Counted<T, L> {
    /// A book of which nothing was taken yet, beside a ledger that counted nothing yet.
    pub fn new(book: Book<T>, total: ledger::Book<L>) -> Counted<T, L>
        requires takes { book.journal.takes ≡ 0 }
        requires total { total.total ≡ 0 }
        ensures book { result.book ≡ book }
        ensures total { result.total ≡ 0 }
    {
        CountingBook {
            book,
            total: LedgerCounter { book: total },
        }
    }

    /// The book's report, if `all` has all parts of the ledger: so its `takes` is what they
    /// counted. Nothing changes.
    pub fn audit(&mut self, all: &mut Share<L>) -> Result<Report, AllocError>
        requires { all.old.parts ≡ L.parts }
        ensures given { IfOk result (λ report. IsReportOf self.old.book report) }
        ensures sound { IfOk result IsSoundReport }
        ensures since { IfOk result
            (λ report. report.lost ≡ 0 → as_nanos report.base.at ≡ self.old.book.journal.made) }
        ensures takes { IfOk result (λ report. report.takes ≡ counted_up_to all.old.amount) }
        ensures book { self.new.book ≡ self.old.book }
        ensures total { self.new.total ≡ self.old.total }
        ensures amount { all.new.amount ≡ all.old.amount }
        ensures parts { all.new.parts ≡ all.old.parts }
    {
        self.total.book.audit(all);
        self.book.report()
    }
}

impl<T, C: TakeTotal> CountingBook<T, C> {
    /// The book, to be read.
    pub fn book(&self) -> &Book<T>
        ensures value { result.now ≡ self.now.book }
    {
        &self.book
    }

    /// As `give_back`.
    #[inline(always)]
    pub fn give_back(
        &mut self,
        now: Duration,
        id: u64,
        value: T,
        broken: bool,
    ) -> (Result<Returned<T>, (Refusal, T)>, Wakes)
        ensures step { IsReturn now id value broken result.0 self.old.book self.new.book }
        ensures wakes { result.1 ≡ wakes_of_return (map_ok seen_returned result.0) }
        ensures total { self.new.total ≡ self.old.total }
    {
        give_back(&mut self.book, now, id, value, broken)
    }

    /// As `settle`.
    pub fn settle(&mut self, now: Duration, outcome: Outcome<T>) -> (Settled<T>, Wakes)
        ensures step { IsSettling now outcome result.0 self.old.book self.new.book }
        ensures wakes { result.1 ≡ wakes_of_settled (seen_settled result.0) }
        ensures total { self.new.total ≡ self.old.total }
    {
        settle(&mut self.book, now, outcome)
    }

    /// As `sweep`.
    pub fn sweep(&mut self, now: Duration, out: &mut Vec<Released<T>>) -> (u32, Wakes)
        requires empty { vec_len out.old ≡ 0 }
        requires room { self.old.book.picture.on_order.limits.max_size ≤ vec_capacity out.old }
        ensures step { IsReap now out.new.items result.0 self.old.book self.new.book }
        ensures wakes { result.1 ≡ wakes_of_reap (length out.new.items) result.0 }
        ensures total { self.new.total ≡ self.old.total }
    {
        sweep(&mut self.book, now, out)
    }

    /// As `Book::begin`.
    pub fn begin(&mut self, now: Duration) -> Job
        ensures step { IsBegin now result self.old.book self.new.book }
        ensures total { self.new.total ≡ self.old.total }
    {
        self.book.begin(now)
    }

    /// As `Book::number`.
    pub fn number(&mut self, tries: u32) -> Result<u64, Refusal>
        ensures step { IsNumbering tries result self.old.book self.new.book }
        ensures total { self.new.total ≡ self.old.total }
    {
        self.book.number(tries)
    }

    /// As `Book::take_error`.
    pub fn take_error(&mut self) -> Option<String>
        ensures step { IsTelling result self.old.book self.new.book }
        ensures total { self.new.total ≡ self.old.total }
    {
        self.book.take_error()
    }

    /// As `Book::close`.
    pub fn close(&mut self) -> Leftover<T>
        ensures step { IsClose result self.old.book self.new.book }
        ensures total { self.new.total ≡ self.old.total }
    {
        self.book.close()
    }

    /// As `Book::report`.
    pub fn report(&self) -> Result<Report, AllocError>
        ensures given { IfOk result (λ report. IsReportOf self.now.book report) }
        ensures sound { IfOk result IsSoundReport }
        ensures since { IfOk result
            (λ report. report.lost ≡ 0 → as_nanos report.base.at ≡ self.now.book.journal.made) }
    {
        self.book.report()
    }
}

impl<T, C: TakeCounter> CountingBook<T, C> {
    /// As `lend` of a book. A take that found is counted with the tally, which has a part at least.
    #[inline(always)]
    pub fn lend(&mut self, now: Duration, or_order: bool, tally: &mut C::Tally) -> (Take<T>, Wakes)
        requires { 0 < C.parts tally.old }
        ensures step { IsTake now or_order result.0 self.old.book self.new.book }
        ensures wakes { result.1 ≡ wakes_of_take (seen_take result.0) }
        ensures parts { C.parts tally.new ≡ C.parts tally.old }
        ensures amount { C.amount tally.new
            ≡ C.amount tally.old + found_by (seen_take result.0) * C.per_take }
        ensures total { counted_where C.counts (seen_take result.0) self.old.total self.new.total }
    {
        let (taken, wakes) = lend(&mut self.book, now, or_order);
        if let Take::Found { .. } = &taken {
            self.total.count(tally);
        }
        (taken, wakes)
    }
}

impl<T: Drop, C: TakeCounter> CountingBook<T, C> {
    ghost use Rattle.std.specs.Prelude.{max, map, option_map, false};
    ghost use Rattle.pool_machine.specs.Connections.{released_at};
    ghost use Rattle.pool_machine.specs.Lending.{still_idle};
    ghost use Rattle.pool_machine.specs.Picture.{IsSound};
    ghost use Rattle.pool_machine.specs.Seen.{seen_released};
    ghost use Rattle.pool_machine.specs.Table.{next_of};
    ghost use Rattle.pool_state.specs.Counted.{number_of};
    ghost use Rattle.pool_state.specs.Evicted.{evicted_of, one_evicted, after_eviction, IsEvicted};

    /// Closes all that is idle: each connection is taken, and given back as a broken one. They are
    /// handed over in `out`, in the order in which they would have been lent. Each take is counted
    /// with the tally, which has a part at least.
    pub(crate) fn evict(&mut self, now: Duration, tally: &mut C::Tally, out: &mut Vec<Released<T>>)
        requires parts { 0 < C.parts tally.old }
        requires empty { vec_len out.old ≡ 0 }
        requires room { self.old.book.picture.on_order.limits.max_size ≤ vec_capacity out.old }
        ensures released { map seen_released out.new.items
            ≡ evicted_of (as_nanos now) self.old.book.picture }
        ensures after { self.new.book ≡ after_eviction (as_nanos now) self.old.book }
        ensures comes_to { IsEvicted (as_nanos now) self.old.book.picture self.new.book.picture }
        ensures sound { IsSound self.new.book.picture }
        ensures parts { C.parts tally.new ≡ C.parts tally.old }
        ensures amount { C.amount tally.new
            ≡ C.amount tally.old + length out.new.items * C.per_take }
    {
        let _idle = self.book().idle();
        while let Some(released) = self.evict_next(now, tally) {
            out.push_reserved(released);
        }
    }

    // Closes the idle connection that would be lent next; None where none is idle.
    fn evict_next(&mut self, now: Duration, tally: &mut C::Tally) -> Option<Released<T>>
        requires { 0 < C.parts tally.old }
        ensures released { option_map seen_released result
            ≡ option_map (released_at (max self.old.book.picture.latest (as_nanos now)))
            (next_of self.old.book.picture) }
        ensures after { self.new.book
            ≡ one_evicted (as_nanos now)
            (next_of self.old.book.picture) self.old.book }
        ensures idle { self.new.book.picture.idle
            ≡ still_idle self.old.book.picture.on_order.limits.order self.old.book.picture.idle }
        ensures lent { self.new.book.picture.lent ≡ self.old.book.picture.lent }
        ensures latest { self.new.book.picture.latest
            ≡ max self.old.book.picture.latest (as_nanos now) }
        ensures limits { self.new.book.picture.on_order.limits
            ≡ self.old.book.picture.on_order.limits }
        ensures next_id { self.new.book.picture.on_order.next_id
            ≡ self.old.book.picture.on_order.next_id }
        ensures closed { self.new.book.picture.on_order.closed
            ≡ self.old.book.picture.on_order.closed }
        ensures pending { self.old.book.picture.on_order.closed ≡ false
            → self.old.book.picture.on_order.pending ≤ self.new.book.picture.on_order.pending }
        ensures last_error { self.new.book.picture.last_error ≡ self.old.book.picture.last_error }
        ensures sound { IsSound self.new.book.picture }
        ensures parts { C.parts tally.new ≡ C.parts tally.old }
        ensures amount { C.amount tally.new ≡ C.amount tally.old + number_of result * C.per_take }
    {
        let (taken, _wakes) = self.lend(now, false, tally);
        let Take::Found { id, value, .. } = taken else {
            return None;
        };
        let (answer, _wakes) = self.give_back(now, id, value, true);
        match answer {
            Ok(Returned::Closed { value, age, .. }) => Some(Released { id, age, value }),
            // What was lent and comes back broken is closed.
            Ok(Returned::Kept) => unreachable!(),
            Err(_) => unreachable!(),
        }
    }
}

/// As `lend`. A take that found adds one to the share and to the ledger's total; the share has a
/// part at least.
pub fn lend_counted<T, L: Ledger>(
    counted: &mut Counted<T, L>,
    now: Duration,
    or_order: bool,
    share: &mut Share<L>,
) -> (Take<T>, Wakes)
    requires { 0 < share.old.parts }
    ensures step { IsTake now or_order result.0 counted.old.book counted.new.book }
    ensures wakes { result.1 ≡ wakes_of_take (seen_take result.0) }
    ensures parts { share.new.parts ≡ share.old.parts }
    ensures amount { share.new.amount ≡ share.old.amount + found_by (seen_take result.0) }
    ensures total { counted.new.total ≡ counted.old.total + found_by (seen_take result.0) }
{
    counted.lend(now, or_order, share)
}
