//! What the pool does to its book while it holds the lock: one function for each thing, which says
//! whom to wake when the lock is free again.
ghost use Rattle.std.specs.Prelude.{◌≡◌, ◌≤◌, length, vec_len, vec_capacity};
ghost use Rattle.std.specs.Duration.{as_nanos};
ghost use Rattle.pool_machine.specs.Seen.{seen_take, seen_returned, seen_gone, map_ok};
ghost use Rattle.r2d2_core.specs.BookSteps.{IsTake, IsReturn, IsReap};
ghost use Rattle.pool_state.specs.Wakes.{wakes_of_take, wakes_of_return, wakes_of_reap};
ghost use Rattle.pool_state.specs.Settled.{seen_settled, wakes_of_settled, IsSettling};

mod counted;

pub use counted::{
    Counted, CountingBook, LedgerCounter, TakeCounter, TakeTotal, Uncounted, lend_counted,
};
use r2d2_core::{Book, Gone, Refusal, Released, Returned, Take};
use std::alloc::Allocator;
use std::time::Duration;

/// Whom to wake after a step.
#[derive(Clone, Copy, PartialEq, Eq, Debug)]
pub struct Wakes {
    /// One caller that waits for a connection.
    pub caller: bool,
    /// All workers that wait for something to do.
    pub workers: bool,
}

impl Wakes {
    ghost use Rattle.pool_state.specs.Wakes.{nobody, workers_for, caller_and_workers_for};

    // After a refusal, or a reading.
    pub(crate) fn nobody() -> Wakes
        ensures { result ≡ nobody }
    {
        Wakes {
            caller: false,
            workers: false,
        }
    }

    // The workers where openings were ordered.
    fn workers_for(ordered: u32) -> Wakes
        ensures { result ≡ workers_for ordered }
    {
        Wakes {
            caller: false,
            workers: ordered > 0,
        }
    }

    // A caller, and the workers where openings were ordered.
    fn caller_and_workers_for(ordered: u32) -> Wakes
        ensures { result ≡ caller_and_workers_for ordered }
    {
        Wakes {
            caller: true,
            workers: ordered > 0,
        }
    }
}

/// What became of an opening, or of a check.
#[derive(Drop, Debug)]
pub enum Outcome<T> {
    /// A connection was opened, and has this id.
    Opened { id: u64, value: T },
    /// An opening failed, after `tries` failures before it. The text is the error's, if there was
    /// memory for it.
    Failed { tries: u32, text: Option<String> },
    /// The check of a lent connection failed.
    Unsound { id: u64, text: Option<String> },
}

/// How an outcome was settled.
#[derive(Drop, Debug)]
pub enum Settled<T> {
    /// The connection is idle.
    Admitted,
    /// The opening is tried again at this moment.
    Retry(Duration),
    /// The lent connection is no longer the pool's.
    Gone(Gone),
    /// Nothing changed. A connection that was to be admitted comes back.
    Refused(Refusal, Option<T>),
}

impl<T> Settled<T> {
    ghost use Rattle.pool_state.specs.Settled.{settled_admission, settled_failure, settled_check};

    // By the book's answer to an admission.
    fn of_admission(answer: Result<(), (Refusal, T)>) -> Settled<T>
        ensures { seen_settled result ≡ settled_admission answer }
    {
        match answer {
            Ok(()) => Settled::Admitted,
            Err((why, value)) => Settled::Refused(why, Some(value)),
        }
    }

    // To a failed opening.
    fn of_failure(answer: Result<Duration, Refusal>) -> Settled<T>
        ensures { seen_settled result ≡ settled_failure (map_ok as_nanos answer) }
    {
        match answer {
            Ok(due) => Settled::Retry(due),
            Err(why) => Settled::Refused(why, None),
        }
    }

    // To a failed check.
    fn of_check(answer: Result<Gone, Refusal>) -> Settled<T>
        ensures { seen_settled result ≡ settled_check (map_ok seen_gone answer) }
    {
        match answer {
            Ok(gone) => Settled::Gone(gone),
            Err(why) => Settled::Refused(why, None),
        }
    }

    // Whom to wake after it.
    fn wakes(&self) -> Wakes
        ensures { result ≡ wakes_of_settled (seen_settled self.now) }
    {
        match self {
            Settled::Admitted => Wakes::caller_and_workers_for(0),
            // The opening that failed is due again.
            Settled::Retry(_) => Wakes::workers_for(1),
            Settled::Gone(gone) => Wakes::caller_and_workers_for(gone.ordered),
            Settled::Refused(..) => Wakes::nobody(),
        }
    }
}

/// Takes the idle connection that is lent next, as `Book::take`.
#[inline(always)]
pub fn lend<T, A: Allocator>(
    book: &mut Book<T, A>,
    now: Duration,
    or_order: bool,
) -> (Take<T>, Wakes)
    ensures step { IsTake now or_order result.0 book.old book.new }
    ensures wakes { result.1 ≡ wakes_of_take (seen_take result.0) }
{
    let taken = book.take(now, or_order);
    let wakes = match &taken {
        Take::Found { ordered, .. } | Take::Empty { ordered } => Wakes::workers_for(*ordered),
    };
    (taken, wakes)
}

/// Gives a lent connection back, as `Book::put_back`. One that is closed is handed over, and so is
/// one that is refused.
#[inline(always)]
pub fn give_back<T, A: Allocator>(
    book: &mut Book<T, A>,
    now: Duration,
    id: u64,
    value: T,
    broken: bool,
) -> (Result<Returned<T>, (Refusal, T)>, Wakes)
    ensures step { IsReturn now id value broken result.0 book.old book.new }
    ensures wakes { result.1 ≡ wakes_of_return (map_ok seen_returned result.0) }
{
    let returned = book.put_back(now, id, value, broken);
    let wakes = match &returned {
        Ok(Returned::Kept) => Wakes::caller_and_workers_for(0),
        Ok(Returned::Closed { ordered, .. }) => Wakes::caller_and_workers_for(*ordered),
        Err(_) => Wakes::nobody(),
    };
    (returned, wakes)
}

/// Reports to the book what became of an opening or a check: `Opened` is admitted, `Failed` and
/// `Unsound` are as `Book::fail` and `Book::fail_check`.
pub fn settle<T, A: Allocator>(
    book: &mut Book<T, A>,
    now: Duration,
    outcome: Outcome<T>,
) -> (Settled<T>, Wakes)
    ensures step { IsSettling now outcome result.0 book.old book.new }
    ensures wakes { result.1 ≡ wakes_of_settled (seen_settled result.0) }
{
    let settled = match outcome {
        Outcome::Opened { id, value } => Settled::of_admission(book.admit(now, id, value)),
        Outcome::Failed { tries, text } => Settled::of_failure(book.fail(now, tries, text)),
        Outcome::Unsound { id, text } => Settled::of_check(book.fail_check(now, id, text)),
    };
    let wakes = settled.wakes();
    (settled, wakes)
}

/// Closes the idle connections that are expired, as `Book::reap`: they are handed over in `out`.
/// The number is that of the openings that were ordered.
pub fn sweep<T, A: Allocator>(
    book: &mut Book<T, A>,
    now: Duration,
    out: &mut Vec<Released<T>>,
) -> (u32, Wakes)
    requires empty { vec_len out.old ≡ 0 }
    requires room { book.old.picture.on_order.limits.max_size ≤ vec_capacity out.old }
    ensures step { IsReap now out.new.items result.0 book.old book.new }
    ensures wakes { result.1 ≡ wakes_of_reap (length out.new.items) result.0 }
{
    let ordered = book.reap(now, out);
    let wakes = Wakes {
        caller: out.len() > 0,
        workers: ordered > 0,
    };
    (ordered, wakes)
}
