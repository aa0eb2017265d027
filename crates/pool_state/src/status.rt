// The counts of a pool.
ghost use Rattle.std.specs.Prelude.{◌≡◌, ◌≤◌, None, length};
ghost use Rattle.pool_machine.specs.Limits.{wanted_of};

use crate::failures::Failures;
use r2d2_core::Book;
use std::fmt;
use std::time::Duration;

/// The counts of a pool at one point in time. Only a pool makes one.
#[derive(Clone, Copy)]
pub struct State {
    /// How many connections there are, idle and lent ones together. Those that are being opened are
    /// not among them.
    pub connections: u32,
    /// How many of them are idle.
    pub idle_connections: u32,
    of_a_pool: (),
}

impl State {
    // What the book shows.
    pub fn of<P>(book: &Book<P>) -> State
        ensures connections { result.connections ≡ book.now.picture.connections }
        ensures idle { result.idle_connections ≡ length book.now.picture.idle }
        ensures within { result.idle_connections ≤ result.connections }
    {
        State {
            connections: book.connections(),
            idle_connections: book.idle(),
            of_a_pool: (),
        }
    }
}

/// What a pool is doing at one point in time. `lent` and `idle` together are `connections`;
/// `connections` and `opening` together are at most `max_size`; and unless the pool is closed,
/// `idle` and `opening` together reach `wanted`, or there is no room for more.
#[derive(Clone, Copy, PartialEq, Eq, Debug)]
pub struct Status {
    /// How many connections there are at most.
    pub max_size: u32,
    /// How many the pool tries to keep idle: `min_idle`, or else `max_size`.
    pub wanted: u32,
    /// How many there are, idle and lent.
    pub connections: u32,
    pub idle: u32,
    pub lent: u32,
    /// How many are ordered and not there yet, those among them that failed and will be tried
    /// again.
    pub opening: u32,
    /// How many workers of a pool for tasks are at work: those that were polled, and neither ended
    /// nor were dropped. None for a pool of threads, which starts its own.
    pub workers: Option<u32>,
    /// How many callers wait, for a connection or in a `drain`.
    pub waiting: u64,
    /// Since this moment there has been a caller waiting, without a break; None if nobody waits.
    /// Each waits since its call began, by the first reading of the clock that it needed.
    pub waiting_since: Option<Duration>,
    /// How many openings failed so far, those among them whose connection the customizer refused.
    pub failed_openings: u64,
    /// How many checks failed so far.
    pub failed_checks: u64,
    /// How many callers were refused so far, since as many waited as may: those that got
    /// `ErrorKind::QueueFull`.
    pub refused: u64,
    /// How many callers gave up so far, since their time was over: those that got
    /// `ErrorKind::Timeout` by a get.
    pub timeouts: u64,
    /// The moment of the latest opening or check that failed; None before the first.
    pub latest_failure: Option<Duration>,
    /// Whether it is closed: then nothing is idle, and nothing is opened.
    pub closed: bool,
}

impl Status {
    ghost use Rattle.pool_state.specs.Since.{since_if};
    ghost use Rattle.pool_state.specs.Status.{IsStatus};

    /// What r2d2 shows of it.
    pub fn state(&self) -> State
        ensures connections { result.connections ≡ self.now.connections }
        ensures idle { result.idle_connections ≡ self.now.idle }
    {
        State {
            connections: self.connections,
            idle_connections: self.idle,
            of_a_pool: (),
        }
    }

    // What the book shows, with so many callers who wait, since when somebody does if so, and what
    // failed.
    pub fn of<P>(book: &Book<P>, waiting: u64, since: Duration, failures: &Failures) -> Status
        ensures sums { IsStatus result }
        ensures max_size { result.max_size ≡ book.now.picture.on_order.limits.max_size }
        ensures wanted { result.wanted ≡ wanted_of book.now.picture.on_order.limits }
        ensures idle { result.idle ≡ length book.now.picture.idle }
        ensures lent { result.lent ≡ length book.now.picture.lent }
        ensures opening { result.opening ≡ book.now.picture.on_order.pending }
        ensures workers { result.workers ≡ None }
        ensures waiting { result.waiting ≡ waiting }
        ensures since { result.waiting_since ≡ since_if waiting since }
        ensures openings { result.failed_openings ≡ failures.now.openings }
        ensures checks { result.failed_checks ≡ failures.now.checks }
        ensures refused { result.refused ≡ failures.now.refused }
        ensures timeouts { result.timeouts ≡ failures.now.timeouts }
        ensures latest { result.latest_failure ≡ failures.now.latest }
        ensures closed { result.closed ≡ book.now.picture.on_order.closed }
    {
        let limits = book.limits();
        let (connections, idle) = (book.connections(), book.idle());
        Status {
            max_size: limits.max_size(),
            wanted: limits.wanted(),
            connections,
            idle,
            lent: connections - idle,
            opening: book.pending(),
            workers: None,
            waiting,
            waiting_since: (waiting > 0).then_some(since),
            failed_openings: failures.openings,
            failed_checks: failures.checks,
            refused: failures.refused,
            timeouts: failures.timeouts,
            latest_failure: failures.latest,
            closed: book.is_closed(),
        }
    }
}

impl fmt::Debug for State {
    fn fmt<W: fmt::Write>(&self, f: &mut fmt::Formatter<W>) -> fmt::Result {
        f.debug_struct("State")
            .field("connections", &self.connections)
            .field("idle_connections", &self.idle_connections)
            .finish()
    }
}
