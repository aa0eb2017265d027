// A pool's report as a line of JSON, with what its callers met.
ghost use Rattle.std.specs.Prelude.{◌≡◌};

use crate::heard::LatestError;
use crate::loans::LongLoan;
use crate::recording::Metrics;
use pool_reports::{Origin, PoolStatus, Waits, to_json_of_pool};
use r2d2::{Observe, Status};
use std::alloc::{AllocError, AllocGlobal, Global};
use std::rt::Clock;
use std::sync::Wait;
use std::time::Duration;

/// What a pool's journal says now as one line of JSON, with all that is known of its callers: the
/// text that `to_json_of_pool` of `pool_reports` writes, in one call. `name` is what the pool is
/// called, and `metrics` are those of this pool alone, made just before it.
///
/// The line has no less than what happened up to its time; of what happens while it is made, it
/// may have some. The error is lack of memory.
///
/// A service without metrics writes the `Origin` itself: `Origin::at(pool.created_at(),
/// pool.uptime())`, with the status of [`status_of`], whose `waits` are then None.
pub fn report_of<P: Observe, R: Clock + Wait + AllocGlobal>(
    alloc: Global,
    name: &str,
    pool: &P,
    metrics: &Metrics<R>,
) -> Result<String, AllocError> {
    // The journal comes before the time, so that no record is later than that; all else comes
    // after it, the counts last, so that each call counts that failed before it. So a loan may seem
    // to have begun earlier, and a count be higher, by what these readings take.
    let report = pool.journal().map_err(|_| AllocError)?;
    let moment = pool.uptime();
    let loans = begun(alloc, metrics.loans()?.as_slice(), moment)?;
    let timeout = pool.connection_timeout();
    let waits = metrics.snapshot().waits_above(timeout / 3);
    let error = metrics.latest_error()?;
    let origin = Origin {
        name: Some(name),
        created_at: pool.created_at(),
        reported_at: Some(moment),
        status: Some(status_of(timeout, &pool.status(), Some(waits))),
        latest_error: error.as_ref().and_then(text_of),
        loans: loans.as_slice(),
    };
    to_json_of_pool(alloc, &report, origin)
}

/// What callers met, as a report says it: of a pool whose `get` waits for `connection_timeout` at
/// most, and of whose callers `waits` says how many waited for long.
pub fn status_of(connection_timeout: Duration, status: &Status, waits: Option<Waits>) -> PoolStatus
    ensures { result ≡ record {
      connection_timeout = connection_timeout;
      waiting = status.now.waiting;
      waiting_since = status.now.waiting_since;
      timeouts = status.now.timeouts;
      refused = status.now.refused;
      failed_openings = status.now.failed_openings;
      failed_checks = status.now.failed_checks;
      latest_failure = status.now.latest_failure;
      waits = waits;
    } }
{
    PoolStatus {
        connection_timeout,
        waiting: status.waiting,
        waiting_since: status.waiting_since,
        timeouts: status.timeouts,
        refused: status.refused,
        failed_openings: status.failed_openings,
        failed_checks: status.failed_checks,
        latest_failure: status.latest_failure,
        waits,
    }
}

// What the error said, if that is known.
fn text_of(error: &LatestError) -> Option<&str> {
    error.text.as_deref()
}

// Since when each of these is lent, at this time.
fn begun(
    alloc: Global,
    loans: &[LongLoan],
    moment: Duration,
) -> Result<Vec<(u64, Duration)>, AllocError> {
    loans
        .iter()
        .map(|loan| (loan.id, loan.since(moment)))
        .collect(alloc)
}
