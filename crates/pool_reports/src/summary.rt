// What is asked first of a report.
ghost use Rattle.std.specs.Prelude.{◌≡◌, ◌↔◌, ◌+◌, ◌-◌, ◌≤◌, map, IfOk, IfSome, IsSomeAnd};
ghost use Rattle.std.specs.Duration.{as_nanos};
ghost use Rattle.r2d2_core.specs.Reports.{seen_records, IsSoundReport};
ghost use Rattle.pool_reports.specs.Summaries.{opened_in, closed_in, FailNobody};
ghost use Rattle.pool_reports.specs.Verdicts.{IsVerdictOn};
ghost use Rattle.pool_reports.specs.declared.verdict.Verdict.TheVariants.{Sound};
ghost use Rattle.pool_reports.specs.declared.summary.concern.State.TheVariants.{Well};

use crate::calls::Calls;
use crate::origin::Origin;
use crate::status::PoolStatus;
use crate::verdict::{Verdict, audit_on};
use crate::walk::Walk;
use crate::{counting, nanoseconds};
pub use concern::{Concern, State};
use figures::Figures;
use r2d2_core::Report;
use serde::Serialize;
use std::alloc::{AllocError, Allocator, Global};
use std::time::Duration;

mod concern;
mod figures;

/// What a report says of the time that it covers. Times count from the creation of the pool. It is
/// written as an object with a field for each that is not skipped, times and durations as
/// in a report.
#[derive(Debug, Drop, Serialize)]
pub struct Summary {
    /// The time of the base, where the report begins.
    #[serde(serialize_with = "nanoseconds::serialize")]
    pub from: Duration,
    /// The time of the report, up to which it goes. If that is not known, or before the last
    /// record, it is that of the last record; if there is none, that of the base.
    #[serde(serialize_with = "nanoseconds::serialize")]
    pub until: Duration,
    /// How long a caller waits at most, by which it is judged what takes too long.
    #[serde(skip)]
    pub patience: Duration,
    /// How many connections there are at most.
    #[serde(skip)]
    pub max_size: u32,
    /// The most connections that were lent at once.
    pub most_lent: usize,
    /// For how long the pool was exhausted, as `Load` says it.
    #[serde(serialize_with = "nanoseconds::serialize")]
    pub exhausted: Duration,
    /// How long the longest while was in which it was exhausted.
    #[serde(serialize_with = "nanoseconds::serialize")]
    pub longest_exhaustion: Duration,
    /// Since when it is exhausted at the end, if it is.
    #[serde(serialize_with = "nanoseconds::optional::serialize")]
    pub exhausted_since: Option<Duration>,
    /// Since when openings are pending at the end and none succeeded, if some are pending.
    #[serde(serialize_with = "nanoseconds::optional::serialize")]
    pub opening_since: Option<Duration>,
    /// How many openings are pending at the end.
    pub pending: u32,
    /// How many connections were opened.
    pub opened: u64,
    /// How many were closed at their return, or since their check failed.
    pub closed: u64,
    /// How many of these were younger than half of the greatest age, and not of a closed pool:
    /// `lifetime_jitter` has some closed before that age.
    pub closed_early: u64,
    /// How many came back, those that were closed then among them.
    pub returned: u64,
    /// How many were closed while they were idle: by reaps, and at the close of the pool.
    pub reaped: u64,
    /// What is lent at the end, in the order of the takes.
    pub lent: Vec<Loan>,
    /// What callers met since an earlier report, or since the creation, if that is known.
    pub calls: Option<Calls>,
    /// What the pool showed of its callers at the end, if that is known.
    #[serde(skip)]
    pub status: Option<PoolStatus>,
}

/// A connection that is lent at the end of a report.
#[derive(Clone, Copy, Debug, PartialEq, Eq, Serialize)]
pub struct Loan {
    pub id: u64,
    /// The time of its take; None if that was folded into the base, and the service did not
    /// add it.
    #[serde(serialize_with = "nanoseconds::optional::serialize")]
    pub since: Option<Duration>,
}

impl Summary {
    /// How long the report covers.
    pub fn covers(&self) -> Duration
        ensures { as_nanos result ≡ as_nanos self.now.until - as_nanos self.now.from }
    {
        self.until.saturating_sub(self.from)
    }

    /// Whether all is well. It never is where a caller gave up or was refused in the time of
    /// `calls`, nor where nothing is known of that.
    pub fn state(&self) -> State
        ensures well { result ≡ Well → IsSomeAnd self.now.calls FailNobody }
    {
        let has_concerns = self.concerns().iter().any(|concern| concern.is_some());
        match self.calls {
            _ if has_concerns => State::Concerned,
            None => State::Unknown,
            Some(calls) if calls.have_failures() => State::Concerned,
            Some(_) => State::Well,
        }
    }
}

/// What was read of a report on one walk, of which a summary is made.
#[derive(Drop)]
pub struct Reading {
    figures: Figures,
    walk: Walk,
}

impl Reading {
    fn of<A: Allocator>(alloc: Global, report: &Report<A>) -> Result<Reading, AllocError> {
        let mut figures = Figures::none();
        let walk = Walk::through(alloc, report, &mut figures)?;
        Ok(Reading { figures, walk })
    }

    /// What `audit` finds, and what was read on its walk.
    pub fn audited(alloc: Global, report: &Report) -> Result<(Verdict, Reading), AllocError>
        ensures on { IfOk result (λ found. IsVerdictOn found.0 report.now) }
        ensures sound { IfOk result (λ found. (found.0 ≡ Sound) ↔ IsSoundReport report.now) }
    {
        let mut figures = Figures::none();
        let mut walk = Walk::begun(alloc, report)?;
        let verdict = audit_on(alloc, report, &mut walk, &mut figures)?;
        Ok((verdict, Reading { figures, walk }))
    }

    /// As `summarize`, of the report that was read.
    pub fn summary<A: Allocator>(
        &self,
        alloc: Global,
        report: &Report<A>,
        origin: &Origin<'_>,
        earlier: Option<&Calls>,
    ) -> Result<Summary, AllocError>
        ensures opened { IfOk result (λ s. s.opened ≡ opened_in (seen_records report.now)) }
        ensures closed { IfOk result (λ s. s.closed ≡ closed_in (seen_records report.now)) }
        ensures reaped { IfOk result
            (λ s. s.reaped
            ≡ (report.now.base.connections + opened_in (seen_records report.now))
            - (closed_in (seen_records report.now) + report.now.connections)) }
        ensures lent { IfOk result (λ s. map (λ l. l.id) s.lent.items ≡ report.now.lent.items) }
        ensures pending { IfOk result (λ s. s.pending ≡ report.now.pending) }
        ensures until { IfOk result
            (λ s. IfSome origin.now.reported_at (λ moment. as_nanos moment ≤ as_nanos s.until)) }
        ensures status { IfOk result (λ s. s.status ≡ origin.now.status) }
    {
        let records = report.records.as_slice();
        let (opened, closed) = (counting::opened(records), counting::closed(records));
        let came = report.base.connections as u128 + opened as u128;
        let left = closed as u128 + report.connections as u128;
        let lent = loans(alloc, report.lent.as_slice(), &self.walk, origin.loans)?;
        let until = self.walk.until(origin.reported_at);
        Ok(Summary {
            from: report.base.at,
            until,
            patience: patience(report, origin.status),
            max_size: report.limits.max_size(),
            most_lent: self.figures.most_lent,
            exhausted: self.walk.load.exhausted_until(until),
            longest_exhaustion: self.figures.longest_until(until),
            exhausted_since: self.figures.exhausted_since,
            opening_since: self.figures.opening_since,
            pending: report.pending,
            opened,
            closed,
            closed_early: self.figures.closed_early,
            returned: self.figures.returned,
            reaped: came.saturating_sub(left) as u64,
            lent,
            calls: calls(report.takes, origin.status, until, earlier),
            status: origin.status,
        })
    }
}

/// What a report says of the time that it covers: up to the time of the report, where that is
/// known, since what was so at the last record is so until then. Of a report that does not replay
/// it says as much as its records do. `origin` is what the service added; `earlier` is what
/// callers had met up to an earlier report of the pool, since the creation, so that this one counts
/// what came since.
///
/// It takes time in proportion to the records, and memory in proportion to the connections in them.
/// The error comes only where that is refused.
pub fn summarize<A: Allocator>(
    alloc: Global,
    report: &Report<A>,
    origin: &Origin<'_>,
    earlier: Option<&Calls>,
) -> Result<Summary, AllocError>
    ensures opened { IfOk result (λ s. s.opened ≡ opened_in (seen_records report.now)) }
    ensures closed { IfOk result (λ s. s.closed ≡ closed_in (seen_records report.now)) }
    ensures reaped { IfOk result
        (λ s. s.reaped
        ≡ (report.now.base.connections + opened_in (seen_records report.now))
        - (closed_in (seen_records report.now) + report.now.connections)) }
    ensures lent { IfOk result (λ s. map (λ l. l.id) s.lent.items ≡ report.now.lent.items) }
    ensures pending { IfOk result (λ s. s.pending ≡ report.now.pending) }
    ensures until { IfOk result
        (λ s. IfSome origin.now.reported_at (λ moment. as_nanos moment ≤ as_nanos s.until)) }
    ensures status { IfOk result (λ s. s.status ≡ origin.now.status) }
{
    Reading::of(alloc, report)?.summary(alloc, report, origin, earlier)
}

// How long a caller waits at most. Under a longest delay between openings, the limits have that in
// its place.
fn patience<A: Allocator>(report: &Report<A>, status: Option<PoolStatus>) -> Duration
    ensures known { IfSome status (λ s. result ≡ s.connection_timeout) }
{
    match status {
        Some(status) => status.connection_timeout,
        None => report.limits.connection_timeout(),
    }
}

fn calls(
    takes: u64,
    status: Option<PoolStatus>,
    until: Duration,
    earlier: Option<&Calls>,
) -> Option<Calls> {
    let calls = Calls::of(takes, &status?, until);
    Some(match earlier {
        Some(earlier) => calls.after(earlier),
        None => calls,
    })
}

// The lent ones, in the order of their takes, each with the time of its take: that of a record,
// or else that which the service added.
fn loans(
    alloc: Global,
    ids: &[u64],
    walk: &Walk,
    told: &[(u64, Duration)],
) -> Result<Vec<Loan>, AllocError>
    ensures { IfOk result (λ loans. map (λ l. l.id) loans.items ≡ ids.now) }
{
    let mut loans = Vec::with_capacity(alloc, ids.len())?;
    for id in ids {
        let since = walk.lent_since(*id).or(told_since(*id, told));
        loans.push(Loan { id: *id, since })?;
    }
    Ok(loans)
}

fn told_since(id: u64, told: &[(u64, Duration)]) -> Option<Duration> {
    told.iter().find(|loan| loan.0 == id).map(|loan| loan.1)
}
