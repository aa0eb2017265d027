// How it went for those who called, over a time.
ghost use Rattle.std.specs.Prelude.{◌≡◌, ◌↔◌, ◌≤◌, ◌<◌, ◌+◌, IsTrue, IfSome};
ghost use Rattle.std.specs.Duration.{as_nanos};
ghost use Rattle.pool_reports.specs.Calling.{HasFailures, IsGrownFrom, IsGrowthFrom};

use crate::nanoseconds;
use crate::status::{PoolStatus, Waits};
use serde::Serialize;
use std::time::Duration;

/// How it went for those who called: since the creation of the pool, or since an earlier
/// report of it.
#[derive(Clone, Copy, Debug, PartialEq, Eq, Serialize)]
pub struct Calls {
    /// The time from which on it counts, since the creation: zero, or that of the earlier report.
    #[serde(serialize_with = "nanoseconds::serialize")]
    pub since: Duration,
    /// The time up to which it counts.
    #[serde(skip)]
    pub until: Duration,
    /// How many takes found a connection.
    pub takes: u64,
    /// How many callers gave up, since their time was over.
    pub timeouts: u64,
    /// How many were refused at once, since as many waited as may.
    pub refused: u64,
    pub failed_openings: u64,
    pub failed_checks: u64,
    /// How many waited for long, if that is known.
    #[serde(skip)]
    pub waits: Option<Waits>,
}

impl Calls {
    /// Since the creation up to a time, as a report with so many takes and this status counts.
    pub fn of(takes: u64, status: &PoolStatus, until: Duration) -> Calls
        ensures since { as_nanos result.since ≡ 0 }
        ensures until { result.until ≡ until }
        ensures takes { result.takes ≡ takes }
        ensures timeouts { result.timeouts ≡ status.now.timeouts }
        ensures refused { result.refused ≡ status.now.refused }
        ensures openings { result.failed_openings ≡ status.now.failed_openings }
        ensures checks { result.failed_checks ≡ status.now.failed_checks }
    {
        Calls {
            since: Duration::ZERO,
            until,
            takes,
            timeouts: status.timeouts,
            refused: status.refused,
            failed_openings: status.failed_openings,
            failed_checks: status.failed_checks,
            waits: status.waits,
        }
    }

    /// Of what callers had met up to earlier reports of a pool, the oldest first, that up to the
    /// latest one which ends where a later report begins, or before. What came since is all that
    /// callers met in the time which the later one covers.
    pub fn before(earlier: &[Calls], from: Duration) -> Option<Calls>
        ensures { IfSome result (λ calls. as_nanos calls.until ≤ as_nanos from) }
    {
        let ends_before = |calls: &&Calls| calls.until.as_nanos() <= from.as_nanos();
        earlier.iter().rev().find(ends_before).copied()
    }

    /// How many called: those who were lent a connection, and those who failed.
    pub fn all(&self) -> u64 {
        self.takes
            .saturating_add(self.timeouts)
            .saturating_add(self.refused)
    }

    /// Whether callers failed.
    pub fn have_failures(&self) -> bool
        ensures { IsTrue result ↔ HasFailures self.now }
    {
        self.timeouts > 0 || self.refused > 0
    }

    /// What came since an earlier report, both counted since the creation. Where a count is smaller
    /// than it was, the pool was made anew in between: then all of this came since.
    pub fn after(&self, earlier: &Calls) -> Calls
        ensures grown { IsGrownFrom earlier.now self.now → IsGrowthFrom earlier.now self.now result }
        ensures anew { (IsGrownFrom earlier.now self.now → ⊥) → result ≡ self.now }
    {
        if !self.is_grown_from(earlier) {
            return *self;
        }
        Calls {
            since: earlier.until,
            until: self.until,
            takes: self.takes - earlier.takes,
            timeouts: self.timeouts - earlier.timeouts,
            refused: self.refused - earlier.refused,
            failed_openings: self.failed_openings - earlier.failed_openings,
            failed_checks: self.failed_checks - earlier.failed_checks,
            waits: self.waits.map(|waits| waits.after(earlier.waits)),
        }
    }

    // Whether no count is smaller than an earlier one.
    fn is_grown_from(&self, earlier: &Calls) -> bool
        ensures { IsTrue result ↔ IsGrownFrom earlier.now self.now }
    {
        earlier.until.as_nanos() <= self.until.as_nanos()
            && earlier.takes <= self.takes
            && earlier.timeouts <= self.timeouts
            && earlier.refused <= self.refused
            && earlier.failed_openings <= self.failed_openings
            && earlier.failed_checks <= self.failed_checks
    }
}
