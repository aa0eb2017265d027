// What a service knows of a report besides what it says.
ghost use Rattle.std.specs.Prelude.{◌≡◌, [], None, Some};

use crate::status::PoolStatus;
use r2d2_core::Report;
use std::time::{Duration, SystemTime};

/// What a service adds to a report of its pool, so that whoever reads it later knows which pool it
/// was, and when. Each of it may be unknown.
#[derive(Clone, Copy, Debug, PartialEq, Eq)]
pub struct Origin<'a> {
    /// What the pool is called, where a log has the reports of several.
    pub name: Option<&'a str>,
    /// What the wall clock showed when the pool was made, from which its times count.
    pub created_at: Option<SystemTime>,
    /// The time of the report, since the pool was made. Without it a report ends with its last
    /// record, however long ago that was.
    pub reported_at: Option<Duration>,
    /// What callers met. Without it nobody who reads the report knows whether callers failed.
    pub status: Option<PoolStatus>,
    /// The text of the latest error of an opening or a check.
    pub latest_error: Option<&'a str>,
    /// Since when connections are lent that are lent now: the id of each of which that is known,
    /// and the time since the pool was made. A journal of little room has forgotten the takes of
    /// those that are lent for long.
    pub loans: &'a [(u64, Duration)],
}

impl<'a> Origin<'a> {
    /// Nothing is known.
    pub fn unknown() -> Origin<'static>
        ensures name { result.name ≡ None }
        ensures status { result.status ≡ None }
    {
        Origin {
            name: None,
            created_at: None,
            reported_at: None,
            status: None,
            latest_error: None,
            loans: &[],
        }
    }

    /// A report at this time since the creation, as `Pool::uptime` gives it, of a pool that was
    /// made when the wall clock showed `created_at`.
    pub fn at(created_at: Option<SystemTime>, moment: Duration) -> Origin<'static>
        ensures name { result.name ≡ None }
        ensures created_at { result.created_at ≡ created_at }
        ensures reported_at { result.reported_at ≡ Some moment }
        ensures status { result.status ≡ None }
    {
        Origin {
            created_at,
            reported_at: Some(moment),
            ..Origin::unknown()
        }
    }

    /// The same, of a pool that is called so.
    pub fn named(self, name: &'a str) -> Origin<'a> {
        Origin {
            name: Some(name),
            ..self
        }
    }

    /// The same, where this is what callers met.
    pub fn with_status(self, status: PoolStatus) -> Origin<'a>
        ensures { result ≡ record self.entry { status = Some status } }
    {
        Origin {
            status: Some(status),
            ..self
        }
    }

    /// The same, with the text of the latest error.
    pub fn with_error(self, text: &'a str) -> Origin<'a> {
        Origin {
            latest_error: Some(text),
            ..self
        }
    }

    /// The same, with the times since which connections are lent.
    pub fn with_loans(self, loans: &'a [(u64, Duration)]) -> Origin<'a> {
        Origin { loans, ..self }
    }
}

/// A report that was read, and what its service added to it.
#[derive(Drop)]
pub struct Written {
    pub report: Report,
    /// What the pool is called.
    pub name: Option<String>,
    /// What the wall clock showed when the pool was made.
    pub created_at: Option<SystemTime>,
    /// The time of the report, since the pool was made.
    pub reported_at: Option<Duration>,
    /// What callers met.
    pub status: Option<PoolStatus>,
    /// The text of the latest error.
    pub latest_error: Option<String>,
    /// Since when connections are lent.
    pub loans: Vec<(u64, Duration)>,
}

impl Written {
    /// What its service added to it.
    pub fn origin(&self) -> Origin<'_> {
        Origin {
            name: self.name.as_deref(),
            created_at: self.created_at,
            reported_at: self.reported_at,
            status: self.status,
            latest_error: self.latest_error.as_deref(),
            loans: self.loans.as_slice(),
        }
    }
}
