// What of a pool somebody has to look at.
ghost use Rattle.std.specs.Prelude.{◌≡◌, ◌≤◌, ◌-◌, ◌↔◌, IsTrue};
ghost use Rattle.std.specs.Duration.{as_nanos};
ghost use Rattle.pool_reports.specs.Summaries.{IsShareOf};

use super::{Loan, Summary};
use crate::calls::Calls;
use crate::status::Waits;
use std::time::Duration;

/// A failed opening is a concern where one in so many fails.
pub const OPENINGS: u64 = 10;

/// A failed check, where one in so many takes meets one.
pub const CHECKS: u64 = 100;

/// A connection that is closed early, where one in so many returns closes one, and at least
/// `LEAST_CLOSED` do. Where no caller failed, these and failed checks have to be more than there
/// may be connections: a server that was started again costs each of them once.
pub const RETURNS: u64 = 20;

pub const LEAST_CLOSED: u64 = 5;

/// A long wait, where one in so many callers waits so long.
pub const WAITS: u64 = 100;

/// An exhaustion, where it is one part in so many of the time, and of what lasts too long.
pub const OF_TIME: u64 = 2;

/// What lasts for so many seconds lasts too long at the earliest, where no caller failed: some
/// callers wait for no longer than a usual opening or a usual loan takes.
pub const LEAST_SECONDS: u64 = 10;

/// Whether all is well.
#[derive(Clone, Copy, Debug, PartialEq, Eq)]
pub enum State {
    /// No caller failed, and nothing else is a concern.
    Well,
    /// There are concerns.
    Concerned,
    /// Nothing is a concern, but the report does not say what callers met.
    Unknown,
}

/// What of a pool somebody has to look at. What lasts too long lasts for as long as a caller waits
/// at most, after which it gives up; where none failed, for ten seconds at least.
#[derive(Clone, Copy, Debug, PartialEq, Eq)]
pub enum Concern {
    /// Openings are pending at the end, and none succeeded since this time, for too long.
    NothingOpens { since: Duration },
    /// So many openings failed, and so many connections were opened.
    OpeningsFail { failed: u64, opened: u64 },
    /// So many checks failed, and so many takes found a connection.
    ChecksFail { failed: u64, takes: u64 },
    /// Of so many that came back so many were closed, neither too old nor of a closed pool.
    Churn { closed: u64, returned: u64 },
    /// So many connections are lent at the end for too long, this one for the longest.
    LentForLong { count: usize, longest: Loan },
    /// The pool is exhausted at the end, since this time, for too long.
    Exhausted { since: Duration },
    /// It was exhausted for so long at a stretch, too long, and is so for less long at the end.
    WasExhausted { longest: Duration },
    /// It was exhausted for so long in all, a great part of the time.
    OftenExhausted { exhausted: Duration },
    /// So many of those who called gave up.
    TimedOut { count: u64, calls: u64 },
    /// So many of those who called were refused.
    Refused { count: u64, calls: u64 },
    /// So many waited for long.
    WaitedLong { waits: Waits },
}

impl Summary {
    /// What of the pool somebody has to look at, the likely cause before what comes of it.
    pub fn concerns(&self) -> [Option<Concern>; 9] {
        let least = self.too_long();
        [
            self.opening_concern(least),
            self.failed_openings(),
            self.failed_checks(),
            self.churn(),
            self.lending_concern(least),
            self.exhaustion_concern(least),
            self.timeouts(),
            self.refusals(),
            self.long_waits(),
        ]
    }

    // Whether it is known that no caller failed.
    fn is_calm(&self) -> bool {
        self.calls.is_some_and(|calls| !calls.have_failures())
    }

    /// For how long what lasts too long lasts at least.
    pub fn too_long(&self) -> Duration {
        if self.is_calm() {
            self.patience.max(Duration::from_secs(LEAST_SECONDS))
        } else {
            self.patience
        }
    }

    // How many connections one trouble of the server that no caller felt may cost.
    fn once_each(&self) -> u64 {
        if self.is_calm() {
            u64::from(self.max_size)
        } else {
            0
        }
    }

    fn opening_concern(&self, least: Duration) -> Option<Concern> {
        let since = self.opening_since?;
        if !self.lasts(since, least) {
            return None;
        }
        Some(Concern::NothingOpens { since })
    }

    // Those of long ago are no concern of a report about later times alone.
    fn failed_openings(&self) -> Option<Concern> {
        let (failed, opened) = (self.calls?.failed_openings, self.opened);
        let latest = self.status?.latest_failure.unwrap_or(self.until);
        let is_past = latest.as_nanos() < self.from.as_nanos();
        if is_past || !is_share_of(failed.saturating_add(opened), OPENINGS, failed) {
            return None;
        }
        Some(Concern::OpeningsFail { failed, opened })
    }

    fn failed_checks(&self) -> Option<Concern> {
        let Calls {
            failed_checks: failed,
            takes,
            ..
        } = self.calls?;
        if failed <= self.once_each() || !is_share_of(takes, CHECKS, failed) {
            return None;
        }
        Some(Concern::ChecksFail { failed, takes })
    }

    fn churn(&self) -> Option<Concern> {
        let (closed, returned) = (self.closed_early, self.returned);
        let is_often = LEAST_CLOSED <= closed && self.once_each() < closed;
        if !is_often || !is_share_of(returned, RETURNS, closed) {
            return None;
        }
        Some(Concern::Churn { closed, returned })
    }

    // They are in the order of their takes, so those that are lent for the longest come first.
    fn lending_concern(&self, least: Duration) -> Option<Concern> {
        let longest = *self.lent.first()?;
        let count = self
            .lent
            .iter()
            .filter(|loan| self.lasts(loan.since.unwrap_or(self.from), least))
            .count();
        if count == 0 {
            return None;
        }
        Some(Concern::LentForLong { count, longest })
    }

    fn exhaustion_concern(&self, least: Duration) -> Option<Concern> {
        if let Some(since) = self.exhausted_since
            && self.lasts(since, least)
        {
            return Some(Concern::Exhausted { since });
        }
        let (longest, exhausted) = (self.longest_exhaustion, self.exhausted);
        if is_at_least(longest, least) {
            return Some(Concern::WasExhausted { longest });
        }
        if !is_part_of(self.covers().max(least), OF_TIME, exhausted) {
            return None;
        }
        Some(Concern::OftenExhausted { exhausted })
    }

    fn timeouts(&self) -> Option<Concern> {
        let (count, calls) = (self.calls?.timeouts, self.calls?.all());
        if count == 0 {
            return None;
        }
        Some(Concern::TimedOut { count, calls })
    }

    fn refusals(&self) -> Option<Concern> {
        let (count, calls) = (self.calls?.refused, self.calls?.all());
        if count == 0 {
            return None;
        }
        Some(Concern::Refused { count, calls })
    }

    fn long_waits(&self) -> Option<Concern> {
        let waits = self.calls?.waits?;
        if !is_share_of(waits.all, WAITS, waits.longer) {
            return None;
        }
        Some(Concern::WaitedLong { waits })
    }

    // Whether what is so at the end since a time is so for that long.
    fn lasts(&self, since: Duration, least: Duration) -> bool
        ensures { IsTrue result
            ↔ (as_nanos least ≤ as_nanos self.now.until - as_nanos since) }
    {
        is_at_least(self.until.saturating_sub(since), least)
    }
}

fn is_at_least(length: Duration, least: Duration) -> bool
    ensures { IsTrue result ↔ (as_nanos least ≤ as_nanos length) }
{
    least.as_nanos() <= length.as_nanos()
}

// Whether a part that is there is at least one in so many of the whole.
fn is_share_of(whole: u64, times: u64, part: u64) -> bool
    ensures { IsTrue result ↔ IsShareOf whole times part }
{
    part > 0 && whole as u128 <= times as u128 * part as u128
}

// The same of durations.
fn is_part_of(whole: Duration, times: u64, part: Duration) -> bool
    requires few { times ≤ 10 }
    ensures { IsTrue result ↔ IsShareOf (as_nanos whole) times (as_nanos part) }
{
    !part.is_zero() && whole.as_nanos() <= times as u128 * part.as_nanos()
}
