// What failed in a pool so far, and how many callers were refused or gave up.
ghost use Rattle.std.specs.Prelude.{◌≡◌, ◌<◌, ◌↔◌, IsTrue};
ghost use Rattle.std.specs.Duration.{as_nanos};
ghost use Rattle.pool_state.specs.Failed.{HaveNone, IsOneOpeningMore, IsOneCheckMore};
ghost use Rattle.pool_state.specs.Failed.{IsOneRefusalMore, IsOneTimeoutMore, IsLatest};

use std::time::Duration;

/// How many openings and checks failed, how many callers were refused or gave up, and which
/// connections the failed checks apply to.
#[derive(Clone, Copy)]
pub struct Failures {
    /// Up to the greatest number.
    pub openings: u64,
    pub checks: u64,
    /// Callers that found as many waiting as may.
    pub refused: u64,
    /// Callers whose time was over.
    pub timeouts: u64,
    /// The moment of the latest opening or check that failed.
    pub latest: Option<Duration>,
    /// What is idle since before this moment is distrusted.
    distrusted_before: Duration,
}

impl Failures {
    /// Nothing failed yet.
    pub fn none() -> Failures
        ensures { HaveNone result }
    {
        Failures {
            openings: 0,
            checks: 0,
            refused: 0,
            timeouts: 0,
            latest: None,
            distrusted_before: Duration::ZERO,
        }
    }

    /// Another opening failed at this moment.
    pub fn add_opening(&mut self, now: Duration)
        ensures { IsOneOpeningMore now self.old self.new }
    {
        self.openings = self.openings.saturating_add(1);
        self.note(now);
    }

    /// Another check failed at this moment. What was idle before that one is distrusted from now
    /// on.
    pub fn add_check(&mut self, now: Duration, distrusted_before: Duration)
        ensures { IsOneCheckMore now distrusted_before self.old self.new }
    {
        self.checks = self.checks.saturating_add(1);
        self.note(now);
        self.distrusted_before = self.distrusted_before.max(distrusted_before);
    }

    /// Another caller was refused.
    pub fn add_refusal(&mut self)
        ensures { IsOneRefusalMore self.old self.new }
    {
        self.refused = self.refused.saturating_add(1);
    }

    /// Another caller gave up, since its time was over.
    pub fn add_timeout(&mut self)
        ensures { IsOneTimeoutMore self.old self.new }
    {
        self.timeouts = self.timeouts.saturating_add(1);
    }

    // Something failed at this moment. A clock that went back says nothing.
    fn note(&mut self, now: Duration)
        ensures latest { IsLatest now self.old.latest self.new.latest }
        ensures rest { self.new ≡ record self.old { latest = self.new.latest } }
    {
        self.latest = Some(match self.latest {
            Some(latest) => latest.max(now),
            None => now,
        });
    }

    /// Whether a failed check applies to a connection that is idle since this moment.
    pub fn tell_of(&self, idle_since: Duration) -> bool
        ensures { IsTrue result ↔ (as_nanos idle_since < as_nanos self.now.distrusted_before) }
    {
        idle_since.checked_sub(self.distrusted_before).is_none()
    }
}
