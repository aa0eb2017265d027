// What a call that wants a connection saw of the clock.
ghost use Rattle.std.specs.Prelude.{◌≡◌, ◌<◌, ◌≤◌, ◌↔◌, ◌-◌, nat_lt, is_some, option_map};
ghost use Rattle.std.specs.Duration.{as_nanos};

use pool_state::Tuning;
use std::marker::Model;
use std::time::Duration;

/// What a call saw of the clock, which may fail for one reading.
#[derive(Drop)]
pub struct CallTime {
    /// When it began: its first reading, from which its timeout counts.
    start: Option<Duration>,
    /// The moment of its latest step.
    step: Duration,
    /// The latest moment of all.
    seen: Duration,
    /// How many more it may take, of a call that does not wait.
    left: u32,
    /// Since when it was idle what the call took last, if a setting asks for it.
    idle_since: Option<Duration>,
}

// Contracts see it with moments in nanoseconds.
impl Model for CallTime {
    ghost use Rattle.std.specs.Prelude.{◌≤◌, option_map};
    ghost use Rattle.std.specs.Option.{ForSome};
    ghost use Rattle.std.specs.Duration.{as_nanos};
    ghost use Rattle.r2d2.specs.CallTime.{SeenCallTime};

    ghost Value = { SeenCallTime };

    ghost view = { λ c. record {
      start = option_map as_nanos c.start;
      step = as_nanos c.step;
      seen = as_nanos c.seen;
      left = c.left;
      idle_since = option_map as_nanos c.idle_since;
    } };

    ghost invariant = { λ c. ForSome c.start (λ start. as_nanos start ≤ as_nanos c.seen) };
}

impl CallTime {
    ghost use Rattle.std.specs.Prelude.{IsTrue, IfSome};
    ghost use Rattle.std.specs.Option.{IsNone};
    ghost use Rattle.r2d2.specs.CallTime.{begun_at, looked_at, start_of, waited_of, left_of};
    ghost use Rattle.r2d2.specs.CallTime.{may_still_take, with_one_less};
    ghost use Rattle.pool_state.specs.Checks.{is_check_due};

    /// Of a call that looked at the clock as it began, or did not.
    pub(super) fn new(start: Option<Duration>) -> CallTime
        ensures { result ≡ begun_at (option_map as_nanos start) }
    {
        CallTime {
            start,
            step: Duration::ZERO,
            seen: start.unwrap_or(Duration::ZERO),
            left: u32::MAX,
            idle_since: None,
        }
    }

    /// Whether a call that does not wait may take one of so many idle connections: each of those
    /// that it takes may fail its check, so it takes no more than were idle at its first look.
    pub(super) fn may_take(&mut self, idle: u32) -> bool
        ensures value { result ≡ nat_lt 0 (may_still_take idle self.old) }
        ensures after { self.new ≡ with_one_less idle self.old }
    {
        let left = self.left.min(idle);
        self.left = left.saturating_sub(1);
        left > 0
    }

    /// It looks at the clock, which shows this.
    pub(super) fn look(&mut self, now: Duration)
        ensures { self.new ≡ looked_at (as_nanos now) self.old }
    {
        if self.start.is_none() {
            self.start = Some(now);
        }
        self.step = now;
        // A clock that can't be read shows zero.
        if now.checked_sub(self.seen).is_some() {
            self.seen = now;
        }
    }

    /// What it takes next is idle since this moment.
    pub(super) fn find(&mut self, idle_since: Option<Duration>)
        ensures { self.new
            ≡ record self.old { idle_since = option_map as_nanos idle_since } }
    {
        self.idle_since = idle_since;
    }

    /// Since when it was idle what the call took last, if it asked.
    pub(super) fn idle_since(&self) -> Option<Duration>
        ensures { option_map as_nanos result ≡ self.now.idle_since }
    {
        self.idle_since
    }

    /// Whether what it took last is idle for long enough to be checked.
    #[inline(always)]
    pub(super) fn has_check_due(&self, tuning: &Tuning) -> bool
        ensures { result ≡ is_check_due tuning.now.test_if_idle_for self.now.idle_since
            self.now.step }
    {
        tuning.is_check_due(self.idle_since, self.step)
    }

    /// Whether it looked at the clock.
    pub(super) fn has_begun(&self) -> bool
        ensures { result ≡ is_some self.now.start }
    {
        self.start.is_some()
    }

    /// When it began.
    pub(super) fn start(&self) -> Duration
        ensures { as_nanos result ≡ start_of self.now }
    {
        self.start.unwrap_or(self.seen)
    }

    /// The moment of its latest step.
    pub(super) fn step(&self) -> Duration
        ensures { as_nanos result ≡ self.now.step }
    {
        self.step
    }

    /// The latest moment that it saw.
    pub(super) fn seen(&self) -> Duration
        ensures { as_nanos result ≡ self.now.seen }
    {
        self.seen
    }

    /// How long it has lasted.
    pub(super) fn waited(&self) -> Duration
        ensures { as_nanos result ≡ waited_of self.now }
    {
        self.seen.saturating_sub(self.start())
    }

    /// How much is left of its timeout.
    pub(super) fn left_of(&self, timeout: Duration) -> Duration
        ensures left { as_nanos result ≡ left_of (as_nanos timeout) self.now }
        ensures within { as_nanos result ≤ as_nanos timeout }
    {
        let end = self.start().saturating_add(timeout);
        end.saturating_sub(self.seen)
    }
}
