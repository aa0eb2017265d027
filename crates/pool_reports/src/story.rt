// The story of a report: what became of each connection, and how many there were.
ghost use Rattle.std.specs.Prelude.{◌≡◌, ◌+◌, ◌-◌, ◌^◌, ◌<◌, ◌≤◌, min, IfOk, IfSome};
ghost use Rattle.std.specs.Duration.{as_nanos};

use crate::walk::{Connection, Walk};
use r2d2_core::{Limits, Report};
use std::alloc::{AllocError, Allocator, Global};
use std::time::Duration;
use telling::Teller;
pub use writing::story_to_json;

mod telling;
mod writing;

/// How a connection came into the story.
#[derive(Clone, Copy, PartialEq, Eq, Debug)]
pub enum Coming {
    /// It was idle in the base.
    WasIdle,
    /// It was lent in the base.
    WasLent,
    /// It was admitted by a record.
    Admitted,
}

/// What a connection was for a while.
#[derive(Clone, Copy, PartialEq, Eq, Debug)]
pub enum Use {
    Idle,
    /// A caller had it, or its check was running.
    Lent,
}

/// A while in which a connection was the same. Its times, like all of a story's, are counted from
/// the creation of the pool.
#[derive(Clone, Copy, PartialEq, Eq, Debug)]
pub struct Stretch {
    pub what: Use,
    pub from: Duration,
    pub to: Duration,
}

/// Why a connection went.
#[derive(Clone, Copy, PartialEq, Eq, Debug)]
pub enum Cause {
    /// It was closed at its return, or its check failed.
    Closed,
    /// It was idle for too long or too old, and a reap closed it.
    Reaped,
    /// It was idle when the pool was closed.
    ClosedAll,
}

/// When and why a connection went.
#[derive(Clone, Copy, PartialEq, Eq, Debug)]
pub struct Ending {
    pub at: Duration,
    pub cause: Cause,
}

/// What became of one connection.
#[derive(Drop)]
pub struct Life {
    pub id: u64,
    /// When it was admitted, which may be before the story begins.
    pub birth: Duration,
    pub coming: Coming,
    /// What it was, one while after the other. The first of a connection that was idle in the base
    /// begins when it came to be idle.
    pub stretches: Vec<Stretch>,
    /// None if it is there at the end.
    pub ending: Option<Ending>,
}

/// How many connections there were from a time on.
#[derive(Clone, Copy, PartialEq, Eq, Debug)]
pub struct Counts {
    pub at: Duration,
    pub idle: u32,
    /// The idle and the lent ones.
    pub connections: u32,
    /// Openings that were ordered and not admitted.
    pub pending: u32,
    /// Whether a caller who came had to wait, as `Load` says it.
    pub is_exhausted: bool,
}

impl Counts {
    /// The connections that are not idle.
    pub fn lent(&self) -> u32
        ensures { result ≡ self.now.connections - self.now.idle }
    {
        self.connections.saturating_sub(self.idle)
    }

    /// The connections and the pending openings together, which are never more than `max_size`.
    pub fn all(&self) -> u32
        ensures { result ≡ min (self.now.connections + self.now.pending) (2 ^ 32 - 1) }
    {
        self.connections.saturating_add(self.pending)
    }
}

/// What a report says, from the time of its base to its own.
#[derive(Drop)]
pub struct Story {
    pub limits: Limits,
    /// The time of the base.
    pub from: Duration,
    /// The time of the report. If that is not known, or before the newest record, it is that
    /// of the newest record; if there is none, that of the base.
    pub to: Duration,
    /// The connections: those that were idle in the base, those that were lent in it, and then the
    /// others as they were admitted.
    pub lives: Vec<Life>,
    /// The counts of the base, and those after each record.
    pub counts: Vec<Counts>,
    /// For how long the pool was exhausted.
    pub exhausted: Duration,
    /// How many records came before the base.
    pub lost: u64,
    /// Whether the pool is closed at the end.
    pub closed: bool,
    /// The time at which a record closed it.
    pub closing: Option<Duration>,
}

impl Life {
    // A connection that came at a time, of which no end is known yet.
    fn begun(
        alloc: Global,
        one: &Connection,
        coming: Coming,
        at: Duration,
    ) -> Result<Life, AllocError> {
        let mut life = Life {
            id: one.id,
            birth: one.birth,
            coming,
            stretches: Vec::new(alloc),
            ending: None,
        };
        life.turn(one.what.unwrap_or(Use::Idle), one.since.unwrap_or(at))?;
        life.reach(at);
        Ok(life)
    }

    /// What it was last, and since when.
    pub fn latest(&self) -> Option<Stretch> {
        self.stretches.last().copied()
    }

    /// Whether it is lent, or idle, at the end of the story.
    pub fn is_still(&self, what: Use) -> bool {
        self.ending.is_none() && self.latest().is_some_and(|last| last.what == what)
    }

    // What it was last went on until then.
    fn reach(&mut self, at: Duration) {
        if let Some(last) = self.stretches.last_mut() {
            last.to = at;
        }
    }

    // From then on it is something else.
    fn turn(&mut self, what: Use, at: Duration) -> Result<(), AllocError> {
        self.reach(at);
        let next = Stretch {
            what,
            from: at,
            to: at,
        };
        Ok(self.stretches.push(next)?)
    }

    fn end(&mut self, at: Duration, cause: Cause) {
        self.reach(at);
        self.ending = Some(Ending { at, cause });
    }
}

impl Story {
    ghost use Rattle.pool_machine.specs.Limits.{seen_limits};
    ghost use Rattle.r2d2_core.specs.Reports.{seen_base};

    /// What the report says up to its time, if that is known. A report that does not replay
    /// is read as far as it goes: a record of a connection that is not there is left out, and a
    /// time that falls is raised. The error comes only if memory is refused.
    pub fn of<A: Allocator>(
        alloc: Global,
        report: &Report<A>,
        reported_at: Option<Duration>,
    ) -> Result<Story, AllocError>
        ensures limits { IfOk result (λ s. seen_limits s.limits ≡ seen_limits report.now.limits) }
        ensures begins { IfOk result (λ s. as_nanos s.from ≡ (seen_base report.now.base).at) }
        ensures lost { IfOk result (λ s. s.lost ≡ report.now.lost) }
        ensures reaches { IfOk result
            (λ s. IfSome reported_at (λ moment. as_nanos moment ≤ as_nanos s.to)) }
    {
        let mut teller = Teller::new(alloc);
        let walk = Walk::through(alloc, report, &mut teller)?;
        Ok(teller.into_story(report, &walk, reported_at))
    }

    /// How long it lasts.
    pub fn length(&self) -> Duration
        ensures { as_nanos result ≡ as_nanos self.now.to - as_nanos self.now.from }
    {
        self.to.saturating_sub(self.from)
    }

    /// The counts at the end.
    pub fn last_counts(&self) -> Option<Counts> {
        self.counts.last().copied()
    }
}
