// How a story is made: what became of each connection, record by record.
ghost use Rattle.std.specs.Prelude.{◌≡◌, ◌≤◌, IfSome};
ghost use Rattle.std.specs.Duration.{as_nanos};

use super::{Cause, Coming, Counts, Life, Story, Use};
use crate::walk::{Connection, Reader, Walk};
use r2d2_core::{Record, Report};
use std::alloc::{AllocError, Allocator, Global};
use std::time::Duration;

/// A story so far.
#[derive(Drop)]
pub(super) struct Teller {
    alloc: Global,
    // The places are those of the walk.
    lives: Vec<Life>,
    counts: Vec<Counts>,
    closing: Option<Duration>,
}

impl Reader for Teller {
    fn read(&mut self, walk: &Walk, record: Option<&Record>) -> Result<(), AllocError> {
        for one in &walk.moved {
            self.tell(one, record, walk.load.at)?;
        }
        if walk.load.closed && !walk.before.closed {
            self.closing = Some(walk.load.at);
        }
        let counts = Counts {
            at: walk.load.at,
            idle: capped(walk.idle),
            connections: capped(walk.there.len()),
            pending: walk.load.pending,
            is_exhausted: walk.load.is_exhausted(),
        };
        Ok(self.counts.push(counts)?)
    }
}

impl Teller {
    /// Nothing was read yet.
    pub(super) fn new(alloc: Global) -> Teller {
        Teller {
            alloc,
            lives: Vec::new(alloc),
            counts: Vec::new(alloc),
            closing: None,
        }
    }

    // What a record, or the base, made of a connection at a time.
    fn tell(
        &mut self,
        one: &Connection,
        record: Option<&Record>,
        at: Duration,
    ) -> Result<(), AllocError> {
        let Some(life) = self.lives.get_mut(one.place) else {
            let life = Life::begun(self.alloc, one, coming_of(one, record), at)?;
            return Ok(self.lives.push(life)?);
        };
        match one.what {
            Some(what) => life.turn(what, at),
            None => {
                life.end(at, cause_of(record));
                Ok(())
            }
        }
    }

    /// The whole story of the report, up to its time if that is known.
    pub(super) fn into_story<A: Allocator>(
        mut self,
        report: &Report<A>,
        walk: &Walk,
        reported_at: Option<Duration>,
    ) -> Story
        ensures limits { result.limits ≡ report.now.limits }
        ensures begins { result.from ≡ report.now.base.at }
        ensures lost { result.lost ≡ report.now.lost }
        ensures reaches { IfSome reported_at (λ moment. as_nanos moment ≤ as_nanos result.to) }
    {
        let to = walk.until(reported_at);
        self.reach(to);
        Story {
            limits: report.limits,
            from: report.base.at,
            to,
            exhausted: walk.load.exhausted_until(to),
            lives: self.lives,
            counts: self.counts,
            lost: report.lost,
            closed: walk.load.closed,
            closing: self.closing,
        }
    }

    // What is there at the end is so until then.
    fn reach(&mut self, to: Duration) {
        for life in self.lives.iter_mut() {
            if life.ending.is_none() {
                life.reach(to);
            }
        }
    }
}

fn coming_of(one: &Connection, record: Option<&Record>) -> Coming {
    match one.what {
        _ if record.is_some() => Coming::Admitted,
        Some(Use::Lent) => Coming::WasLent,
        _ => Coming::WasIdle,
    }
}

fn cause_of(record: Option<&Record>) -> Cause {
    match record {
        Some(Record::Reaped { .. }) => Cause::Reaped,
        Some(Record::ClosedAll { .. }) => Cause::ClosedAll,
        _ => Cause::Closed,
    }
}

fn capped(count: usize) -> u32 {
    u32::try_from(count).unwrap_or(u32::MAX)
}
