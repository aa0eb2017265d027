// The one way through the records of a report: what stood before each, and what stands after it.
ghost use Rattle.std.specs.Prelude.{◌≡◌, max, None, IfSome, IfOk, MatchOption};
ghost use Rattle.std.specs.Duration.{as_nanos};
ghost use Rattle.r2d2_core.specs.Reports.{DoesReplay};
ghost use Rattle.r2d2_core.specs.Faults.{IsFault};

use crate::story::Use;
use r2d2_core::{Fault, Limits, Load, Record, Report};
use std::alloc::{AllocError, Allocator, Global};
use std::collections::BTreeMap;
use std::time::Duration;

/// What reads a report on a walk.
pub(crate) trait Reader: Drop {
    /// Reads the base, of which there is no record, and then each record.
    fn read(&mut self, walk: &Walk, record: Option<&Record>) -> Result<(), AllocError>;
}

/// A connection, as the base or a record left it.
#[derive(Clone, Copy)]
pub(crate) struct Connection {
    pub(crate) id: u64,
    /// How many came before it: those idle in the base come first, and then those lent in it.
    pub(crate) place: usize,
    pub(crate) birth: Duration,
    /// None if it is gone.
    pub(crate) what: Option<Use>,
    /// Since when it is that; None if it was lent in the base.
    pub(crate) since: Option<Duration>,
}

/// What stands where a walk is. A record of a connection that is not there, or not what it has to
/// be, moves none.
#[derive(Drop)]
pub(crate) struct Walk {
    /// How much was in use before the latest record.
    pub(crate) before: Load,
    /// How much is in use after it.
    pub(crate) load: Load,
    /// How many connections are idle.
    pub(crate) idle: usize,
    /// The connections that are there.
    pub(crate) there: BTreeMap<u64, Connection>,
    /// Those that the latest record moved, as it left them; of the base all that are in it.
    pub(crate) moved: Vec<Connection>,
    // How many came so far.
    came: usize,
}

impl Walk {
    /// Goes from the base through all records, so that the reader reads where each has led, and
    /// says what stands at the end. It takes memory in proportion to the connections that are
    /// there; the error comes only where that, or what the reader takes, is refused.
    pub(crate) fn through<A: Allocator, R: Reader>(
        alloc: Global,
        report: &Report<A>,
        reader: &mut R,
    ) -> Result<Walk, AllocError> {
        let mut walk = Walk::begun(alloc, report)?;
        reader.read(&walk, None)?;
        for record in &report.records {
            walk.step(record, reader)?;
        }
        Ok(walk)
    }

    /// The same from the base on, where a replay goes along: what is wrong first in the report. It
    /// takes the memory of `Report::first_fault` besides.
    pub(crate) fn audit<R: Reader>(
        &mut self,
        report: &Report,
        reader: &mut R,
    ) -> Result<Option<Fault>, AllocError>
        ensures { IfOk result
            (λ found. MatchOption found (DoesReplay report.now)
            (λ fault. IsFault fault report.now)) }
    {
        let mut replay = report.replay()?;
        reader.read(self, None)?;
        for record in &report.records {
            replay.follow(report);
            self.step(record, reader)?;
        }
        replay.fault(report)
    }

    /// What stands at the base.
    pub(crate) fn begun<A: Allocator>(
        alloc: Global,
        report: &Report<A>,
    ) -> Result<Walk, AllocError> {
        let load = Load::of(report.limits, &report.base);
        let mut walk = Walk {
            before: load,
            load,
            idle: 0,
            there: BTreeMap::new(alloc),
            moved: Vec::new(alloc),
            came: 0,
        };
        for (id, birth, since) in &report.base.idle {
            let since = (*since).min(load.at);
            walk.come(*id, (*birth).min(since), Use::Idle, Some(since))?;
        }
        walk.meet_lent(report.base.lent.as_slice())?;
        Ok(walk)
    }

    fn meet_lent(&mut self, lent: &[(u64, Duration)]) -> Result<(), AllocError> {
        for (id, birth) in lent {
            self.come(*id, (*birth).min(self.load.at), Use::Lent, None)?;
        }
        Ok(())
    }

    fn step<R: Reader>(&mut self, record: &Record, reader: &mut R) -> Result<(), AllocError> {
        self.follow(record)?;
        reader.read(self, Some(record))
    }

    fn follow(&mut self, record: &Record) -> Result<(), AllocError> {
        self.moved.clear();
        self.before = self.load;
        self.load.follow(record);
        let at = self.load.at;
        match record {
            Record::Taken { id, .. } => self.turn(*id, Use::Idle, Some(Use::Lent)),
            Record::Ordered { .. } => Ok(()),
            Record::Admitted { id, .. } => self.come(*id, at, Use::Idle, Some(at)),
            Record::Kept { id, .. } => self.turn(*id, Use::Lent, Some(Use::Idle)),
            Record::Closed { id, .. } => self.turn(*id, Use::Lent, None),
            Record::Reaped { .. } | Record::ClosedAll { .. } => self.sweep(),
        }
    }

    // One that is there already is left as it is.
    fn come(
        &mut self,
        id: u64,
        birth: Duration,
        what: Use,
        since: Option<Duration>,
    ) -> Result<(), AllocError> {
        if self.there.contains_key(&id) {
            return Ok(());
        }
        let place = self.came;
        self.came = place.saturating_add(1);
        self.set(
            None,
            Connection {
                id,
                place,
                birth,
                what: Some(what),
                since,
            },
        )
    }

    fn turn(&mut self, id: u64, was: Use, what: Option<Use>) -> Result<(), AllocError> {
        let was = Some(was);
        match self.there.get(&id).copied() {
            Some(one) if one.what == was => {
                let since = Some(self.load.at);
                self.set(was, Connection { what, since, ..one })
            }
            _ => Ok(()),
        }
    }

    // Those that a reap closes are gone, and all idle ones once it is closed.
    fn sweep(&mut self) -> Result<(), AllocError> {
        let Load {
            limits,
            at,
            closed,
            ..
        } = self.load;
        let goes = |one: &&Connection| one.is_idle() && (closed || one.is_expired(&limits, at));
        let alloc = *self.moved.allocator();
        let gone: Vec<Connection> = self.there.values().filter(goes).copied().collect(alloc)?;
        for one in gone {
            self.turn(one.id, Use::Idle, None)?;
        }
        Ok(())
    }

    // A connection that was this is now so.
    fn set(&mut self, was: Option<Use>, one: Connection) -> Result<(), AllocError> {
        if one.what.is_some() {
            self.there.insert(one.id, one)?;
        } else {
            self.there.remove(&one.id);
        }
        let idle = Some(Use::Idle);
        if was == idle {
            self.idle = self.idle.saturating_sub(1);
        } else if one.what == idle {
            self.idle = self.idle.saturating_add(1);
        }
        Ok(self.moved.push(one)?)
    }

    /// Since when the connection of the id is lent, if a record says that.
    pub(crate) fn lent_since(&self, id: u64) -> Option<Duration> {
        let one = self.there.get(&id)?;
        if one.is_idle() { None } else { one.since }
    }

    /// Up to when the report goes, which was made at this time, if that is known.
    pub(crate) fn until(&self, reported_at: Option<Duration>) -> Duration
        ensures known { IfSome reported_at
            (λ moment. as_nanos result ≡ max (as_nanos self.now.load.at) (as_nanos moment)) }
        ensures unknown { reported_at ≡ None → result ≡ self.now.load.at }
    {
        match reported_at {
            Some(moment) if self.load.at.as_nanos() < moment.as_nanos() => moment,
            _ => self.load.at,
        }
    }
}

impl Connection {
    fn is_idle(&self) -> bool {
        self.what == Some(Use::Idle)
    }

    fn is_expired(&self, limits: &Limits, at: Duration) -> bool {
        is_expired(limits, at, self.birth, self.since.unwrap_or(at))
    }
}

/// Whether a reap at the time closes a connection that is idle since then.
pub(crate) fn is_expired(limits: &Limits, at: Duration, birth: Duration, since: Duration) -> bool {
    limits.is_idle_too_long(at.saturating_sub(since)) || limits.is_too_old(at.saturating_sub(birth))
}
