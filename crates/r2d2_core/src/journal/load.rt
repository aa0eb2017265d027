// How much of a pool is in use, from record to record.
ghost use Rattle.std.specs.Prelude.{◌≡◌, true};
ghost use Rattle.std.specs.Duration.{as_nanos};
ghost use Rattle.pool_machine.specs.Limits.{seen_limits};
ghost use Rattle.r2d2_core.specs.Records.{seen_record};
ghost use Rattle.r2d2_core.specs.Bases.{SeenBase, IsLegalBase};
ghost use Rattle.r2d2_core.specs.Folding.{folded, may_follow};
ghost use Rattle.r2d2_core.specs.Reports.{seen_base};
ghost use Rattle.r2d2_core.specs.Loads.{IsLoadOf, is_exhausted, exhausted_until};
ghost use Rattle.r2d2_core.specs.Loads.{lent_after, pending_after, is_close};

use super::base::Base;
use super::record::Record;
use pool_machine::machine::later;
use pool_machine::schedule::Limits;
use std::alloc::Allocator;
use std::time::Duration;

/// How much of a pool is in use: what records come to from a base, but for which connections those
/// are. It takes no memory.
///
/// Of records that may not follow one another it says what each does by itself; there a moment that
/// falls is raised, and no count falls below zero.
#[derive(Clone, Copy, Debug)]
pub struct Load {
    pub limits: Limits,
    /// The moment of the newest record; if there is none, that of the base.
    pub at: Duration,
    /// How many connections are lent.
    pub lent: usize,
    /// How many openings are ordered and not yet admitted.
    pub pending: u32,
    /// Whether the pool is closed.
    pub closed: bool,
    /// For how long the pool was exhausted since the moment of the base.
    pub exhausted: Duration,
}

impl Load {
    /// What the base says.
    pub fn of<A: Allocator>(limits: Limits, base: &Base<A>) -> Load
        ensures limits { result.limits ≡ limits }
        ensures load { IsLoadOf (seen_base base.now) result }
        ensures exhausted { as_nanos result.exhausted ≡ 0 }
    {
        Load {
            limits,
            at: base.at,
            lent: base.lent.len(),
            pending: base.pending,
            closed: base.closed,
            exhausted: Duration::ZERO,
        }
    }

    /// What the record leaves of it.
    pub fn follow(&mut self, made: &Record)
        ensures limits { self.new.limits ≡ self.old.limits }
        ensures load { (base : SeenBase) → IsLegalBase (seen_limits self.old.limits) base
            → may_follow (seen_limits self.old.limits) (seen_record made.now) base ≡ true
            → IsLoadOf base self.old
            → IsLoadOf (folded (seen_limits self.old.limits) (seen_record made.now) base)
            self.new }
        ensures exhausted { as_nanos self.new.exhausted
            ≡ exhausted_until (as_nanos self.new.at) self.old }
    {
        let _max_size = self.limits.max_size();
        let at = later(self.at, made.at());
        self.exhausted = self.exhausted_until(at);
        self.at = at;
        self.lent = made.lent_after(self.lent);
        self.pending = made.pending_after(self.pending);
        self.closed |= made.is_close();
    }

    /// For how long the pool was exhausted up to a moment, if nothing changes before it. A moment
    /// before the newest record adds nothing.
    pub fn exhausted_until(&self, at: Duration) -> Duration
        ensures { as_nanos result ≡ exhausted_until (as_nanos at) self.now }
    {
        if !self.is_exhausted() {
            return self.exhausted;
        }
        let passed = at.saturating_sub(self.at);
        self.exhausted.saturating_add(passed)
    }

    /// Whether a caller who comes has to wait: the pool is open, and all `max_size` are lent or
    /// pending.
    pub fn is_exhausted(&self) -> bool
        ensures { result ≡ is_exhausted self.now }
    {
        let all = self.lent.saturating_add(self.pending as usize);
        !self.closed && self.limits.max_size() as usize <= all
    }
}

impl Record {
    // How many are lent by it, where so many were before.
    fn lent_after(&self, lent: usize) -> usize
        ensures { result ≡ lent_after (seen_record self.now) lent }
    {
        match self {
            Record::Taken { .. } => lent.saturating_add(1),
            Record::Kept { .. } | Record::Closed { .. } => lent.saturating_sub(1),
            _ => lent,
        }
    }

    // How many are pending by it, where so many were before.
    fn pending_after(&self, pending: u32) -> u32
        ensures { result ≡ pending_after (seen_record self.now) pending }
    {
        match self {
            Record::Taken { ordered, .. }
            | Record::Ordered { ordered, .. }
            | Record::Closed { ordered, .. }
            | Record::Reaped { ordered, .. } => pending.saturating_add(*ordered),
            Record::Admitted { .. } => pending.saturating_sub(1),
            Record::Kept { .. } => pending,
            Record::ClosedAll { .. } => 0,
        }
    }

    fn is_close(&self) -> bool
        ensures { result ≡ is_close (seen_record self.now) }
    {
        matches!(self, Record::ClosedAll { .. })
    }
}
