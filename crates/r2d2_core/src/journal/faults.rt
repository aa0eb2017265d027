// What is wrong in a report, and what stood before it.
ghost use Rattle.std.specs.Prelude.{◌≡◌, ◌≤◌, length, take, IfOk, MatchOption};
ghost use Rattle.pool_machine.specs.Limits.{seen_limits};
ghost use Rattle.r2d2_core.specs.Bases.{IsLegalBase};
ghost use Rattle.r2d2_core.specs.Folding.{replay, AreLegalFrom};
ghost use Rattle.r2d2_core.specs.Reports.{seen_base, seen_records, DoesReplay};
ghost use Rattle.r2d2_core.specs.Faults.{IsFault};

use super::base::Base;
use super::report::Report;
use std::alloc::{AllocError, Allocator, Global};

/// What is wrong first in a report that does not replay.
#[derive(Drop)]
pub enum Fault<A: Allocator = Global> {
    /// The base is none that a pool with the report's limits may come to.
    Base,
    /// The record at `place`, counted from 0, may not follow `before`, to which the records before
    /// it come.
    Record { place: usize, before: Base<A> },
    /// Each record may follow those before it, but what they come to, `end`, is not what the report
    /// shows.
    Counts { end: Base<A> },
}

impl<A: Allocator> Report<A> {
    /// What is wrong first in the report, and what stood there. None exactly if it replays.
    ///
    /// It takes the time and the memory of `replays`, or a few times as much if something is wrong.
    /// The error comes only if memory is refused.
    pub fn first_fault(&self) -> Result<Option<Fault<A>>, AllocError>
    where
        A: Copy,
        ensures { IfOk result
            (λ found. MatchOption found (DoesReplay self.now) (λ fault. IsFault fault self.now)) }
    {
        self.replayed()?.fault(self)
    }

    /// What so many records come to, if they are legal.
    pub(super) fn after(&self, count: usize) -> Result<Base<A>, AllocError>
    where
        A: Copy,
        requires within { count ≤ length self.now.records.items }
        requires base { IsLegalBase (seen_limits self.now.limits) (seen_base self.now.base) }
        requires legal { AreLegalFrom (seen_limits self.now.limits) (seen_base self.now.base)
            (take count (seen_records self.now)) }
        ensures { IfOk result
            (λ base. seen_base base
            ≡ replay (seen_limits self.now.limits) (take count (seen_records self.now))
            (seen_base self.now.base)) }
    {
        let records = &self.records.as_slice()[..count];
        let Some(mut running_base) = self.start(records)? else {
            unreachable!();
        };
        running_base.follow_all(&self.limits, records);
        let _max_size = self.limits.max_size();
        running_base.copied(*self.records.allocator())
    }
}
