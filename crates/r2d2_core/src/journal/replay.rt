// A replay of a report: what its records come to, one after another.
ghost use Rattle.std.specs.Prelude.{◌≡◌, ◌+◌, ◌<◌, false, length, IsTrue, IfOk, MatchOption};
ghost use Rattle.r2d2_core.specs.Reports.{DoesReplay};
ghost use Rattle.r2d2_core.specs.Faults.{IsWrong, IsFirstWrong, IsFault};
ghost use Rattle.r2d2_core.specs.Replays.{HasFollowed, IsReplayOf, is_legal};

use super::faults::Fault;
use super::replaying::Wrong;
use super::report::Report;
use super::running_base::RunningBase;
use std::alloc::{AllocError, Allocator, Global};

/// A replay of a report, which follows the records one by one.
#[derive(Drop)]
pub struct Replay<A: Allocator = Global> {
    // How many records admit no id that was there before.
    apart: usize,
    // How many were followed.
    followed: usize,
    standing: Standing<A>,
}

/// What the records that were followed come to, or what is wrong.
#[derive(Drop)]
pub(crate) enum Standing<A: Allocator> {
    Legal(RunningBase<A>),
    Wrong(Wrong),
}

impl<A: Allocator> Report<A> {
    /// A replay that stands at the base. The error comes only if memory is refused.
    pub fn replay(&self) -> Result<Replay<A>, AllocError>
    where
        A: Copy,
        ensures of { IfOk result (λ replay. IsReplayOf self.now replay) }
        ensures begins { IfOk result (λ replay. replay.followed ≡ 0) }
    {
        let Some(apart) = self.count_apart()? else {
            return Ok(Replay {
                apart: 0,
                followed: 0,
                standing: Standing::Wrong(Wrong::Base),
            });
        };
        let Some(running_base) = self.start(&self.records.as_slice()[..apart])? else {
            return Ok(Replay {
                apart: 0,
                followed: 0,
                standing: Standing::Wrong(Wrong::Base),
            });
        };
        Ok(Replay {
            apart,
            followed: 0,
            standing: Standing::Legal(running_base),
        })
    }

    /// A replay that followed all records.
    pub(super) fn replayed(&self) -> Result<Replay<A>, AllocError>
    where
        A: Copy,
        ensures of { IfOk result (λ replay. IsReplayOf self.now replay) }
        ensures ends { IfOk result
            (λ replay. replay.followed ≡ length self.now.records.items) }
    {
        let mut replay = self.replay()?;
        for _place in 0..self.records.len() {
            replay.follow(self);
        }
        Ok(replay)
    }

    // Whether the record at a place may follow what stands, where `apart` records admit no id
    // twice; then it is folded in.
    fn follow_in(&self, running_base: &mut RunningBase<A>, apart: usize, place: usize) -> bool
        requires stands { HasFollowed self.now apart place running_base.old }
        requires here { place < length self.now.records.items }
        ensures may { IsTrue result → HasFollowed self.now apart (place + 1) running_base.new }
        ensures may_not { result ≡ false → IsFirstWrong self.now place }
    {
        let records = self.records.as_slice();
        place < apart && running_base.follow(&self.limits, &records[place])
    }
}

impl<A: Allocator> Replay<A> {
    /// Follows the next record of the report. Whether it, and each before it, may follow what stood
    /// there; else what stands is what is wrong first.
    pub fn follow(&mut self, report: &Report<A>) -> bool
        requires of { IsReplayOf report.now self.old }
        requires left { self.old.followed < length report.now.records.items }
        ensures of { IsReplayOf report.now self.new }
        ensures one { self.new.followed ≡ self.old.followed + 1 }
        ensures may { result ≡ is_legal self.new.standing }
    {
        let place = self.followed;
        self.followed = place + 1;
        let may_follow = match &mut self.standing {
            Standing::Legal(running_base) => report.follow_in(running_base, self.apart, place),
            Standing::Wrong(_) => return false,
        };
        if !may_follow {
            self.standing = Standing::Wrong(Wrong::Record(place));
        }
        may_follow
    }

    /// What is wrong first in the report, of which all records were followed.
    pub(super) fn wrong(&self, report: &Report<A>) -> Option<Wrong>
        requires of { IsReplayOf report.now self.now }
        requires all { self.now.followed ≡ length report.now.records.items }
        ensures { MatchOption result (DoesReplay report.now) (λ wrong. IsWrong wrong report.now) }
    {
        match &self.standing {
            Standing::Wrong(wrong) => Some(*wrong),
            Standing::Legal(running_base) if report.shows(running_base) => None,
            Standing::Legal(_) => Some(Wrong::Counts),
        }
    }

    /// As `Report::first_fault`, of the report of which all records were followed.
    pub fn fault(&self, report: &Report<A>) -> Result<Option<Fault<A>>, AllocError>
    where
        A: Copy,
        requires of { IsReplayOf report.now self.now }
        requires all { self.now.followed ≡ length report.now.records.items }
        ensures { IfOk result
            (λ found. MatchOption found (DoesReplay report.now)
            (λ fault. IsFault fault report.now)) }
    {
        let Some(wrong) = self.wrong(report) else {
            return Ok(None);
        };
        let fault = match wrong {
            Wrong::Base => Fault::Base,
            Wrong::Record(place) => Fault::Record {
                place,
                before: report.after(place)?,
            },
            Wrong::Counts => Fault::Counts {
                end: report.after(report.records.len())?,
            },
        };
        Ok(Some(fault))
    }
}
