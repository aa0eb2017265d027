// What else is wrong with a report that replays: each report of a pool keeps more than that.
ghost use Rattle.std.specs.Prelude.{◌≡◌, ◌↔◌, length, IsTrue};
ghost use Rattle.std.specs.Duration.{as_nanos};
ghost use Rattle.pool_machine.specs.Limits.{seen_limits, wanted_of};
ghost use Rattle.r2d2_core.specs.Bases.{first_base};
ghost use Rattle.pool_machine.specs.Sums.{IsReplenished};
ghost use Rattle.r2d2_core.specs.Reports.{seen_base, DoesReplay};
ghost use Rattle.pool_reports.specs.Verdicts.{IsVerdictOn};

use super::Verdict;
use crate::counting::takes;
use r2d2_core::{Base, Limits, Report};
use std::alloc::Allocator;
use thiserror::Error;

/// How a base, into which no record was folded, is not that of a pool just made.
#[derive(Clone, Copy, Debug, Error, PartialEq, Eq)]
pub enum MakingReason {
    #[error("lost is 0, so it is that of a new pool, but idle has {0}")]
    Idle(usize),
    #[error("lost is 0, so it is that of a new pool, but lent has {0}")]
    Lent(usize),
    #[error("lost is 0, so it is that of a new pool, but pending is {shown}, and {due} are wanted")]
    Pending { shown: u32, due: u32 },
    #[error("lost is 0, so it is that of a new pool, but it is closed")]
    Closed,
}

/// How a pool that is open has too few: more are wanted, there is room, and none is on its way.
#[derive(Clone, Copy, Debug, Error, PartialEq, Eq)]
#[error("wanted are {wanted}, and there is room, but idle has {idle}, and pending is {pending}")]
pub struct StarvedReason {
    pub wanted: u32,
    pub idle: usize,
    pub pending: u32,
}

/// What is wrong with a report that replays, if something is.
pub(super) fn verdict<A: Allocator>(report: &Report<A>) -> Verdict
    requires replays { DoesReplay report.now }
    ensures { IsVerdictOn result report.now }
{
    if report.lost == 0 {
        if !is_first(&report.limits, &report.base) {
            return Verdict::Making(making_reason(&report.limits, &report.base));
        }
        let due = takes(report.records.as_slice());
        if report.takes != due {
            let shown = report.takes;
            return Verdict::Takes { shown, due };
        }
    }
    if !is_replenished(report) {
        return Verdict::Starved(StarvedReason {
            wanted: report.limits.wanted(),
            idle: report.idle.len(),
            pending: report.pending,
        });
    }
    Verdict::Sound
}

// Whether a base is that of a pool just made.
fn is_first<A: Allocator>(limits: &Limits, base: &Base<A>) -> bool
    ensures { IsTrue result
        ↔ (seen_base base.now ≡ first_base (seen_limits limits.now) (as_nanos base.now.at)) }
{
    base.idle.is_empty()
        && base.lent.is_empty()
        && base.connections == 0
        && base.pending == limits.wanted()
        && !base.closed
}

// How it is not. Its connections are its idle and its lent ones.
fn making_reason<A: Allocator>(limits: &Limits, base: &Base<A>) -> MakingReason {
    let (idle, lent) = (base.idle.len(), base.lent.len());
    let (shown, due) = (base.pending, limits.wanted());
    if idle > 0 {
        MakingReason::Idle(idle)
    } else if lent > 0 {
        MakingReason::Lent(lent)
    } else if base.closed {
        MakingReason::Closed
    } else {
        MakingReason::Pending { shown, due }
    }
}

// Whether as many are idle or pending as are wanted, if there is room and the pool is open.
fn is_replenished<A: Allocator>(report: &Report<A>) -> bool
    ensures { IsTrue result
        ↔ IsReplenished (wanted_of (seen_limits report.now.limits))
        (seen_limits report.now.limits).max_size (length report.now.idle.items)
        report.now.connections report.now.pending report.now.closed }
{
    let ready = report.idle.len() as u128 + report.pending as u128;
    let all = report.connections as u64 + report.pending as u64;
    report.closed
        || ready >= report.limits.wanted() as u128
        || all == report.limits.max_size() as u64
}
