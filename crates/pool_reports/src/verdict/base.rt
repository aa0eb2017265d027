// Why a base is none that a pool may come to.

use r2d2_core::{Base, Limits};
use std::alloc::{AllocError, Allocator, Global};
use std::time::Duration;
use thiserror::Error;

/// Why a base is none that a pool with the limits may come to, as its text says.
#[derive(Clone, Copy, Debug, Error, PartialEq, Eq)]
pub enum BaseReason {
    #[error("connection {0} stands twice")]
    Twice(u64),
    #[error("connection {0} was idle earlier than the one that stands before it")]
    OutOfOrder(u64),
    #[error("connection {0} is idle since after the time of the base")]
    IdleAfterBase(u64),
    #[error("connection {0} was admitted after it came to be idle")]
    BornAfterIdle(u64),
    #[error("connection {0} was admitted after the time of the base")]
    BornAfterBase(u64),
    #[error("connections is {shown}, but {listed} are listed")]
    Connections { shown: u32, listed: usize },
    #[error("connections and pending are {all} together, but max_size is {max_size}")]
    TooMany { all: u64, max_size: u32 },
    #[error("it is closed, but idle has {0}")]
    IdleThoughClosed(usize),
    #[error("it is closed, but pending is {0}")]
    PendingThoughClosed(u32),
}

/// Why the base is none that a pool with the limits may come to. It has to be none.
pub(super) fn reason<A: Allocator>(
    alloc: Global,
    limits: &Limits,
    base: &Base<A>,
) -> Result<BaseReason, AllocError> {
    if let Some(id) = twice(alloc, base)? {
        return Ok(BaseReason::Twice(id));
    }
    if let Some(reason) = wrong_idle(base.at, base.idle.as_slice()) {
        return Ok(reason);
    }
    if let Some(id) = born_after(base.at, base.lent.as_slice()) {
        return Ok(BaseReason::BornAfterBase(id));
    }
    Ok(wrong_count(limits, base))
}

// The least id that stands twice.
fn twice<A: Allocator>(alloc: Global, base: &Base<A>) -> Result<Option<u64>, AllocError> {
    let idle = base.idle.iter().map(|entry| entry.0);
    let lent = base.lent.iter().map(|loan| loan.0);
    let mut ids: Vec<u64> = idle.chain(lent).collect(alloc)?;
    ids.sort_unstable();
    let mut pairs = ids.iter().zip(ids.iter().skip(1));
    Ok(pairs.find(|(id, next)| id == next).map(|(id, _)| *id))
}

fn wrong_idle(at: Duration, idle: &[(u64, Duration, Duration)]) -> Option<BaseReason> {
    let mut last = Duration::ZERO;
    for (id, birth, since) in idle {
        if since.as_nanos() < last.as_nanos() {
            return Some(BaseReason::OutOfOrder(*id));
        }
        if since.as_nanos() > at.as_nanos() {
            return Some(BaseReason::IdleAfterBase(*id));
        }
        if birth.as_nanos() > since.as_nanos() {
            return Some(BaseReason::BornAfterIdle(*id));
        }
        last = *since;
    }
    None
}

// The first lent one that was admitted after the time.
fn born_after(at: Duration, lent: &[(u64, Duration)]) -> Option<u64> {
    lent.iter()
        .find(|loan| loan.1.as_nanos() > at.as_nanos())
        .map(|loan| loan.0)
}

// Which counts are wrong, where the ids and the times are not.
fn wrong_count<A: Allocator>(limits: &Limits, base: &Base<A>) -> BaseReason {
    let idle = base.idle.len();
    let listed = idle.saturating_add(base.lent.len());
    if base.connections as usize != listed {
        let shown = base.connections;
        return BaseReason::Connections { shown, listed };
    }
    let all = base.connections as u64 + base.pending as u64;
    if all > limits.max_size() as u64 {
        let max_size = limits.max_size();
        return BaseReason::TooMany { all, max_size };
    }
    if idle > 0 {
        BaseReason::IdleThoughClosed(idle)
    } else {
        BaseReason::PendingThoughClosed(base.pending)
    }
}
