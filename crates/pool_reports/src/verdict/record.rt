// Why a record may not follow what stood before it.
ghost use Rattle.std.specs.Prelude.{◌≡◌};
ghost use Rattle.pool_machine.specs.Limits.{seen_limits, top_up};

use crate::walk::is_expired;
use r2d2_core::{Base, LendingOrder, Limits, Record};
use std::alloc::Allocator;
use std::fmt;
use std::time::Duration;
use thiserror::Error;

/// Why a record may not follow what stood before it, as its text says.
#[derive(Clone, Copy, Debug, Error, PartialEq, Eq)]
pub enum RecordReason {
    #[error("its time is before that of the base")]
    BeforeBase,
    #[error("its time is before that of the record before it")]
    BeforeLast,
    #[error("connection {0} is taken, but none is idle")]
    NoneIdle(u64),
    #[error("connection {id} is taken, but connection {next} is lent next")]
    NotNext { id: u64, next: u64 },
    #[error("{} ordered where {} due", Were(*.ordered), Were(*.due))]
    Ordered { ordered: u32, due: u32 },
    /// One was ordered alone, as where none is idle, but the connection of this id is idle.
    #[error("one is ordered alone, but connection {0} is idle")]
    OrderedThoughIdle(u64),
    #[error("one is ordered alone, but the pool is closed")]
    OrderedThoughClosed,
    #[error("one is ordered alone, but there are {0} already, which is max_size")]
    OrderedThoughFull(u32),
    #[error("connection {0} is admitted, but no opening was pending")]
    NonePending(u64),
    #[error("connection {0} is admitted, but there was one of that id before")]
    AdmittedTwice(u64),
    #[error("connection {0} is kept, but it is not lent")]
    KeptThoughNotLent(u64),
    #[error("connection {0} is kept, but the pool is closed")]
    KeptThoughClosed(u64),
    #[error("connection {0} is kept, but its age has reached max_lifetime")]
    KeptThoughOld(u64),
    #[error("connection {0} is closed, but it is not lent")]
    ClosedThoughNotLent(u64),
    #[error("a reap that closed none and ordered none makes no record")]
    NothingReaped,
    #[error("the pool is closed, but it was closed before")]
    ClosedTwice,
}

// A number of openings, with its verb.
#[derive(Clone, Copy)]
struct Were(u32);

impl fmt::Display for Were {
    fn fmt<W: fmt::Write>(&self, f: &mut fmt::Formatter<W>) -> fmt::Result {
        match self.0 {
            1 => write!(f, "1 was"),
            count => write!(f, "{count} were"),
        }
    }
}

/// Why the record may not follow what stood before it, or the base if it is the first. It has to be
/// one that may not.
pub(super) fn reason<A: Allocator>(
    limits: &Limits,
    before: &Base<A>,
    record: &Record,
    is_first: bool,
) -> RecordReason {
    let at = record.at();
    if at.as_nanos() < before.at.as_nanos() {
        return if is_first {
            RecordReason::BeforeBase
        } else {
            RecordReason::BeforeLast
        };
    }
    match record {
        Record::Taken { id, ordered, .. } => of_taken(limits, before, *id, *ordered),
        Record::Ordered { ordered, .. } => of_ordered(limits, before, *ordered),
        Record::Admitted { id, .. } if before.pending == 0 => RecordReason::NonePending(*id),
        Record::Admitted { id, .. } => RecordReason::AdmittedTwice(*id),
        Record::Kept { id, .. } => of_kept(before, *id),
        Record::Closed { id, ordered, .. } => of_closed(limits, before, *id, *ordered),
        Record::Reaped { ordered, .. } => of_reaped(limits, before, at, *ordered),
        Record::ClosedAll { .. } => RecordReason::ClosedTwice,
    }
}

fn of_taken<A: Allocator>(
    limits: &Limits,
    before: &Base<A>,
    id: u64,
    ordered: u32,
) -> RecordReason {
    match next_of(limits, before) {
        None => RecordReason::NoneIdle(id),
        Some(next) if next != id => RecordReason::NotNext { id, next },
        Some(_) => {
            let idle = before.idle.len().saturating_sub(1);
            let due = due(limits, before, idle, before.connections);
            RecordReason::Ordered { ordered, due }
        }
    }
}

// The id of the idle connection that is lent next.
fn next_of<A: Allocator>(limits: &Limits, before: &Base<A>) -> Option<u64> {
    let idle = before.idle.as_slice();
    let next = match limits.order() {
        LendingOrder::NewestFirst => idle.last(),
        LendingOrder::OldestFirst => idle.first(),
    };
    next.map(|entry| entry.0)
}

fn of_ordered<A: Allocator>(limits: &Limits, before: &Base<A>, ordered: u32) -> RecordReason {
    if let Some(id) = next_of(limits, before) {
        return RecordReason::OrderedThoughIdle(id);
    }
    if before.closed {
        return RecordReason::OrderedThoughClosed;
    }
    if before.connections as u64 + before.pending as u64 >= limits.max_size() as u64 {
        return RecordReason::OrderedThoughFull(limits.max_size());
    }
    RecordReason::Ordered { ordered, due: 1 }
}

fn of_kept<A: Allocator>(before: &Base<A>, id: u64) -> RecordReason {
    if !is_lent(before, id) {
        RecordReason::KeptThoughNotLent(id)
    } else if before.closed {
        RecordReason::KeptThoughClosed(id)
    } else {
        RecordReason::KeptThoughOld(id)
    }
}

fn is_lent<A: Allocator>(before: &Base<A>, id: u64) -> bool {
    before.lent.iter().any(|loan| loan.0 == id)
}

fn of_closed<A: Allocator>(
    limits: &Limits,
    before: &Base<A>,
    id: u64,
    ordered: u32,
) -> RecordReason {
    if !is_lent(before, id) {
        return RecordReason::ClosedThoughNotLent(id);
    }
    let idle = before.idle.len();
    let due = due(limits, before, idle, before.connections.saturating_sub(1));
    RecordReason::Ordered { ordered, due }
}

fn of_reaped<A: Allocator>(
    limits: &Limits,
    before: &Base<A>,
    at: Duration,
    ordered: u32,
) -> RecordReason {
    let idle = before.idle.as_slice();
    let expired = idle
        .iter()
        .filter(|entry| is_expired(limits, at, entry.1, entry.2))
        .count();
    let closed = u32::try_from(expired).unwrap_or(u32::MAX);
    let left = before.connections.saturating_sub(closed);
    let due = due(limits, before, idle.len().saturating_sub(expired), left);
    if due == ordered {
        RecordReason::NothingReaped
    } else {
        RecordReason::Ordered { ordered, due }
    }
}

// What is to be ordered where so many are idle, and so many connected.
fn due<A: Allocator>(limits: &Limits, before: &Base<A>, idle: usize, connections: u32) -> u32
    ensures { result ≡ top_up (seen_limits limits.now) before.now.closed idle connections
        before.now.pending }
{
    limits.top_up(before.closed, idle, connections as usize, before.pending)
}
