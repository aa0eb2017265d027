// What a report shows that its records do not come to.

use r2d2_core::{Base, Report};
use std::alloc::Allocator;
use std::fmt;
use thiserror::Error;

/// What a report shows that its records do not come to, as its text says.
#[derive(Clone, Copy, Debug, Error, PartialEq, Eq)]
pub enum CountsReason {
    #[error("{} idle, but the records come to {due}", Are(*.shown as u64))]
    Idle { shown: usize, due: usize },
    #[error("idle[{place}] is connection {shown}, but the records come to connection {due}")]
    IdleId { place: usize, shown: u64, due: u64 },
    #[error("{} lent, but the records come to {due}", Are(*.shown as u64))]
    Lent { shown: usize, due: usize },
    #[error("lent[{place}] is connection {shown}, but the records come to connection {due}")]
    LentId { place: usize, shown: u64, due: u64 },
    #[error("{} connected, but the records come to {due}", Are(u64::from(*.shown)))]
    Connections { shown: u32, due: u32 },
    #[error("{} pending, but the records come to {due}", Are(u64::from(*.shown)))]
    Pending { shown: u32, due: u32 },
    #[error("it is closed, but by the records it is open")]
    Closed,
    #[error("it is open, but by the records it is closed")]
    Open,
}

// A number of connections or openings, with its verb.
#[derive(Clone, Copy)]
struct Are(u64);

impl fmt::Display for Are {
    fn fmt<W: fmt::Write>(&self, f: &mut fmt::Formatter<W>) -> fmt::Result {
        match self.0 {
            1 => write!(f, "1 is"),
            count => write!(f, "{count} are"),
        }
    }
}

/// What the report shows that is not what its records come to. There has to be something.
pub(super) fn reason<A: Allocator, B: Allocator>(
    report: &Report<A>,
    end: &Base<B>,
) -> CountsReason {
    let (shown, due) = (report.idle.len(), end.idle.len());
    if shown != due {
        return CountsReason::Idle { shown, due };
    }
    let mut idle = report.idle.iter().zip(end.idle.iter()).enumerate();
    if let Some((place, (shown, entry))) = idle.find(|(_, (shown, entry))| **shown != entry.0) {
        let (shown, due) = (*shown, entry.0);
        return CountsReason::IdleId { place, shown, due };
    }
    let (shown, due) = (report.lent.len(), end.lent.len());
    if shown != due {
        return CountsReason::Lent { shown, due };
    }
    let mut lent = report.lent.iter().zip(end.lent.iter()).enumerate();
    if let Some((place, (shown, loan))) = lent.find(|(_, (shown, loan))| **shown != loan.0) {
        let (shown, due) = (*shown, loan.0);
        return CountsReason::LentId { place, shown, due };
    }
    wrong_count(report, end)
}

fn wrong_count<A: Allocator, B: Allocator>(report: &Report<A>, end: &Base<B>) -> CountsReason {
    let (shown, due) = (report.connections, end.connections);
    if shown != due {
        return CountsReason::Connections { shown, due };
    }
    let (shown, due) = (report.pending, end.pending);
    if shown != due {
        return CountsReason::Pending { shown, due };
    }
    if report.closed {
        CountsReason::Closed
    } else {
        CountsReason::Open
    }
}
