// A report written as a line of JSON.

use crate::VERSION;
use crate::nanoseconds::Nanoseconds;
use crate::origin::Origin;
use crate::text::{BaseText, LimitsText, OrderText, RecordText, ReportText};
use jiff::Timestamp;
use r2d2_core::{Base, LendingOrder, Limits, Record, Report};
use std::alloc::{AllocError, Allocator, Global};
use std::borrow::CowStr;
use std::time::{Duration, SystemTime};

/// The report as one object of JSON, on one line without a line feed. `docs/JOURNAL.md` lists
/// its fields.
///
/// Times and durations are whole nanoseconds: numbers where they are below 2^64, and
/// strings of digits above. What [`from_json`](crate::from_json) makes of the line is this report.
/// The error comes only if memory is refused.
pub fn to_json<A: Allocator>(alloc: Global, report: &Report<A>) -> Result<String, AllocError> {
    to_json_of_pool(alloc, report, Origin::unknown())
}

/// The same, with what is known of its origin: a field `name`, what the pool is called;
/// `created_at`, what the wall clock showed when it was made, from which its times count;
/// `reported_at`, the time of the report, up to which an audit then reckons; `status`, what
/// callers met; `latest_error`; and `loans`, since when connections are lent. What is not known is
/// left out, and so is a wall clock past the year 9999.
pub fn to_json_of_pool<A: Allocator>(
    alloc: Global,
    report: &Report<A>,
    origin: Origin<'_>,
) -> Result<String, AllocError> {
    let base = BaseText::of(alloc, &report.base)?;
    let records = report.records.iter().map(record_text).collect(alloc)?;
    let loans = origin.loans.iter().map(loan_text).collect(alloc)?;
    let text = ReportText {
        version: VERSION,
        name: origin.name.map(|name| CowStr::Borrowed(name)),
        created_at: origin.created_at.and_then(timestamp),
        reported_at: origin.reported_at.map(Nanoseconds),
        status: origin.status,
        latest_error: origin.latest_error.map(|text| CowStr::Borrowed(text)),
        loans,
        limits: LimitsText::of(&report.limits),
        base,
        records,
        lost: report.lost,
        takes: report.takes,
        idle: report.idle.as_slice(),
        lent: report.lent.as_slice(),
        connections: report.connections,
        pending: report.pending,
        closed: report.closed,
    };
    // Nothing else fails: each part has a text.
    serde_json::to_string(alloc, &text).map_err(|_| AllocError)
}

fn timestamp(moment: SystemTime) -> Option<Timestamp> {
    Timestamp::try_from(moment).ok()
}

fn loan_text(loan: &(u64, Duration)) -> (u64, Nanoseconds) {
    (loan.0, Nanoseconds(loan.1))
}

impl LimitsText {
    pub(crate) fn of(limits: &Limits) -> LimitsText {
        LimitsText {
            max_size: limits.max_size(),
            min_idle: limits.min_idle(),
            max_lifetime: limits.max_lifetime(),
            idle_timeout: limits.idle_timeout(),
            connection_timeout: limits.connection_timeout(),
            reap_every: limits.reap_every(),
            order: match limits.order() {
                LendingOrder::NewestFirst => OrderText::NewestFirst,
                LendingOrder::OldestFirst => OrderText::OldestFirst,
            },
        }
    }
}

impl BaseText {
    fn of<A: Allocator>(alloc: Global, base: &Base<A>) -> Result<BaseText, AllocError> {
        let idle = base.idle.iter().map(resting_text).collect(alloc)?;
        let lent = base.lent.iter().map(loan_text).collect(alloc)?;
        Ok(BaseText {
            at: Nanoseconds(base.at),
            idle,
            lent,
            connections: base.connections,
            pending: base.pending,
            closed: base.closed,
        })
    }
}

fn resting_text(one: &(u64, Duration, Duration)) -> (u64, Nanoseconds, Nanoseconds) {
    (one.0, Nanoseconds(one.1), Nanoseconds(one.2))
}

fn record_text(record: &Record) -> RecordText {
    match *record {
        Record::Taken { at, id, ordered } => RecordText::Taken { at, id, ordered },
        Record::Ordered { at, ordered } => RecordText::Ordered { at, ordered },
        Record::Admitted { at, id } => RecordText::Admitted { at, id },
        Record::Kept { at, id } => RecordText::Kept { at, id },
        Record::Closed { at, id, ordered } => RecordText::Closed { at, id, ordered },
        Record::Reaped { at, ordered } => RecordText::Reaped { at, ordered },
        Record::ClosedAll { at } => RecordText::ClosedAll { at },
    }
}
