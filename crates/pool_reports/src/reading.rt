// A report read from JSON.

use crate::VERSION;
use crate::error::FromJsonError;
use crate::nanoseconds::Nanoseconds;
use crate::origin::Written;
use crate::text::{BaseText, LimitsText, OrderText, RecordText, ReportText};
use jiff::Timestamp;
use r2d2_core::{Base, LendingOrder, LimitSettings, Limits, Record, Report};
use serde::{Deserialize, Deserializer, Format, Kind, Name};
use serde_json::Value;
use std::alloc::{AllocError, Global};
use std::borrow::CowStr;
use std::fmt::InlineText;
use std::time::{Duration, SystemTime};

/// The report that a text of JSON says, as [`to_json`](crate::to_json) writes it. White space and
/// the order of the fields do not matter; where a field stands twice, the last one counts.
///
/// It takes memory in proportion to the text, and that of the report. The error says what is wrong,
/// and where: ``missing field `id` at column 407``. Whether the report is one of a pool is not
/// asked here: `audit` says.
pub fn from_json(alloc: Global, text: &str) -> Result<Report, FromJsonError> {
    Ok(from_json_of_pool(alloc, text)?.report)
}

/// The same, and what the text says of its origin, as [`to_json_of_pool`](crate::to_json_of_pool)
/// writes it.
pub fn from_json_of_pool(alloc: Global, text: &str) -> Result<Written, FromJsonError> {
    match read(alloc, text) {
        Err(FromJsonError::Wrong(why)) => read_last_ones(alloc, text, why),
        read => read,
    }
}

// Nothing that is read by a derive may have a field twice. In a `Value` the last one counts.
fn read_last_ones(alloc: Global, text: &str, why: String) -> Result<Written, FromJsonError> {
    let value = match Value::from_str(alloc, text) {
        Ok(value) => value,
        Err(error) if error.is_memory() => return Err(FromJsonError::Memory),
        Err(_) => return Err(FromJsonError::Wrong(why)),
    };
    match read(alloc, value.to_string(alloc)?.as_str()) {
        // What was said of the text itself has its place.
        Err(FromJsonError::Wrong(_)) => Err(FromJsonError::Wrong(why)),
        read => read,
    }
}

fn read(alloc: Global, text: &str) -> Result<Written, FromJsonError> {
    // Other versions may have other fields, so this one comes first.
    match parsed(alloc, text)? {
        Version(Some(VERSION)) => written(alloc, parsed(alloc, text)?),
        Version(Some(version)) => Err(FromJsonError::Version(version)),
        Version(None) => Err(FromJsonError::NoVersion),
    }
}

fn parsed<'t, T: Deserialize<'t>>(alloc: Global, text: &'t str) -> Result<T, FromJsonError> {
    match serde_json::from_str(alloc, text) {
        Ok(value) => Ok(value),
        Err(error) if error.is_memory() => Err(FromJsonError::Memory),
        Err(error) => Err(FromJsonError::Wrong(told(alloc, text, &error)?)),
    }
}

// What is said of a text, on one line. Most are one line, so the number of the first is left out.
fn told(alloc: Global, text: &str, error: &serde_json::Error) -> Result<String, AllocError> {
    let (line, column) = (error.line(), error.column());
    let place = match line {
        1 => format!(in alloc; "at column {column}")?,
        _ => format!(in alloc; "at line {line}, column {column}")?,
    };
    if !error.is_data() {
        return format!(in alloc; "not JSON {place}");
    }
    let said = error.to_string(alloc)?;
    let what = said
        .as_str()
        .split_once(" at line ")
        .map_or("", |(what, _)| what);
    match found_at(text, line, column) {
        "" => format!(in alloc; "{what} {place}"),
        found => format!(in alloc; "{what} {place}: {}", InlineText::<40>::of(found).as_str()),
    }
}

// What stands at a place, up to the end of a value.
fn found_at(text: &str, line: usize, column: usize) -> &str {
    let line = text.split('\n').nth(line.saturating_sub(1));
    let rest = line.and_then(|line| line.get(column.saturating_sub(1)..));
    let mut parts = rest.unwrap_or_default().split([',', '}', ']']);
    parts.next().unwrap_or_default().trim_ascii()
}

// The version of an object of JSON, whose fields hold objects where those of a report do.
#[derive(Drop)]
struct Version(Option<u64>);

impl<'de> Deserialize<'de> for Version {
    fn deserialize<F: Format>(
        _alloc: Global,
        from: &mut Deserializer<'de, '_, F>,
    ) -> Result<Version, F::Error> {
        let names = ["version", "limits", "base", "status"].map(|name| Name::exact(name));
        let mut version = None;
        from.begin_map()?;
        for _ in 0..u64::MAX {
            match from.next_key(&names)? {
                Some(0) => version = Some(from.u64()?),
                Some(1..=3) if from.peek()? != Kind::Map => return Err(from.invalid()),
                Some(_) => from.skip()?,
                None => break,
            }
        }
        Ok(Version(version))
    }
}

// What the text of a report says.
fn written(alloc: Global, text: ReportText<'_, Vec<u64>>) -> Result<Written, FromJsonError> {
    let limits = limits_of(alloc, &text.limits)?;
    let base = base_of(alloc, &text.base)?;
    let records = text.records.iter().map(record_of).collect(alloc)?;
    let loans = text.loans.iter().map(loan_of).collect(alloc)?;
    let name = owned(alloc, &text.name)?;
    let latest_error = owned(alloc, &text.latest_error)?;
    Ok(Written {
        report: Report {
            limits,
            base,
            records,
            lost: text.lost,
            takes: text.takes,
            idle: text.idle,
            lent: text.lent,
            connections: text.connections,
            pending: text.pending,
            closed: text.closed,
        },
        name,
        created_at: text.created_at.and_then(wall_clock),
        reported_at: text.reported_at.map(|moment| moment.0),
        status: text.status,
        latest_error,
        loans,
    })
}

fn wall_clock(moment: Timestamp) -> Option<SystemTime> {
    SystemTime::try_from(moment).ok()
}

fn owned(alloc: Global, text: &Option<CowStr<'_>>) -> Result<Option<String>, AllocError> {
    match text {
        Some(text) => Ok(Some(String::from_str(alloc, text.as_str())?)),
        None => Ok(None),
    }
}

fn limits_of(alloc: Global, text: &LimitsText) -> Result<Limits, FromJsonError> {
    let settings = LimitSettings {
        max_size: text.max_size,
        min_idle: text.min_idle,
        max_lifetime: text.max_lifetime,
        idle_timeout: text.idle_timeout,
        connection_timeout: text.connection_timeout,
        reap_every: text.reap_every,
        order: match text.order {
            OrderText::NewestFirst => LendingOrder::NewestFirst,
            OrderText::OldestFirst => LendingOrder::OldestFirst,
        },
    };
    match settings.limits() {
        Some(limits) => Ok(limits),
        None => Err(FromJsonError::Wrong(format!(in alloc; "limits.{}", wrong_one(&settings))?)),
    }
}

// The first of the settings that no pool may have. One has to be there.
fn wrong_one(settings: &LimitSettings) -> &'static str {
    let (max_size, zero) = (settings.max_size, Some(Duration::ZERO));
    let ones = [
        (max_size == 0, "max_size: zero"),
        (
            settings.min_idle.is_some_and(|count| count > max_size),
            "min_idle: above max_size",
        ),
        (settings.max_lifetime == zero, "max_lifetime: zero"),
        (settings.idle_timeout == zero, "idle_timeout: zero"),
        (
            settings.connection_timeout.is_zero(),
            "connection_timeout: zero",
        ),
    ];
    let first = ones.iter().find(|(is_wrong, _)| *is_wrong);
    first.map_or("reap_every: zero", |(_, what)| *what)
}

fn base_of(alloc: Global, text: &BaseText) -> Result<Base, AllocError> {
    let idle = text.idle.iter().map(resting_of).collect(alloc)?;
    let lent = text.lent.iter().map(loan_of).collect(alloc)?;
    Ok(Base {
        at: text.at.0,
        idle,
        lent,
        connections: text.connections,
        pending: text.pending,
        closed: text.closed,
    })
}

fn resting_of(text: &(u64, Nanoseconds, Nanoseconds)) -> (u64, Duration, Duration) {
    (text.0, text.1.0, text.2.0)
}

fn loan_of(text: &(u64, Nanoseconds)) -> (u64, Duration) {
    (text.0, text.1.0)
}

fn record_of(text: &RecordText) -> Record {
    match *text {
        RecordText::Taken { at, id, ordered } => Record::Taken { at, id, ordered },
        RecordText::Ordered { at, ordered } => Record::Ordered { at, ordered },
        RecordText::Admitted { at, id } => Record::Admitted { at, id },
        RecordText::Kept { at, id } => Record::Kept { at, id },
        RecordText::Closed { at, id, ordered } => Record::Closed { at, id, ordered },
        RecordText::Reaped { at, ordered } => Record::Reaped { at, ordered },
        RecordText::ClosedAll { at } => Record::ClosedAll { at },
    }
}
