// How a report stands in JSON. `docs/JOURNAL.md` says what its fields are.

use crate::nanoseconds::{self, Nanoseconds};
use crate::status::PoolStatus;
use crate::wall_clock;
use jiff::Timestamp;
use serde::{Deserialize, Deserializer, Format, Serialize};
use std::alloc::Global;
use std::borrow::CowStr;
use std::time::Duration;

/// A report. `Ids` is a list of ids, which is lent for writing.
#[derive(Drop, Serialize, Deserialize)]
#[serde(deny_unknown_fields)]
pub(crate) struct ReportText<'a, Ids> {
    pub(crate) version: u64,
    #[serde(default, deserialize_with = "given", skip_serializing_if = "Option::is_none")]
    pub(crate) name: Option<CowStr<'a>>,
    #[serde(default, with = "wall_clock", skip_serializing_if = "Option::is_none")]
    pub(crate) created_at: Option<Timestamp>,
    #[serde(default, deserialize_with = "given", skip_serializing_if = "Option::is_none")]
    pub(crate) reported_at: Option<Nanoseconds>,
    #[serde(default, deserialize_with = "given", skip_serializing_if = "Option::is_none")]
    pub(crate) status: Option<PoolStatus>,
    #[serde(default, deserialize_with = "given", skip_serializing_if = "Option::is_none")]
    pub(crate) latest_error: Option<CowStr<'a>>,
    #[serde(default, skip_serializing_if = "Vec::is_empty")]
    pub(crate) loans: Vec<(u64, Nanoseconds)>,
    pub(crate) limits: LimitsText,
    pub(crate) base: BaseText,
    pub(crate) records: Vec<RecordText>,
    pub(crate) lost: u64,
    pub(crate) takes: u64,
    pub(crate) idle: Ids,
    pub(crate) lent: Ids,
    pub(crate) connections: u32,
    pub(crate) pending: u32,
    pub(crate) closed: bool,
}

#[derive(Drop, Serialize, Deserialize)]
#[serde(deny_unknown_fields)]
pub(crate) struct LimitsText {
    pub(crate) max_size: u32,
    #[serde(deserialize_with = "needed")]
    pub(crate) min_idle: Option<u32>,
    #[serde(with = "nanoseconds::optional")]
    pub(crate) max_lifetime: Option<Duration>,
    #[serde(with = "nanoseconds::optional")]
    pub(crate) idle_timeout: Option<Duration>,
    #[serde(with = "nanoseconds")]
    pub(crate) connection_timeout: Duration,
    #[serde(with = "nanoseconds")]
    pub(crate) reap_every: Duration,
    pub(crate) order: OrderText,
}

#[derive(Clone, Copy, Serialize, Deserialize)]
#[serde(rename_all = "snake_case")]
pub(crate) enum OrderText {
    NewestFirst,
    OldestFirst,
}

#[derive(Drop, Serialize, Deserialize)]
#[serde(deny_unknown_fields)]
pub(crate) struct BaseText {
    pub(crate) at: Nanoseconds,
    pub(crate) idle: Vec<(u64, Nanoseconds, Nanoseconds)>,
    pub(crate) lent: Vec<(u64, Nanoseconds)>,
    pub(crate) connections: u32,
    pub(crate) pending: u32,
    pub(crate) closed: bool,
}

#[derive(Clone, Copy, Serialize, Deserialize)]
#[serde(tag = "kind", rename_all = "snake_case", deny_unknown_fields)]
pub(crate) enum RecordText {
    Taken {
        #[serde(with = "nanoseconds")]
        at: Duration,
        id: u64,
        ordered: u32,
    },
    Ordered {
        #[serde(with = "nanoseconds")]
        at: Duration,
        ordered: u32,
    },
    Admitted {
        #[serde(with = "nanoseconds")]
        at: Duration,
        id: u64,
    },
    Kept {
        #[serde(with = "nanoseconds")]
        at: Duration,
        id: u64,
    },
    Closed {
        #[serde(with = "nanoseconds")]
        at: Duration,
        id: u64,
        ordered: u32,
    },
    Reaped {
        #[serde(with = "nanoseconds")]
        at: Duration,
        ordered: u32,
    },
    ClosedAll {
        #[serde(with = "nanoseconds")]
        at: Duration,
    },
}

/// What stands in a field that may be left out, but not be null.
pub(crate) fn given<'de, T: Deserialize<'de>, F: Format>(
    alloc: Global,
    from: &mut Deserializer<'de, '_, F>,
) -> Result<Option<T>, F::Error> {
    Ok(Some(T::deserialize(alloc, from)?))
}

/// What stands in a field that may be null, but not be left out.
pub(crate) fn needed<'de, T: Deserialize<'de>, F: Format>(
    alloc: Global,
    from: &mut Deserializer<'de, '_, F>,
) -> Result<Option<T>, F::Error> {
    Option::deserialize(alloc, from)
}
