// A story as JSON, from which a page draws it.

use super::{Cause, Coming, Counts, Life, Story, Stretch, Use};
use crate::nanoseconds::Nanoseconds;
use crate::text::LimitsText;
use r2d2_core::{Record, Report};
use serde::{Described, Serialize, Serializer};
use std::alloc::{AllocError, Allocator, Global};
use std::time::Duration;

// So many connections have a lane at most, the newest ones.
const MOST_LANES: usize = 1000;

/// The story of a report as an object of JSON: `limits`; `wanted`; `steps`, a list for the base and
/// one for each record, each with the time, how many are lent, idle and opening from then on,
/// whether the pool is exhausted then, as 0 or 1, the kind, and the id and what was ordered, where
/// the record says that; `lanes`, what became of each connection; and `left_out`, how many have no
/// lane. The error is lack of memory.
pub fn story_to_json<A: Allocator>(
    alloc: Global,
    report: &Report<A>,
    reported_at: Option<Duration>,
) -> Result<String, AllocError> {
    let story = Story::of(alloc, report, reported_at)?;
    let left_out = story.lives.len().saturating_sub(MOST_LANES);
    let written = StoryText {
        limits: LimitsText::of(&report.limits),
        wanted: report.limits.wanted(),
        steps: StepTexts {
            counts: story.counts.as_slice(),
            records: report.records.as_slice(),
        },
        lanes: story.lives.as_slice().get(left_out..).unwrap_or_default(),
        left_out,
    };
    // Nothing else fails: each part has a text.
    serde_json::to_string(alloc, &written).map_err(|_| AllocError)
}

#[derive(Drop, Serialize)]
struct StoryText<'a> {
    limits: LimitsText,
    wanted: u32,
    steps: StepTexts<'a>,
    lanes: &'a [Life],
    left_out: usize,
}

// The counts of the base, and those after each record.
#[derive(Clone, Copy)]
struct StepTexts<'a> {
    counts: &'a [Counts],
    records: &'a [Record],
}

impl Described for StepTexts<'_> {}

impl Serialize for StepTexts<'_> {
    fn serialize<S: Serializer>(&self, out: &mut S) -> Result<(), S::Error> {
        out.begin_seq(Some(self.counts.len()))?;
        for (place, counts) in self.counts.iter().enumerate() {
            let record = self.records.get(place.wrapping_sub(1));
            StepText::of(counts, record).serialize(out)?;
        }
        out.end_seq()
    }
}

// The time; the lent, idle and opening ones; whether it is exhausted; and the record.
#[derive(Clone, Copy, Serialize)]
struct StepText(
    Nanoseconds,
    u32,
    u32,
    u32,
    u32,
    &'static str,
    Option<u64>,
    Option<u32>,
);

impl StepText {
    fn of(counts: &Counts, record: Option<&Record>) -> StepText {
        let (kind, id, ordered) = match record.copied() {
            None => ("base", None, None),
            Some(Record::Taken { id, ordered, .. }) => ("taken", Some(id), Some(ordered)),
            Some(Record::Ordered { ordered, .. }) => ("ordered", None, Some(ordered)),
            Some(Record::Admitted { id, .. }) => ("admitted", Some(id), None),
            Some(Record::Kept { id, .. }) => ("kept", Some(id), None),
            Some(Record::Closed { id, ordered, .. }) => ("closed", Some(id), Some(ordered)),
            Some(Record::Reaped { ordered, .. }) => ("reaped", None, Some(ordered)),
            Some(Record::ClosedAll { .. }) => ("closed_all", None, None),
        };
        StepText(
            Nanoseconds(counts.at),
            counts.lent(),
            counts.idle,
            counts.pending,
            u32::from(counts.is_exhausted),
            kind,
            id,
            ordered,
        )
    }
}

// The lane of a connection.
#[derive(Drop, Serialize)]
struct LaneText<'a> {
    id: u64,
    birth: Nanoseconds,
    came: &'static str,
    stretches: &'a [Stretch],
    end: Option<(&'static str, Nanoseconds)>,
}

impl Described for Life {}

impl Serialize for Life {
    fn serialize<S: Serializer>(&self, out: &mut S) -> Result<(), S::Error> {
        let came = match self.coming {
            Coming::WasIdle => "idle",
            Coming::WasLent => "lent",
            Coming::Admitted => "admitted",
        };
        LaneText {
            id: self.id,
            birth: Nanoseconds(self.birth),
            came,
            stretches: self.stretches.as_slice(),
            end: self
                .ending
                .map(|end| (name_of(end.cause), Nanoseconds(end.at))),
        }
        .serialize(out)
    }
}

fn name_of(cause: Cause) -> &'static str {
    match cause {
        Cause::Closed => "closed",
        Cause::Reaped => "reaped",
        Cause::ClosedAll => "closed_all",
    }
}

impl Described for Stretch {}

impl Serialize for Stretch {
    fn serialize<S: Serializer>(&self, out: &mut S) -> Result<(), S::Error> {
        let what = match self.what {
            Use::Idle => "idle",
            Use::Lent => "lent",
        };
        (what, Nanoseconds(self.from), Nanoseconds(self.to)).serialize(out)
    }
}
