// Times and durations, as the answers say them.

use jiff::Timestamp;
use pool_reports::{Origin, Summary};
use std::fmt;
use std::time::{Duration, SystemTime};

/// A duration in seconds, down to the thousandth.
#[derive(Clone, Copy)]
pub(crate) struct Seconds(pub(crate) Duration);

impl fmt::Display for Seconds {
    fn fmt<W: fmt::Write>(&self, f: &mut fmt::Formatter<W>) -> fmt::Result {
        write!(f, "{}.{:03} s", self.0.as_secs(), self.0.subsec_millis())
    }
}

/// A time of a pool: what the wall clock showed then, or, if that is not known, how long after
/// the creation it was. With `#` it says that in both cases, in seconds.
#[derive(Clone, Copy)]
pub(crate) struct Moment {
    at: Duration,
    clock: Option<Timestamp>,
}

/// What is known of the time that a report covers.
#[derive(Clone, Copy)]
pub(crate) struct Time<'a> {
    pub(crate) origin: Origin<'a>,
    pub(crate) summary: &'a Summary,
}

impl Time<'_> {
    pub(crate) fn moment(&self, at: Duration) -> Moment {
        let created_at = self.origin.created_at;
        let clock = created_at.and_then(|created_at| clock_at(created_at, at));
        Moment { at, clock }
    }
}

// What the wall clock shows so long after a time, down to the thousandth.
fn clock_at(created_at: SystemTime, length: Duration) -> Option<Timestamp> {
    let moment = Timestamp::try_from(created_at.checked_add(length)?).ok()?;
    Timestamp::from_millisecond(moment.as_millisecond()).ok()
}

impl fmt::Display for Moment {
    fn fmt<W: fmt::Write>(&self, f: &mut fmt::Formatter<W>) -> fmt::Result {
        let (length, seconds) = (Length(self.at), Seconds(self.at));
        match self.clock {
            Some(clock) if f.alternate() => write!(f, "{clock} ({seconds} after the creation)"),
            Some(clock) => write!(f, "{clock}"),
            None if f.alternate() => write!(f, "{seconds} after the creation"),
            None => write!(f, "{length} after the creation"),
        }
    }
}

/// A duration by its two largest units, as `16 min 41 s`. What is smaller is left out.
#[derive(Clone, Copy)]
pub(crate) struct Length(pub(crate) Duration);

impl fmt::Display for Length {
    fn fmt<W: fmt::Write>(&self, f: &mut fmt::Formatter<W>) -> fmt::Result {
        let ((large, unit), (small, part)) = parts(self.0);
        if small == 0 {
            write!(f, "{large} {unit}")
        } else {
            write!(f, "{large} {unit} {small} {part}")
        }
    }
}

// How many of the largest unit that fits, and how many of the next one besides.
fn parts(length: Duration) -> ((u64, &'static str), (u64, &'static str)) {
    let (seconds, nanos) = (length.as_secs(), u64::from(length.subsec_nanos()));
    if seconds >= 86_400 {
        ((seconds / 86_400, "d"), (seconds % 86_400 / 3600, "h"))
    } else if seconds >= 3600 {
        ((seconds / 3600, "h"), (seconds % 3600 / 60, "min"))
    } else if seconds >= 60 {
        ((seconds / 60, "min"), (seconds % 60, "s"))
    } else if seconds >= 1 || nanos == 0 {
        ((seconds, "s"), (nanos / 1_000_000, "ms"))
    } else if nanos >= 1_000_000 {
        ((nanos / 1_000_000, "ms"), (nanos % 1_000_000 / 1000, "µs"))
    } else if nanos >= 1000 {
        ((nanos / 1000, "µs"), (nanos % 1000, "ns"))
    } else {
        ((nanos, "ns"), (0, ""))
    }
}
