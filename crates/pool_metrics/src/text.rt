// Prometheus' text format, version 0.0.4.
ghost use Rattle.std.specs.Prelude.{◌≡◌, ◌-◌, ◌^◌, min};
ghost use Rattle.std.specs.Time.{system_time_nanos};
ghost use Rattle.pool_metrics.specs.Printed.{figure_of, timing_of};

use crate::buckets::nanos_of;
use crate::histogram::Distribution;
use crate::recording::Snapshot;
use r2d2::Status;
use r2d2::event::ReleaseReason;
use std::fmt;
use std::time::{Duration, SystemTime};

/// What is printed of one pool.
#[derive(Clone, Copy, Debug)]
pub struct Reading<'a> {
    /// The pool's name, any text: the label `db_client_connection_pool_name`.
    pub pool: &'a str,
    /// What the pool is doing now.
    pub status: Status,
    /// What it did so far.
    pub snapshot: Snapshot,
}

/// Writes the metrics of some pools in Prometheus' text format, each metric once, with a line or a
/// histogram for each pool: the body of an answer whose content type is `text/plain;
/// version=0.0.4`. The error is that of `out`, which has then got a part of the text.
pub fn write<W: fmt::Write>(readings: &[Reading<'_>], out: &mut W) -> fmt::Result {
    write_counts(readings, out)?;
    for number in &NUMBERS {
        number.write(readings, out)?;
    }
    write_closings(readings, out)?;
    for timing in &TIMINGS {
        timing.write(readings, out)?;
    }
    Ok(())
}

// The name of a metric, its kind, and what it says.
#[derive(Clone, Copy)]
struct Family {
    name: &'static str,
    kind: &'static str,
    help: &'static str,
}

impl Family {
    fn write<W: fmt::Write>(self, out: &mut W) -> fmt::Result {
        let Family { name, kind, help } = self;
        writeln!(out, "# HELP {name} {help}")?;
        writeln!(out, "# TYPE {name} {kind}")
    }
}

// How many connections there are in each state.
fn write_counts<W: fmt::Write>(readings: &[Reading<'_>], out: &mut W) -> fmt::Result {
    let family = Family {
        name: "db_client_connection_count",
        kind: "gauge",
        help: "Connections that are idle, and that are used.",
    };
    family.write(out)?;
    for reading in readings {
        reading.write_count(family.name, "idle", reading.status.idle, out)?;
        reading.write_count(family.name, "used", reading.status.lent, out)?;
    }
    Ok(())
}

impl<'a> Reading<'a> {
    fn write_count<W: fmt::Write>(
        &self,
        name: &str,
        state: &str,
        count: u32,
        out: &mut W,
    ) -> fmt::Result {
        let pool = Pool(self.pool);
        writeln!(
            out,
            "{name}{{{pool},db_client_connection_state=\"{state}\"}} {count}"
        )
    }

    // One line for each reason.
    fn write_closings<W: fmt::Write>(&self, name: &str, out: &mut W) -> fmt::Result {
        let pool = Pool(self.pool);
        for reason in &REASONS {
            let (count, reason) = (self.snapshot.closed.count(*reason), name_of(*reason));
            writeln!(out, "{name}{{{pool},reason=\"{reason}\"}} {count}")?;
        }
        Ok(())
    }
}

const REASONS: [ReleaseReason; 8] = [
    ReleaseReason::Broken,
    ReleaseReason::CheckFailed,
    ReleaseReason::Distrusted,
    ReleaseReason::Lifetime,
    ReleaseReason::Idle,
    ReleaseReason::Evicted,
    ReleaseReason::Detached,
    ReleaseReason::PoolClosed,
];

fn name_of(reason: ReleaseReason) -> &'static str {
    match reason {
        ReleaseReason::Broken => "broken",
        ReleaseReason::CheckFailed => "check_failed",
        ReleaseReason::Distrusted => "distrusted",
        ReleaseReason::Lifetime => "lifetime",
        ReleaseReason::Idle => "idle",
        ReleaseReason::Evicted => "evicted",
        ReleaseReason::Detached => "detached",
        ReleaseReason::PoolClosed => "pool_closed",
    }
}

// How many connections left each pool, for each reason.
fn write_closings<W: fmt::Write>(readings: &[Reading<'_>], out: &mut W) -> fmt::Result {
    let family = Family {
        name: "db_client_connection_closed_total",
        kind: "counter",
        help: "Connections that left the pool, by the reason: a detached one was not closed.",
    };
    family.write(out)?;
    for reading in readings {
        reading.write_closings(family.name, out)?;
    }
    Ok(())
}

/// A metric that is one number.
#[derive(Clone, Copy, PartialEq, Eq, Debug)]
pub(crate) enum Number {
    Max,
    IdleMin,
    PendingRequests,
    PendingOpenings,
    LongestLoan,
    Timeouts,
    FailedOpenings,
    FailedChecks,
    Rejected,
    Errors,
    LatestError,
    Opened,
}

const NUMBERS: [Number; 12] = [
    Number::Max,
    Number::IdleMin,
    Number::PendingRequests,
    Number::PendingOpenings,
    Number::LongestLoan,
    Number::Timeouts,
    Number::FailedOpenings,
    Number::FailedChecks,
    Number::Rejected,
    Number::Errors,
    Number::LatestError,
    Number::Opened,
];

impl Number {
    fn name(self) -> &'static str {
        match self {
            Number::Max => "db_client_connection_max",
            Number::IdleMin => "db_client_connection_idle_min",
            Number::PendingRequests => "db_client_connection_pending_requests",
            Number::PendingOpenings => "db_client_connection_pending_openings",
            Number::LongestLoan => "db_client_connection_longest_loan_seconds",
            Number::Timeouts => "db_client_connection_timeouts_total",
            Number::FailedOpenings => "db_client_connection_failed_openings_total",
            Number::FailedChecks => "db_client_connection_failed_checks_total",
            Number::Rejected => "db_client_connection_rejected_total",
            Number::Errors => "db_client_connection_errors_total",
            Number::LatestError => "db_client_connection_latest_error_timestamp_seconds",
            Number::Opened => "db_client_connection_opened_total",
        }
    }

    fn help(self) -> &'static str {
        match self {
            Number::Max => "How many connections the pool may have.",
            Number::IdleMin => "How many connections the pool tries to keep idle.",
            Number::PendingRequests => "Callers that wait now.",
            Number::PendingOpenings => {
                "Openings not done yet, including failed ones to be retried."
            }
            Number::LongestLoan => { "How long the longest current loan has lasted." }
            Number::Timeouts => "Callers that timed out.",
            Number::FailedOpenings => "Openings that failed, or whose connection was refused.",
            Number::FailedChecks => "Checks of connections that failed.",
            Number::Rejected => "Callers refused at once, since max_waiting callers waited.",
            Number::Errors => "Errors of the manager and of the customizer.",
            Number::LatestError => "When the latest of these errors came, in seconds since 1970.",
            Number::Opened => "Connections that were opened.",
        }
    }

    fn kind(self) -> &'static str {
        match self {
            Number::Max
            | Number::IdleMin
            | Number::PendingRequests
            | Number::PendingOpenings
            | Number::LongestLoan
            | Number::LatestError => "gauge",
            Number::Timeouts
            | Number::FailedOpenings
            | Number::FailedChecks
            | Number::Rejected
            | Number::Errors
            | Number::Opened => "counter",
        }
    }

    // What it is for this pool, if it is known.
    fn of(self, status: &Status, snapshot: &Snapshot) -> Option<Figure>
        ensures { result ≡ figure_of self status.now snapshot.now }
    {
        match self {
            Number::Max => Some(Figure::Count(u64::from(status.max_size))),
            Number::IdleMin => Some(Figure::Count(u64::from(status.wanted))),
            Number::PendingRequests => Some(Figure::Count(status.waiting)),
            Number::PendingOpenings => Some(Figure::Count(u64::from(status.opening))),
            Number::LongestLoan => Some(Figure::Length(nanos_of(snapshot.longest_loan))),
            Number::Timeouts => Some(Figure::Count(snapshot.timeouts)),
            Number::FailedOpenings => Some(Figure::Count(status.failed_openings)),
            Number::FailedChecks => Some(Figure::Count(status.failed_checks)),
            Number::Rejected => Some(Figure::Count(status.refused)),
            Number::Errors => snapshot.errors.map(|count| Figure::Count(count)),
            Number::LatestError => {
                let latest = snapshot.latest_error_at;
                latest.map(|time| Figure::Length(since_1970(time)))
            }
            Number::Opened => Some(Figure::Count(snapshot.opened)),
        }
    }

    fn write<W: fmt::Write>(self, readings: &[Reading<'_>], out: &mut W) -> fmt::Result {
        if readings
            .iter()
            .all(|it| self.of(&it.status, &it.snapshot).is_none())
        {
            return Ok(());
        }
        let (name, kind, help) = (self.name(), self.kind(), self.help());
        Family { name, kind, help }.write(out)?;
        for reading in readings {
            let pool = Pool(reading.pool);
            if let Some(figure) = self.of(&reading.status, &reading.snapshot) {
                writeln!(out, "{name}{{{pool}}} {figure}")?;
            }
        }
        Ok(())
    }
}

// In nanoseconds, up to the year 2554.
fn since_1970(time: SystemTime) -> u64
    ensures { result ≡ min (system_time_nanos time) (2 ^ 64 - 1) }
{
    let length = time.duration_since(SystemTime::UNIX_EPOCH);
    nanos_of(length.unwrap_or(Duration::ZERO))
}

/// What a metric means.
#[derive(Clone, Copy, PartialEq, Eq, Debug)]
pub(crate) enum Figure {
    Count(u64),
    /// In nanoseconds, a time's since 1970; in seconds where it is printed.
    Length(u64),
}

impl fmt::Display for Figure {
    fn fmt<W: fmt::Write>(&self, f: &mut fmt::Formatter<W>) -> fmt::Result {
        match *self {
            Figure::Count(count) => write!(f, "{count}"),
            Figure::Length(nanos) => fmt::Display::fmt(&Seconds(nanos), f),
        }
    }
}

/// A metric that is a histogram of durations.
#[derive(Clone, Copy, PartialEq, Eq, Debug)]
pub(crate) enum Timing {
    Wait,
    TimedOutWait,
    Use,
    Create,
    Age,
}

const TIMINGS: [Timing; 5] = [
    Timing::Wait,
    Timing::TimedOutWait,
    Timing::Use,
    Timing::Create,
    Timing::Age,
];

impl Timing {
    fn family(self) -> Family {
        let (name, help) = match self {
            Timing::Wait => (
                "db_client_connection_wait_time_seconds",
                "How long callers waited for the connections that they got.",
            ),
            Timing::TimedOutWait => (
                "db_client_connection_timed_out_wait_time_seconds",
                "How long callers waited that got no connection: the timeouts of their calls.",
            ),
            Timing::Use => (
                "db_client_connection_use_time_seconds",
                "How long connections were used before they came back.",
            ),
            Timing::Create => (
                "db_client_connection_create_time_seconds",
                "How long it took to open a connection.",
            ),
            Timing::Age => (
                "db_client_connection_age_seconds",
                "How old connections were when they left the pool.",
            ),
        };
        Family {
            name,
            kind: "histogram",
            help,
        }
    }

    // What was counted for this pool, if it is.
    fn of(self, snapshot: &Snapshot) -> Option<Distribution>
        ensures { result ≡ timing_of self snapshot.now }
    {
        match self {
            Timing::Wait => Some(snapshot.waits),
            Timing::TimedOutWait => Some(snapshot.timed_out_waits),
            Timing::Use => Some(snapshot.uses),
            Timing::Create => snapshot.openings,
            Timing::Age => Some(snapshot.ages),
        }
    }

    fn write<W: fmt::Write>(self, readings: &[Reading<'_>], out: &mut W) -> fmt::Result {
        let family = self.family();
        if readings.iter().all(|it| self.of(&it.snapshot).is_none()) {
            return Ok(());
        }
        family.write(out)?;
        for reading in readings {
            if let Some(distribution) = self.of(&reading.snapshot) {
                write_histogram(family.name, reading.pool, &distribution, out)?;
            }
        }
        Ok(())
    }
}

// One line for each of the distribution's buckets, and those of its sum and its count.
fn write_histogram<W: fmt::Write>(
    name: &str,
    pool: &str,
    distribution: &Distribution,
    out: &mut W,
) -> fmt::Result {
    let pool = Pool(pool);
    for bucket in &distribution.buckets() {
        let (up_to, count) = (bucket.up_to, bucket.count);
        writeln!(out, "{name}_bucket{{{pool},le=\"{up_to}\"}} {count}")?;
    }
    let (sum, count) = (Seconds(distribution.nanos()), distribution.count());
    writeln!(out, "{name}_sum{{{pool}}} {sum}")?;
    writeln!(out, "{name}_count{{{pool}}} {count}")
}

// What a digit counts behind the point, in nanoseconds.
const PLACES: [u64; 9] = [
    100_000_000,
    10_000_000,
    1_000_000,
    100_000,
    10_000,
    1000,
    100,
    10,
    1,
];

/// A length in seconds, as a decimal number without zeros at its end.
#[derive(Clone, Copy)]
pub(crate) struct Seconds(pub(crate) u64);

impl fmt::Display for Seconds {
    fn fmt<W: fmt::Write>(&self, f: &mut fmt::Formatter<W>) -> fmt::Result {
        let seconds = self.0 / 1_000_000_000;
        let mut rest = self.0 % 1_000_000_000;
        write!(f, "{seconds}")?;
        if rest > 0 {
            f.write_str(".")?;
        }
        for place in &PLACES {
            if rest == 0 {
                break;
            }
            let digit = rest / place;
            write!(f, "{digit}")?;
            rest %= place;
        }
        Ok(())
    }
}

/// The label with a pool's name.
#[derive(Clone, Copy)]
struct Pool<'a>(&'a str);

impl<'a> fmt::Display for Pool<'a> {
    fn fmt<W: fmt::Write>(&self, f: &mut fmt::Formatter<W>) -> fmt::Result {
        let name = Escaped(self.0);
        write!(f, "db_client_connection_pool_name=\"{name}\"")
    }
}

/// A text between the quotes of a label.
#[derive(Clone, Copy)]
pub(crate) struct Escaped<'a>(pub(crate) &'a str);

impl<'a> fmt::Display for Escaped<'a> {
    fn fmt<W: fmt::Write>(&self, f: &mut fmt::Formatter<W>) -> fmt::Result {
        for letter in self.0.chars() {
            match letter {
                '\\' => f.write_str("\\\\")?,
                '"' => f.write_str("\\\"")?,
                '\n' => f.write_str("\\n")?,
                _ => f.write_char(letter)?,
            }
        }
        Ok(())
    }
}
