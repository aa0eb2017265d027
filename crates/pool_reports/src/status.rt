// What the callers of a pool met.

use crate::nanoseconds::{self, Nanoseconds};
use crate::text::needed;
use serde::{Deserialize, Serialize};
use std::time::Duration;

/// What the callers of a pool met up to the time of a report. All counts begin with the creation of
/// the pool, and go up to the greatest number; times count from the creation.
#[derive(Clone, Copy, Debug, PartialEq, Eq, Serialize, Deserialize)]
#[serde(deny_unknown_fields)]
pub struct PoolStatus {
    /// How long a `get` waits at most.
    #[serde(with = "nanoseconds")]
    pub connection_timeout: Duration,
    /// How many callers wait now.
    pub waiting: u64,
    /// Since this time there has been a caller waiting, without a break; None if nobody waits,
    /// or it is not known.
    #[serde(with = "nanoseconds::optional")]
    pub waiting_since: Option<Duration>,
    /// How many callers gave up, since their time was over.
    pub timeouts: u64,
    /// How many were refused at once, since as many waited as may.
    pub refused: u64,
    pub failed_openings: u64,
    pub failed_checks: u64,
    /// The time of the latest opening or check that failed.
    #[serde(with = "nanoseconds::optional")]
    pub latest_failure: Option<Duration>,
    /// How many callers waited for long, if that is known.
    #[serde(deserialize_with = "needed")]
    pub waits: Option<Waits>,
}

/// How many of those that were lent a connection waited longer for it than a bound.
#[derive(Clone, Copy, Debug, PartialEq, Eq, Serialize, Deserialize)]
#[serde(from = "WaitsText", into = "WaitsText")]
pub struct Waits {
    pub bound: Duration,
    pub longer: u64,
    pub all: u64,
}

impl Waits {
    /// Those that came since earlier ones; all of these where they are not of the same bound, or
    /// fewer.
    pub(crate) fn after(self, earlier: Option<Waits>) -> Waits {
        match earlier {
            Some(Waits { bound, longer, all })
                if bound == self.bound && longer <= self.longer && all <= self.all => {
                Waits {
                    longer: self.longer - longer,
                    all: self.all - all,
                    ..self
                }
            }
            _ => self,
        }
    }
}

// The same in JSON, `[bound, longer, all]`.
#[derive(Clone, Copy, Serialize, Deserialize)]
struct WaitsText(Nanoseconds, u64, u64);

impl From<WaitsText> for Waits {
    fn from(text: WaitsText) -> Waits {
        Waits {
            bound: text.0.0,
            longer: text.1,
            all: text.2,
        }
    }
}

impl From<Waits> for WaitsText {
    fn from(waits: Waits) -> WaitsText {
        WaitsText(Nanoseconds(waits.bound), waits.longer, waits.all)
    }
}
