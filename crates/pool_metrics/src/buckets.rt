// The buckets of a histogram. They stay as they are from its making, so that the histograms of
// several services that have the same ones can be added up.
ghost use Rattle.std.specs.Prelude.{◌≡◌, ℕ, ◌<◌, ◌≤◌, ◌-◌, ◌↔◌, ◌^◌, length, min, slice_index};
ghost use Rattle.std.specs.Prelude.{IsTrue, IsSome, IfSome};
ghost use Rattle.std.specs.List.Sorted.{IsStrictlyIncreasing};
ghost use Rattle.std.specs.Duration.{as_nanos};

use std::time::Duration;

/// How many bounds a scale has.
pub const BOUNDS: usize = 13;

/// How many buckets a histogram has: one for each bound, and one for what is above the last.
pub const BUCKETS: usize = 14;

const MS: u64 = 1_000_000;

const S: u64 = 1_000_000_000;

// In nanoseconds.
static SHORT: [u64; BOUNDS] = [
    MS,
    5 * MS,
    10 * MS,
    25 * MS,
    50 * MS,
    100 * MS,
    250 * MS,
    500 * MS,
    S,
    2500 * MS,
    5 * S,
    10 * S,
    30 * S,
];

static LONG: [u64; BOUNDS] = [
    S,
    10 * S,
    30 * S,
    60 * S,
    300 * S,
    600 * S,
    1800 * S,
    3600 * S,
    7200 * S,
    21_600 * S,
    43_200 * S,
    86_400 * S,
    604_800 * S,
];

/// Bounds that a service chose, in nanoseconds: those of `Scale::of`.
#[derive(Clone, Copy, PartialEq, Eq, Debug)]
pub struct OwnBounds {
    nanos: [u64; BOUNDS],
    ghost rising: { IsStrictlyIncreasing nanos },
}

/// Which bounds a histogram has.
#[derive(Clone, Copy, PartialEq, Eq, Debug)]
pub enum Scale {
    /// For waiting, use and opening: 1, 5, 10, 25, 50, 100, 250 and 500 ms, 1, 2.5, 5, 10 and 30 s.
    Short,
    /// For ages: 1, 10 and 30 s, 1, 5, 10 and 30 min, 1, 2, 6 and 12 h, 1 and 7 days.
    Long,
    /// Others.
    Own(OwnBounds),
}

impl Scale {
    ghost use Rattle.pool_metrics.specs.Bounds.{bounds_of};

    /// The one with these bounds in nanoseconds; None unless each is above the one before it.
    pub fn of(nanos: [u64; BOUNDS]) -> Option<Scale>
        ensures rising { IsSome result ↔ IsStrictlyIncreasing nanos }
        ensures values { IfSome result (λ scale. bounds_of scale ≡ nanos) }
    {
        if rise(&nanos) {
            Some(Scale::Own(OwnBounds { nanos }))
        } else {
            None
        }
    }

    /// The bounds in nanoseconds, the least first. A bound is the longest of its bucket.
    pub fn bounds(&self) -> &[u64; BOUNDS]
        ensures values { result.now ≡ bounds_of self.now }
        ensures rising { IsStrictlyIncreasing result.now }
    {
        match self {
            Scale::Short => &SHORT,
            Scale::Long => &LONG,
            Scale::Own(own) => &own.nanos,
        }
    }
}

// Whether each bound is above the one before it.
fn rise(bounds: &[u64; BOUNDS]) -> bool
    ensures { IsTrue result ↔ IsStrictlyIncreasing bounds.now }
{
    for i in 1..BOUNDS {
        if bounds[i] <= bounds[i - 1] {
            return false;
        }
    }
    true
}

/// Which bounds the histograms of a pool's metrics have. Those of `default` are short, and long for
/// ages.
#[derive(Clone, Copy, PartialEq, Eq, Debug)]
pub struct Scales {
    /// For waits: those that timed out have the same, so that both can be added up.
    pub waits: Scale,
    /// For how long connections are lent.
    pub uses: Scale,
    /// For how long openings take.
    pub openings: Scale,
    /// For how old connections are when they leave the pool.
    pub ages: Scale,
}

impl Default for Scales {
    ghost use Rattle.pool_metrics.specs.Bounds.{usual};

    ghost is_default = { λ scales. scales ≡ usual };

    fn default() -> Scales {
        Scales {
            waits: Scale::Short,
            uses: Scale::Short,
            openings: Scale::Short,
            ages: Scale::Long,
        }
    }
}

/// Which bucket a length of so many nanoseconds falls in: the first whose bound is not below it, or
/// else the one after the last bound.
pub fn bucket_of(bounds: &[u64], nanos: u64) -> usize
    ensures within { result ≤ length bounds.now }
    ensures above { (i : ℕ) → i < result → slice_index bounds.now i < nanos }
    ensures first { result < length bounds.now → nanos ≤ slice_index bounds.now result }
{
    bounds
        .iter()
        .position(|bound| nanos <= *bound)
        .unwrap_or(bounds.len())
}

/// A length in nanoseconds, of at most 584 years.
pub(crate) fn nanos_of(length: Duration) -> u64
    ensures { result ≡ min (as_nanos length) (2 ^ 64 - 1) }
{
    u64::try_from(length.as_nanos()).unwrap_or(u64::MAX)
}
