// Histograms, and what is read of them.
ghost use Rattle.std.specs.Prelude.{◌≡◌, ℕ, ◌+◌, ◌-◌, ◌<◌, ◌^◌, min, slice_index};
ghost use Rattle.std.specs.Prelude.{slice_index_or};
ghost use Rattle.std.specs.Duration.{as_nanos};
ghost use Rattle.std.specs.List.Sorted.{IsNonDecreasing, IsNonDecreasingBy};
ghost use Rattle.pool_metrics.specs.Above.{IsPlaceFor};
ghost use Rattle.pool_metrics.specs.Bounds.{bounds_of};
ghost use Rattle.pool_metrics.specs.declared.histogram.Bucket.{Bucket};
ghost use Rattle.pool_metrics.specs.declared.histogram.UpTo.TheVariants.{Nanos, Infinity};
ghost use Rattle.pool_metrics.specs.Counted.{counted_up_to};

use crate::buckets::{BOUNDS, BUCKETS, Scale, bucket_of, nanos_of};
use crate::text::Seconds;
use pool_reports::Waits;
use std::sync::atomic::{AtomicU64, Ordering};
use std::time::Duration;
use std::{array, fmt};

/// Counts lengths, each in its bucket.
#[derive(Drop)]
pub(crate) struct Histogram {
    scale: Scale,
    counts: [AtomicU64; BUCKETS],
    nanos: AtomicU64,
}

impl Histogram {
    pub(crate) fn new(scale: Scale) -> Histogram
        ensures { result.scale ≡ scale }
    {
        Histogram {
            scale,
            counts: array::from_fn(|_| AtomicU64::new(0)),
            nanos: AtomicU64::new(0),
        }
    }

    /// Counts a length.
    pub(crate) fn observe(&self, length: Duration) {
        let nanos = nanos_of(length);
        let bucket = bucket_of(self.scale.bounds(), nanos);
        self.nanos.fetch_add(nanos, Ordering::SeqCst);
        self.counts[bucket].fetch_add(1, Ordering::SeqCst);
    }

    /// What was counted so far. Each count is read once; all that is said of them comes from that
    /// one reading.
    pub(crate) fn read(&self) -> Distribution
        ensures { result.scale ≡ self.now.scale }
    {
        let mut counts = [0; BUCKETS];
        for bucket in 0..BUCKETS {
            counts[bucket] = self.counts[bucket].load(Ordering::SeqCst);
        }
        Distribution::of(self.scale, counts, self.nanos.load(Ordering::SeqCst))
    }
}

/// What a histogram counted: for each bound, how many lengths were not above it.
#[derive(Clone, Copy, Debug)]
pub struct Distribution {
    scale: Scale,
    up_to: [u64; BUCKETS],
    nanos: u64,
    ghost never_falls: { IsNonDecreasing up_to },
}

/// The lengths that one bucket counts, with those of all buckets before it.
#[derive(Clone, Copy, PartialEq, Eq, Debug)]
pub struct Bucket {
    pub up_to: UpTo,
    pub count: u64,
}

/// The end of a bucket.
#[derive(Clone, Copy, PartialEq, Eq, Debug)]
pub enum UpTo {
    /// So many nanoseconds, which are in it.
    Nanos(u64),
    /// It has none: each length is in it.
    Infinity,
}

impl Distribution {
    /// Of these counts, one for each bucket of the scale, and all lengths added up, in nanoseconds.
    pub fn of(scale: Scale, counts: [u64; BUCKETS], nanos: u64) -> Distribution
        ensures scale { result.scale ≡ scale }
        ensures up_to { (i : ℕ) → i < 14 → slice_index result.up_to i ≡ counted_up_to counts i }
        ensures nanos { result.nanos ≡ nanos }
    {
        Distribution {
            scale,
            up_to: running_sums(counts),
            nanos,
        }
    }

    /// How many lengths were counted.
    pub fn count(&self) -> u64
        ensures { result ≡ slice_index self.now.up_to 13 }
    {
        self.up_to[BOUNDS]
    }

    /// All buckets, the shortest lengths first. The last one counts all.
    pub fn buckets(&self) -> [Bucket; BUCKETS]
        ensures counts { (i : ℕ) (d : Bucket) → i < 14
            → (slice_index_or result i d).count ≡ slice_index self.now.up_to i }
        ensures bounds { (i : ℕ) (d : Bucket) → i < 13
            → (slice_index_or result i d).up_to ≡ Nanos (slice_index (bounds_of self.now.scale) i) }
        ensures last { (d : Bucket) → (slice_index_or result 13 d).up_to ≡ Infinity }
        ensures never_falls { IsNonDecreasingBy (λ bucket. bucket.count) result }
    {
        let mut buckets = [Bucket {
            up_to: UpTo::Infinity,
            count: self.count(),
        }; BUCKETS];
        let bounds = self.scale.bounds();
        for i in 0..BOUNDS {
            buckets[i] = Bucket {
                up_to: UpTo::Nanos(bounds[i]),
                count: self.up_to[i],
            };
        }
        buckets
    }

    /// How many were longer than the least bound that is not below `least`, or than the last one
    /// where all are.
    pub(crate) fn above(&self, least: Duration) -> Waits
        ensures place { let bounds = bounds_of self.now.scale in
            (place : ℕ) × IsPlaceFor (min (as_nanos least) (2 ^ 64 - 1)) bounds place
            × (as_nanos result.bound ≡ slice_index bounds place)
            × (result.longer ≡ slice_index self.now.up_to 13 - slice_index self.now.up_to place) }
        ensures all { result.all ≡ slice_index self.now.up_to 13 }
    {
        let bounds = self.scale.bounds();
        let place = bucket_of(bounds, nanos_of(least)).min(BOUNDS - 1);
        Waits {
            bound: Duration::from_nanos(bounds[place]),
            longer: self.count().saturating_sub(self.up_to[place]),
            all: self.count(),
        }
    }

    /// All lengths added up. Past 584 years it begins anew.
    pub fn sum(&self) -> Duration
        ensures { as_nanos result ≡ self.now.nanos }
    {
        Duration::from_nanos(self.nanos)
    }

    /// The same in nanoseconds.
    pub(crate) fn nanos(&self) -> u64
        ensures { result ≡ self.now.nanos }
    {
        self.nanos
    }
}

// At each place the sum of what stands up to there.
fn running_sums(counts: [u64; BUCKETS]) -> [u64; BUCKETS]
    ensures sums { (i : ℕ) → i < 14 → slice_index result i ≡ counted_up_to counts i }
    ensures rising { IsNonDecreasing result }
{
    let mut sums = [0; BUCKETS];
    let mut sum = 0u64;
    for i in 0..BUCKETS {
        sum = sum.saturating_add(counts[i]);
        sums[i] = sum;
    }
    sums
}

impl fmt::Display for UpTo {
    fn fmt<W: fmt::Write>(&self, f: &mut fmt::Formatter<W>) -> fmt::Result {
        match *self {
            UpTo::Nanos(nanos) => fmt::Display::fmt(&Seconds(nanos), f),
            UpTo::Infinity => f.write_str("+Inf"),
        }
    }
}
