// What left a pool, and why.
ghost use Rattle.std.specs.Prelude.{◌≡◌, ◌-◌, ◌^◌, min};

use r2d2::event::ReleaseReason;
use std::sync::atomic::{AtomicU64, Ordering};

/// How many connections left a pool for each reason.
#[derive(Clone, Copy, PartialEq, Eq, Debug)]
pub struct Closings {
    /// They came back broken.
    pub broken: u64,
    /// Their check failed.
    pub check_failed: u64,
    /// They were idle for longer than one whose check failed.
    pub distrusted: u64,
    /// They reached their lifetime.
    pub lifetime: u64,
    /// They were idle for too long.
    pub idle: u64,
    /// They were there at an eviction.
    pub evicted: u64,
    /// They were not closed: they are their callers' now.
    pub detached: u64,
    /// They came back after the pool was closed.
    pub pool_closed: u64,
}

impl Closings {
    ghost use Rattle.pool_metrics.specs.Closings.{count_for, total_of};

    /// How many left for this reason.
    pub fn count(&self, reason: ReleaseReason) -> u64
        ensures { result ≡ count_for reason self.now }
    {
        match reason {
            ReleaseReason::Broken => self.broken,
            ReleaseReason::CheckFailed => self.check_failed,
            ReleaseReason::Distrusted => self.distrusted,
            ReleaseReason::Lifetime => self.lifetime,
            ReleaseReason::Idle => self.idle,
            ReleaseReason::Evicted => self.evicted,
            ReleaseReason::Detached => self.detached,
            ReleaseReason::PoolClosed => self.pool_closed,
        }
    }

    /// How many left in all; what no `u64` holds counts as the greatest that one does.
    pub fn total(&self) -> u64
        ensures { result ≡ min (total_of self.now) (2 ^ 64 - 1) }
    {
        self.broken
            .saturating_add(self.check_failed)
            .saturating_add(self.distrusted)
            .saturating_add(self.lifetime)
            .saturating_add(self.idle)
            .saturating_add(self.evicted)
            .saturating_add(self.detached)
            .saturating_add(self.pool_closed)
    }
}

/// Counts what leaves a pool, by the reason.
#[derive(Drop)]
pub(crate) struct Leaving {
    broken: AtomicU64,
    check_failed: AtomicU64,
    distrusted: AtomicU64,
    lifetime: AtomicU64,
    idle: AtomicU64,
    evicted: AtomicU64,
    detached: AtomicU64,
    pool_closed: AtomicU64,
}

impl Leaving {
    pub(crate) fn new() -> Leaving {
        Leaving {
            broken: AtomicU64::new(0),
            check_failed: AtomicU64::new(0),
            distrusted: AtomicU64::new(0),
            lifetime: AtomicU64::new(0),
            idle: AtomicU64::new(0),
            evicted: AtomicU64::new(0),
            detached: AtomicU64::new(0),
            pool_closed: AtomicU64::new(0),
        }
    }

    /// Another one left for this reason.
    pub(crate) fn add(&self, reason: ReleaseReason) {
        let count = match reason {
            ReleaseReason::Broken => &self.broken,
            ReleaseReason::CheckFailed => &self.check_failed,
            ReleaseReason::Distrusted => &self.distrusted,
            ReleaseReason::Lifetime => &self.lifetime,
            ReleaseReason::Idle => &self.idle,
            ReleaseReason::Evicted => &self.evicted,
            ReleaseReason::Detached => &self.detached,
            ReleaseReason::PoolClosed => &self.pool_closed,
        };
        count.fetch_add(1, Ordering::SeqCst);
    }

    /// What was counted so far. Each count is read once.
    pub(crate) fn read(&self) -> Closings {
        Closings {
            broken: self.broken.load(Ordering::SeqCst),
            check_failed: self.check_failed.load(Ordering::SeqCst),
            distrusted: self.distrusted.load(Ordering::SeqCst),
            lifetime: self.lifetime.load(Ordering::SeqCst),
            idle: self.idle.load(Ordering::SeqCst),
            evicted: self.evicted.load(Ordering::SeqCst),
            detached: self.detached.load(Ordering::SeqCst),
            pool_closed: self.pool_closed.load(Ordering::SeqCst),
        }
    }
}
