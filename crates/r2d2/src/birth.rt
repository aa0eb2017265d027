//! When a pool was made: its moments count from then.
ghost use Rattle.std.specs.Prelude.{◌≡◌};
ghost use Rattle.std.specs.Duration.{as_nanos};

use std::rt::Clock;
use std::time::{Duration, Instant, SystemTime};

/// When a pool was made, by both clocks.
#[derive(Drop)]
pub struct Birth {
    // None where the clock could not be read.
    made: Option<Instant>,
    created_at: Option<SystemTime>,
}

impl Birth {
    ghost use Rattle.std.specs.Option.{IsNone};

    /// Of a pool that is made now.
    pub fn now<R: Clock>(rt: &R) -> Birth {
        Birth {
            made: Instant::now(rt).ok(),
            created_at: SystemTime::now(rt).ok(),
        }
    }

    /// The time since then; zero if the clock can't be read.
    #[inline(always)]
    pub fn moment<R: Clock>(&self, rt: &R) -> Duration
        ensures { IsNone self.now.made → as_nanos result ≡ 0 }
    {
        let Some(made) = &self.made else {
            return Duration::ZERO;
        };
        // (What `elapsed` does; where that is not inlined, it answers through memory.)
        match Instant::now(rt) {
            Ok(now) => now.duration_since(*made),
            Err(_) => Duration::ZERO,
        }
    }

    /// What the wall clock showed then; None if it could not be read.
    pub fn created_at(&self) -> Option<SystemTime>
        ensures { result ≡ self.now.created_at }
    {
        self.created_at
    }
}
