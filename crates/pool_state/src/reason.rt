// Why a connection leaves its pool.
ghost use Rattle.std.specs.Prelude.{◌≡◌};
ghost use Rattle.std.specs.Duration.{as_nanos};
ghost use Rattle.pool_machine.specs.Limits.{seen_limits, has_reached};
ghost use Rattle.pool_state.specs.Reasons.{reason_of_reap};

use r2d2_core::Limits;
use std::time::Duration;

/// Why a connection leaves its pool.
#[derive(Clone, Copy, PartialEq, Eq, Debug)]
pub enum ReleaseReason {
    /// It came back broken, as `ManageConnection::has_broken` says.
    Broken,
    /// Its check failed.
    CheckFailed,
    /// It was idle as a check began that failed: see `Builder::evict_idle_on_failed_check`.
    Distrusted,
    /// It reached its lifetime.
    Lifetime,
    /// It was idle for `idle_timeout`.
    Idle,
    /// It was there when `Pool::evict` was called.
    Evicted,
    /// It is its caller's now: see `PooledConnection::detach`.
    Detached,
    /// It came back after the pool was closed.
    PoolClosed,
}

/// Why a reap closed a connection of this age.
pub fn reason_of_reap(limits: &Limits, age: Duration) -> ReleaseReason
    ensures { result
        ≡ reason_of_reap (has_reached (seen_limits limits.now).max_lifetime (as_nanos age)) }
{
    if limits.is_too_old(age) {
        ReleaseReason::Lifetime
    } else {
        ReleaseReason::Idle
    }
}
