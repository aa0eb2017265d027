// Moments are lengths of time since a pool was made.
ghost use Rattle.std.specs.Prelude.{◌≤◌, ◌-◌, IsTrue, ◌↔◌};
ghost use Rattle.std.specs.Duration.{as_nanos};

use std::time::Duration;

/// Whether so many nanoseconds have passed from one moment to another.
pub fn has_passed(begun: Duration, now: Duration, length: u128) -> bool
    ensures { IsTrue result ↔ (length ≤ as_nanos now - as_nanos begun) }
{
    now.saturating_sub(begun).as_nanos() >= length
}
