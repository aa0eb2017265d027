// The settings that r2d2 has not, each off by default: what a pool does in an outage, how the
// lifetimes of its connections differ, and how many callers wait.
ghost use Rattle.std.specs.Prelude.{◌≡◌, ◌≤◌, ◌<◌, ◌-◌, ◌*◌, ◌||◌, min, is_some, option_map};
ghost use Rattle.std.specs.Prelude.{MatchOption, if◌then◌else◌};
ghost use Rattle.std.specs.Option.{ForSome};
ghost use Rattle.std.specs.Duration.{as_nanos, max_nanos};

use std::hash::{FoldHasher, Hasher};
use std::time::{Duration, SystemTime};

/// Into how many parts a jitter is divided.
const PARTS: u32 = 65_536;

/// What each means is said at the setting of `Builder` of the same name.
#[derive(Clone, Copy)]
pub struct Tuning {
    /// For how long a connection has to be idle before it is checked; None for not at all.
    pub test_if_idle_for: Option<Duration>,
    /// Whether a failed check closes the connections that were idle for longer.
    pub evict_idle_on_failed_check: bool,
    /// The longest delay between two tries of an opening; None for half of `connection_timeout`.
    pub max_retry_delay: Option<Duration>,
    /// By how much at most the lifetime of a connection is less than `max_lifetime`.
    pub lifetime_jitter: Option<Duration>,
    /// How many callers wait at most; None for as many as come.
    pub max_waiting: Option<u32>,
    /// Whether they wait in line, if `max_waiting` is set, and are served in order.
    pub in_line: bool,
}

impl Tuning {
    ghost use Rattle.std.specs.Prelude.{IsTrue, IsFalse, IsSome, IfSome};
    ghost use Rattle.std.specs.Option.{IsNone};
    ghost use Rattle.pool_state.specs.Checks.{is_check_due};
    ghost use Rattle.pool_state.specs.Tuning.{IsOff, room_in_line};

    /// Each is off.
    pub fn off() -> Tuning
        ensures { IsOff result }
    {
        Tuning {
            test_if_idle_for: None,
            evict_idle_on_failed_check: false,
            max_retry_delay: None,
            lifetime_jitter: None,
            max_waiting: None,
            in_line: false,
        }
    }

    /// How many callers the line has room for; none if callers do not wait in line.
    pub fn room_in_line(&self) -> u32
        ensures { result ≡ room_in_line self.now.max_waiting self.now.in_line }
    {
        match self.max_waiting {
            Some(callers) if self.in_line => callers,
            _ => 0,
        }
    }

    /// The connection timeout of the limits of a pool's book: so long that delays grow to
    /// `max_retry_delay`, or else the one that callers have.
    pub fn connection_timeout(&self, of_callers: Duration) -> Duration
        requires callers { 0 < as_nanos of_callers }
        requires retries { ForSome self.now.max_retry_delay (λ d. 0 < as_nanos d) }
        ensures given { MatchOption self.now.max_retry_delay (result ≡ of_callers)
            (λ longest. as_nanos result ≡ min (as_nanos longest * 2) max_nanos) }
        ensures positive { 0 < as_nanos result }
    {
        match self.max_retry_delay {
            Some(longest) => longest.saturating_mul(2),
            None => of_callers,
        }
    }

    /// Whether a setting asks since when a connection was idle before it is lent.
    pub fn asks_idle_times(&self) -> bool
        ensures { result
            ≡ (self.now.evict_idle_on_failed_check || is_some self.now.test_if_idle_for) }
    {
        self.evict_idle_on_failed_check || self.test_if_idle_for.is_some()
    }

    /// Whether what a caller takes may be closed for a check, of it or of another, given whether
    /// connections are checked.
    pub fn may_fail_check(&self, checks: bool) -> bool
        ensures { result ≡ (checks || self.now.evict_idle_on_failed_check) }
    {
        checks || self.evict_idle_on_failed_check
    }

    /// Since before which moment a connection has to be idle to be distrusted for a failed check
    /// that began at this one: before the check's beginning, or, if that is off, before all.
    pub fn distrusts_before(&self, began: Duration) -> Duration
        ensures { as_nanos result
            ≡ (if self.now.evict_idle_on_failed_check then as_nanos began else 0) }
    {
        if self.evict_idle_on_failed_check {
            began
        } else {
            Duration::ZERO
        }
    }

    /// Whether what is idle since this moment is idle for long enough to be checked. A clock that
    /// went back says nothing: then it is.
    pub fn is_check_due(&self, idle_since: Option<Duration>, now: Duration) -> bool
        ensures { result ≡ is_check_due self.now.test_if_idle_for (option_map as_nanos idle_since)
            (as_nanos now) }
    {
        let (Some(least), Some(since)) = (self.test_if_idle_for, idle_since) else {
            return true;
        };
        match now.checked_sub(since) {
            Some(idle) => idle.checked_sub(least).is_some(),
            None => true,
        }
    }

    /// Whether lifetimes differ.
    pub fn has_jitter(&self) -> bool
        ensures { result ≡ is_some self.now.lifetime_jitter }
    {
        self.lifetime_jitter.is_some()
    }

    /// Whether a connection has outlived its own lifetime, if lifetimes differ.
    pub fn is_outlived(
        &self,
        longest: Option<Duration>,
        created_at: Option<SystemTime>,
        id: u64,
        age: Duration,
    ) -> bool
        ensures off { IsNone self.now.lifetime_jitter → IsFalse result }
        ensures endless { IsNone longest → IsFalse result }
        ensures early { IsTrue result → IfSome longest (λ longest. IfSome self.now.lifetime_jitter
            (λ jitter. as_nanos longest - as_nanos jitter ≤ as_nanos age)) }
        ensures late { IsSome self.now.lifetime_jitter → IfSome longest
            (λ longest. as_nanos longest ≤ as_nanos age → IsTrue result) }
    {
        match (longest, self.lifetime_jitter) {
            (Some(longest), Some(jitter)) => {
                let lifetime = own_lifetime(longest, jitter, created_at, id);
                age.checked_sub(lifetime).is_some()
            }
            _ => false,
        }
    }
}

// The longest lifetime less a part of the jitter. Which part is drawn from the connection's id and
// from when the pool was made, so that pools that were made together differ too.
fn own_lifetime(
    longest: Duration,
    jitter: Duration,
    created_at: Option<SystemTime>,
    id: u64,
) -> Duration
    ensures at_most { as_nanos result ≤ as_nanos longest }
    ensures at_least { as_nanos longest - as_nanos jitter ≤ as_nanos result }
{
    let since_1970 = created_at.and_then(|at| at.duration_since(SystemTime::UNIX_EPOCH).ok());
    let mut hasher = FoldHasher::default();
    hasher.write_u32(since_1970.unwrap_or(Duration::ZERO).subsec_nanos());
    hasher.write_u64(id);
    let part = (hasher.finish() >> 48) as u32;
    longest.saturating_sub(jitter / PARTS * part)
}
