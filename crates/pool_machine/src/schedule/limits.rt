// The limits of a pool.
ghost use Rattle.std.specs.Prelude.{◌≡◌, ℕ, ◌+◌, ◌<◌, ◌≤◌, IfSome, IsSome, ◌↔◌};
ghost use Rattle.std.specs.Option.{ForSome};
ghost use Rattle.std.specs.Duration.{as_nanos};

use crate::machine::is_before;
use std::time::Duration;

/// Which of the idle connections is lent next.
#[derive(Clone, Copy, PartialEq, Eq, Debug)]
pub enum LendingOrder {
    /// The one that came to be idle last: few connections are kept in use, and the others can
    /// expire.
    NewestFirst,
    /// The one that has been idle for the longest: each connection is used in its turn.
    OldestFirst,
}

/// What limits are made of, each under its own name, so that no two of them change places unseen.
#[derive(Clone, Copy, Debug)]
pub struct LimitSettings {
    /// At most so many connections, idle, lent and pending together.
    pub max_size: u32,
    /// How many of them are wanted idle; None: all of them.
    pub min_idle: Option<u32>,
    /// The age at which a connection is closed; None: none.
    pub max_lifetime: Option<Duration>,
    /// The idle time after which a connection is closed; None: none.
    pub idle_timeout: Option<Duration>,
    /// Delays between two tries of one opening grow to half of it.
    pub connection_timeout: Duration,
    /// How often idle connections are looked through.
    pub reap_every: Duration,
    /// Which of the idle connections is lent next.
    pub order: LendingOrder,
}

/// The limits of a pool: settings whose sizes and lengths of time are positive, with `min_idle` at
/// most `max_size`.
#[derive(Clone, Copy, Debug)]
pub struct Limits {
    settings: LimitSettings,
    pub ghost has_size: { 0 < settings.max_size },
    pub ghost idle_within: { ForSome settings.min_idle (λ n. n ≤ settings.max_size) },
    pub ghost lives: { ForSome settings.max_lifetime (λ d. 0 < as_nanos d) },
    pub ghost idles: { ForSome settings.idle_timeout (λ d. 0 < as_nanos d) },
    pub ghost waits: { 0 < as_nanos settings.connection_timeout },
    pub ghost reaps: { 0 < as_nanos settings.reap_every },
}

impl LimitSettings {
    ghost use Rattle.pool_machine.specs.Limits.{seen_limits, AreLegal};

    /// The limits, if they are legal: None if `max_size` or a length of time that is given is zero,
    /// or if `min_idle` is above `max_size`.
    pub fn limits(self) -> Option<Limits>
        ensures legal { IsSome result ↔ AreLegal self }
        ensures given { IfSome result (λ limits. seen_limits limits ≡ self) }
    {
        if self.max_size == 0 || self.connection_timeout.is_zero() || self.reap_every.is_zero() {
            return None;
        }
        if let Some(least) = self.min_idle
            && self.max_size < least
        {
            return None;
        }
        if let Some(longest) = self.max_lifetime
            && longest.is_zero()
        {
            return None;
        }
        if let Some(longest) = self.idle_timeout
            && longest.is_zero()
        {
            return None;
        }
        Some(Limits { settings: self })
    }
}

impl Limits {
    ghost use Rattle.pool_machine.specs.Limits.{seen_limits, settings, with_order, wanted_of};
    ghost use Rattle.pool_machine.specs.Limits.{AreLegal, top_up, has_reached};

    /// The limits of these settings, if they are legal: `LimitSettings::limits` says when. The
    /// newest idle one is lent first; `with_order` changes that.
    pub fn of(
        max_size: u32,
        min_idle: Option<u32>,
        max_lifetime: Option<Duration>,
        idle_timeout: Option<Duration>,
        connection_timeout: Duration,
        reap_every: Duration,
    ) -> Option<Limits>
        ensures legal { IsSome result
            ↔ AreLegal (settings max_size min_idle max_lifetime idle_timeout connection_timeout
            reap_every) }
        ensures given { IfSome result
            (λ limits. seen_limits limits
            ≡ settings max_size min_idle max_lifetime idle_timeout connection_timeout reap_every) }
    {
        LimitSettings {
            max_size,
            min_idle,
            max_lifetime,
            idle_timeout,
            connection_timeout,
            reap_every,
            order: LendingOrder::NewestFirst,
        }
        .limits()
    }

    /// The same limits, with idle connections lent in the given order.
    pub fn with_order(mut self, order: LendingOrder) -> Limits
        ensures { seen_limits result ≡ with_order order (seen_limits self) }
    {
        self.settings.order = order;
        self
    }

    /// How many connections there may be, with those on order.
    pub fn max_size(&self) -> u32
        ensures { result ≡ (seen_limits self.now).max_size }
    {
        self.settings.max_size
    }

    /// How many connections are wanted idle; None: as many as there may be.
    pub fn min_idle(&self) -> Option<u32>
        ensures { result ≡ (seen_limits self.now).min_idle }
    {
        self.settings.min_idle
    }

    /// The age at which a connection is closed; None: none.
    pub fn max_lifetime(&self) -> Option<Duration>
        ensures { result ≡ (seen_limits self.now).max_lifetime }
    {
        self.settings.max_lifetime
    }

    /// The idle time after which a connection is closed; None: none.
    pub fn idle_timeout(&self) -> Option<Duration>
        ensures { result ≡ (seen_limits self.now).idle_timeout }
    {
        self.settings.idle_timeout
    }

    /// How long a caller waits for a connection; delays grow to half of it.
    pub fn connection_timeout(&self) -> Duration
        ensures { result ≡ (seen_limits self.now).connection_timeout }
    {
        self.settings.connection_timeout
    }

    /// How often idle connections are looked through. Among the settings of a pool of `r2d2` it is
    /// `reaper_rate`.
    pub fn reap_every(&self) -> Duration
        ensures { result ≡ (seen_limits self.now).reap_every }
    {
        self.settings.reap_every
    }

    /// Which of the idle connections is lent next.
    pub fn order(&self) -> LendingOrder
        ensures { result ≡ (seen_limits self.now).order }
    {
        self.settings.order
    }

    /// How many connections are wanted idle: `min_idle`, else `max_size`.
    pub fn wanted(&self) -> u32
        ensures value { result ≡ wanted_of (seen_limits self.now) }
        ensures within { result ≤ (seen_limits self.now).max_size }
    {
        self.settings.min_idle.unwrap_or(self.settings.max_size)
    }

    /// Whether a connection of this age is to be closed: `max_lifetime` is set, and reached.
    pub fn is_too_old(&self, age: Duration) -> bool
        ensures { result ≡ has_reached (seen_limits self.now).max_lifetime (as_nanos age) }
    {
        Limits::is_reached(self.settings.max_lifetime, age)
    }

    /// Whether a connection that is idle for so long is to be closed: `idle_timeout` is set, and
    /// reached.
    pub fn is_idle_too_long(&self, idle_time: Duration) -> bool
        ensures { result ≡ has_reached (seen_limits self.now).idle_timeout (as_nanos idle_time) }
    {
        Limits::is_reached(self.settings.idle_timeout, idle_time)
    }

    /// How many openings a step orders after which so many are idle, connected and pending: what is
    /// wanted beside the idle ones, as far as there is room. A closed pool orders none.
    #[inline(always)]
    pub fn top_up(&self, closed: bool, idle: usize, connections: usize, pending: u32) -> u32
        ensures { result ≡ top_up (seen_limits self.now) closed idle connections pending }
    {
        if closed {
            return 0;
        }
        let max_size = self.settings.max_size;
        let room = (max_size as usize)
            .saturating_sub(connections)
            .saturating_sub(pending as usize);
        let missing = (self.wanted() as usize).saturating_sub(idle);
        missing.min(room) as u32
    }

    // The limit is set, and the length of time has reached it.
    fn is_reached(limit: Option<Duration>, length: Duration) -> bool
        ensures { result ≡ has_reached limit (as_nanos length) }
    {
        match limit {
            Some(limit) => !is_before(length, limit),
            None => false,
        }
    }
}
