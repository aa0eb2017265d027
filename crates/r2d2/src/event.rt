//! What a pool reports of its connections.
ghost use Rattle.std.specs.Prelude.{◌≡◌, ◌-◌};
ghost use Rattle.std.specs.Duration.{as_nanos};

pub use pool_state::ReleaseReason;
use std::fmt;
use std::marker::Model;
use std::time::Duration;

/// Handles each event, on the thread where it happened, while no lock of the pool is held. Each
/// method does nothing unless you write it. A handler that has a parameter, as the runtime, has to
/// have all five.
pub trait HandleEvent: fmt::Debug + Sync + Send + Drop {
    /// A connection was opened and has its id.
    fn handle_acquire(&self, _event: AcquireEvent) {}

    /// A connection leaves the pool: to be closed, or detached.
    fn handle_release(&self, _event: ReleaseEvent) {}

    /// A connection was lent.
    fn handle_checkout(&self, _event: CheckoutEvent) {}

    /// A caller who waited for a connection timed out.
    fn handle_timeout(&self, _event: TimeoutEvent) {}

    /// A lent connection came back.
    fn handle_checkin(&self, _event: CheckinEvent) {}
}

/// Ignores each event. A builder's event handler until another is set.
#[derive(Clone, Copy, Debug)]
pub struct NopEventHandler;

impl HandleEvent for NopEventHandler {}

/// A connection was opened and has its id.
#[derive(Debug, Drop)]
pub struct AcquireEvent {
    pub(crate) id: u64,
}

impl Model for AcquireEvent {
    ghost use Rattle.r2d2.specs.Events.{Acquired};

    ghost Value = { Acquired };

    ghost view = { λ e. record { id = e.id } };
}

impl AcquireEvent {
    /// The event of a connection that has this id.
    pub fn of(id: u64) -> AcquireEvent
        ensures { result.id ≡ id }
    {
        AcquireEvent { id }
    }

    /// The connection's id, which no other connection of its pool has.
    pub fn connection_id(&self) -> u64
        ensures { result ≡ self.now.id }
    {
        self.id
    }
}

/// A connection leaves the pool: to be closed, or detached.
#[derive(Debug, Drop)]
pub struct ReleaseEvent {
    id: u64,
    age: Duration,
    reason: ReleaseReason,
}

impl Model for ReleaseEvent {
    ghost use Rattle.r2d2.specs.Events.{Released};

    ghost Value = { Released };

    ghost view = { λ e. record { id = e.id; age = e.age; reason = e.reason } };
}

impl ReleaseEvent {
    /// The event of a connection that leaves at this age, for this reason.
    pub fn of(id: u64, age: Duration, reason: ReleaseReason) -> ReleaseEvent
        ensures id { result.id ≡ id }
        ensures age { result.age ≡ age }
        ensures reason { result.reason ≡ reason }
    {
        ReleaseEvent { id, age, reason }
    }

    /// The connection's id.
    pub fn connection_id(&self) -> u64
        ensures { result ≡ self.now.id }
    {
        self.id
    }

    /// How long ago the connection joined the pool.
    pub fn age(&self) -> Duration
        ensures { result ≡ self.now.age }
    {
        self.age
    }

    /// Why it leaves the pool. Of several reasons it is the first that holds: that it is broken,
    /// that it was evicted, that the pool is closed.
    pub fn reason(&self) -> ReleaseReason
        ensures { result ≡ self.now.reason }
    {
        self.reason
    }
}

/// A connection was lent.
#[derive(Debug, Drop)]
pub struct CheckoutEvent {
    id: u64,
    duration: Duration,
}

impl Model for CheckoutEvent {
    ghost use Rattle.r2d2.specs.Events.{Timed};

    ghost Value = { Timed };

    ghost view = { λ e. record { id = e.id; duration = e.duration } };
}

impl CheckoutEvent {
    /// The event of a connection that was lent at `lent_at` to a call that began at `start`.
    pub fn of(id: u64, start: Duration, lent_at: Duration) -> CheckoutEvent
        ensures id { result.id ≡ id }
        ensures duration { as_nanos result.duration ≡ as_nanos lent_at - as_nanos start }
    {
        CheckoutEvent {
            id,
            duration: lent_at.saturating_sub(start),
        }
    }

    /// The connection's id.
    pub fn connection_id(&self) -> u64
        ensures { result ≡ self.now.id }
    {
        self.id
    }

    /// How long the caller waited for it.
    pub fn duration(&self) -> Duration
        ensures { result ≡ self.now.duration }
    {
        self.duration
    }
}

/// A caller timed out.
#[derive(Debug, Drop)]
pub struct TimeoutEvent {
    pub(crate) timeout: Duration,
}

impl Model for TimeoutEvent {
    ghost use Rattle.r2d2.specs.Events.{InVain};

    ghost Value = { InVain };

    ghost view = { λ e. record { timeout = e.timeout } };
}

impl TimeoutEvent {
    /// The event of a caller who would wait for so long.
    pub fn of(timeout: Duration) -> TimeoutEvent
        ensures { result.timeout ≡ timeout }
    {
        TimeoutEvent { timeout }
    }

    /// How long the caller would wait.
    pub fn timeout(&self) -> Duration
        ensures { result ≡ self.now.timeout }
    {
        self.timeout
    }
}

/// A lent connection came back.
#[derive(Debug, Drop)]
pub struct CheckinEvent {
    id: u64,
    duration: Duration,
}

impl Model for CheckinEvent {
    ghost use Rattle.r2d2.specs.Events.{Timed};

    ghost Value = { Timed };

    ghost view = { λ e. record { id = e.id; duration = e.duration } };
}

impl CheckinEvent {
    /// The event of a connection that was lent at `lent_at` and came back at `now`.
    pub fn of(id: u64, lent_at: Duration, now: Duration) -> CheckinEvent
        ensures id { result.id ≡ id }
        ensures duration { as_nanos result.duration ≡ as_nanos now - as_nanos lent_at }
    {
        CheckinEvent {
            id,
            duration: now.saturating_sub(lent_at),
        }
    }

    /// The connection's id.
    pub fn connection_id(&self) -> u64
        ensures { result ≡ self.now.id }
    {
        self.id
    }

    /// How long it was lent.
    pub fn duration(&self) -> Duration
        ensures { result ≡ self.now.duration }
    {
        self.duration
    }
}
