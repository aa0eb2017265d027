//! What pools report to their handlers, and ask their customizer: for a crate that builds pools of
//! a kind of its own, as `r2d2_async` does.
ghost use Rattle.std.specs.Prelude.{◌≡◌};

use crate::config::Config;
use crate::event::{
    AcquireEvent, CheckinEvent, CheckoutEvent, HandleEvent, ReleaseEvent, ReleaseReason,
    TimeoutEvent,
};
use crate::{CustomizeConnection, HandleError, ManageConnection};
use std::time::Duration;

/// A connection that a pool closed.
#[derive(Drop)]
pub struct Closed<C> {
    /// Its id.
    pub id: u64,
    /// How long ago it was opened.
    pub age: Duration,
    /// Why it was closed.
    pub reason: ReleaseReason,
    /// The connection.
    pub connection: C,
}

/// What a handler of events gets.
pub enum Event {
    /// A connection was opened and has its id.
    Acquire(AcquireEvent),
    /// A connection left the pool.
    Release(ReleaseEvent),
    /// A connection was lent.
    Checkout(CheckoutEvent),
    /// A caller's time ran out.
    Timeout(TimeoutEvent),
    /// A connection came back.
    Checkin(CheckinEvent),
}

/// A handler of events that gets any of them.
pub trait Hear: HandleEvent {
    /// Calls the method for this event.
    fn hear(&self, event: Event) {
        match event {
            Event::Acquire(event) => self.handle_acquire(event),
            Event::Release(event) => self.handle_release(event),
            Event::Checkout(event) => self.handle_checkout(event),
            Event::Timeout(event) => self.handle_timeout(event),
            Event::Checkin(event) => self.handle_checkin(event),
        }
    }
}

impl<V: HandleEvent> Hear for V {}

/// The handlers of a pool of connections `C` whose errors are `E`: of errors, of events, and what
/// changes connections as they come and go.
pub trait Hooks<C: Drop, E>: Drop {
    /// The manager or the customizer failed.
    fn error(&self, error: E);

    /// The customizer is shown a connection that was opened.
    fn customize(&self, connection: &mut C) -> Result<(), E>;

    /// The customizer is given a connection that was closed.
    fn let_go(&self, connection: C);

    /// The handler of events gets one.
    fn tell(&self, event: Event);

    /// A connection was opened and has its id.
    fn acquire(&self, id: u64) {
        self.tell(Event::Acquire(AcquireEvent { id }));
    }

    /// A call that began at `start` is lent a connection at `lent_at`.
    fn check_out(&self, id: u64, start: Duration, lent_at: Duration) {
        self.tell(Event::Checkout(CheckoutEvent::of(id, start, lent_at)));
    }

    /// A caller timed out after so long.
    fn timeout(&self, timeout: Duration) {
        self.tell(Event::Timeout(TimeoutEvent { timeout }));
    }

    /// What was lent at `lent_at` came back at `now`.
    fn check_in(&self, id: u64, lent_at: Duration, now: Duration) {
        self.tell(Event::Checkin(CheckinEvent::of(id, lent_at, now)));
    }

    /// A connection is no longer the pool's: its event alone.
    fn gone(&self, id: u64, age: Duration, reason: ReleaseReason) {
        self.tell(Event::Release(ReleaseEvent::of(id, age, reason)));
    }

    /// A connection was closed: its event, then the customizer.
    fn release(&self, closed: Closed<C>) {
        self.gone(closed.id, closed.age, closed.reason);
        self.let_go(closed.connection);
    }
}

/// The handlers of a pool of threads over this manager: its `Config`.
pub trait PoolHooks<M: ManageConnection>: Hooks<M::Connection, M::Error> + Send + Sync + 'static {
    /// What changes connections as they come and go.
    type Customizer: CustomizeConnection<M::Connection, M::Error>;

    /// The customizer.
    fn customizer(&self) -> &Self::Customizer;
}

impl<
    C: Drop,
    E,
    H: HandleError<E> + 'static,
    V: HandleEvent,
    Z: CustomizeConnection<C, E> + 'static,
> Hooks<C, E> for Config<H, V, Z> {
    fn error(&self, error: E) {
        self.error_handler.handle_error(error);
    }

    fn customize(&self, connection: &mut C) -> Result<(), E> {
        self.connection_customizer.on_acquire(connection)
    }

    fn let_go(&self, connection: C) {
        self.connection_customizer.on_release(connection);
    }

    fn tell(&self, event: Event) {
        self.event_handler.hear(event);
    }
}

impl<
    M: ManageConnection,
    H: HandleError<M::Error>,
    V: HandleEvent + 'static,
    Z: CustomizeConnection<M::Connection, M::Error>,
> PoolHooks<M> for Config<H, V, Z> {
    type Customizer = Z;

    fn customizer(&self) -> &Z
        ensures { result.now ≡ self.now.connection_customizer }
    {
        &self.connection_customizer
    }
}
