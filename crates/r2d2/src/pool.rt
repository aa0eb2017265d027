//! The pool: one lock round its book, workers that open connections, and what it lends.
ghost use Rattle.std.specs.Prelude.{◌≡◌, ℕ, ◌≤◌, ◌<◌, ◌+◌, ◌*◌, None, IfOk, IfErr, IfSome};
ghost use Rattle.std.specs.Prelude.{OnErr};
ghost use Rattle.std.specs.Arc.{arc_value};
ghost use Rattle.r2d2_core.specs.Reports.{IsSoundReport};

use self::closing::Closer;
use self::lent::AnyConnection;
use self::locking::SharedOf;
use crate::config::{Builder, Config};
use crate::event::{HandleEvent, NopEventHandler};
use crate::hooks::PoolHooks;
use crate::payload::PayloadOf;
use crate::{
    CustomizeConnection, Error, HandleError, ManageConnection, NopConnectionCustomizer,
    NopErrorHandler,
};
use pool_state::engine::{LedgerCounter, TakeCounter, TakeTotal, Uncounted};
pub use pool_state::{State, Status};
use r2d2_core::Report;
use std::alloc::AllocGlobal;
use std::fmt;
use std::marker::Model;
use std::rt::Clock;
use std::sync::{Arc, Wait};
use std::thread::Threads;
use std::time::{Duration, SystemTime};

mod building;
mod call_time;
mod checking;
mod closing;
mod counting;
mod evicting;
mod in_line;
mod lending;
mod lent;
mod locking;
mod observing;
mod returning;
mod waiting;
mod worker;

/// What a pool needs of the runtime that it is made with, and keeps: a clock, threads, waiting and
/// memory. The runtime that `main` is given is one; nobody has to implement it.
pub trait PoolRuntime: Clock + Threads + Wait + AllocGlobal + Copy + Send + Sync + 'static {}

impl<R: Clock + Threads + Wait + AllocGlobal + Copy + Send + Sync + 'static> PoolRuntime for R {}

/// A pool of connections. Its own threads open connections and close those that are expired; `get`
/// lends an idle one, the newest unless the setting `lending_order` says the oldest. It is made by
/// a `Builder`, and shared with another thread by `try_clone`.
///
/// `M` opens connections, `H` handles errors, `V` events, `Z` changes connections as they come and
/// go, and `R` is the runtime; a `PlainPool<M, R>` is one without handlers. The pool closes when
/// the last `Pool` over its state and the last lent connection are dropped.
pub type Pool<M, H, V, Z, R> = AnyPool<Uncounted, M, Config<H, V, Z>, R>;

/// A connection that a pool lent: it derefs to yours. It goes back to the pool when it is dropped,
/// and keeps the pool alive until then.
pub type PooledConnection<M, H, V, Z, R> = AnyConnection<Uncounted, M, Config<H, V, Z>, R>;

/// A pool that counts its takes: each take adds one to the share of a ledger that its caller
/// brings. It is made by `Builder::build_counted`, and `audit` says how many takes all shares
/// counted.
pub type CountedPool<M, H, V, Z, R, L> = AnyPool<LedgerCounter<L>, M, Config<H, V, Z>, R>;

/// A connection that a counted pool lent, otherwise as a `PooledConnection`.
pub type CountedConnection<M, H, V, Z, R, L> = AnyConnection<
    LedgerCounter<L>,
    M,
    Config<H, V, Z>,
    R,
>;

/// A pool whose handlers and customizer do nothing: what `Builder::new()` builds, unless one of
/// them is set.
pub type PlainPool<M, R> = Pool<M, NopErrorHandler, NopEventHandler, NopConnectionCustomizer, R>;

/// A pool of connections, whatever counts its takes.
#[derive(Drop)]
pub struct AnyPool<C: TakeTotal, M: ManageConnection, K: PoolHooks<M>, R: PoolRuntime> {
    closer: Arc<Closer<PayloadOf<M>, C, M, K, R>>,
}

// Contracts see a pool as its settings: what its lock holds, other threads change.
impl<C: TakeTotal, M: ManageConnection, K: PoolHooks<M>, R: PoolRuntime> Model
    for AnyPool<C, M, K, R> {
    ghost Value = { K };

    ghost view = { λ p. (arc_value (arc_value p.closer).shared).hooks };
}

impl<C: TakeTotal, M: ManageConnection, K: PoolHooks<M>, R: PoolRuntime> AnyPool<C, M, K, R> {
    ghost use Rattle.r2d2.specs.Failures.{IsOfMemory};
    ghost use Rattle.pool_state.specs.Status.{IsStatus};

    // What it shares with its workers and with what it lends.
    fn shared(&self) -> &SharedOf<C, M, K, R>
        ensures { result.now.hooks ≡ self.now }
    {
        &self.closer.shared
    }

    /// How many connections there are now, and how many of them are idle.
    pub fn state(&self) -> State
        ensures { result.idle_connections ≤ result.connections }
    {
        self.shared().state()
    }

    /// What the pool is doing now, in one look at it.
    pub fn status(&self) -> Status
        ensures sums { IsStatus result }
        ensures workers { result.workers ≡ None }
    {
        self.shared().status()
    }

    /// What the wall clock showed when the pool was made, from which its moments count; None if it
    /// could not be read.
    pub fn created_at(&self) -> Option<SystemTime> {
        self.shared().birth.created_at()
    }

    /// The time since the pool was made: the moment of a step that is made now, as a journal's
    /// records have it. Zero if the clock can't be read.
    pub fn uptime(&self) -> Duration {
        self.shared().moment()
    }

    /// What happened last, as far back as the setting `journal_room` reaches, what stood before
    /// that, and what there is now. If its `lost` is 0, that is all since the pool was made. The
    /// error is lack of memory; then nothing has changed.
    pub fn journal(&self) -> Result<Report, Error>
        ensures sound { IfOk result IsSoundReport }
        ensures refused { IfErr result IsOfMemory }
    {
        self.shared().report().map_err(|_| Error::memory())
    }

    /// Closes the pool now, though pools over it and lent connections are still there. What is idle
    /// is dropped, as by the last drop, and nothing is opened any more. Who waits in a `get`, or
    /// calls one later, gets `ErrorKind::Closed` at once; `try_get` finds none. Lent connections
    /// are closed as they come back, the workers end. A second close does nothing.
    pub fn close(&self) {
        drop(self.shared().close());
    }

    /// Closes the pool, and waits until nothing is lent any more, about as long as `timeout` at
    /// most. The error is the status past that, in which at least one connection is lent.
    pub fn drain(&self, timeout: Duration) -> Result<(), Status>
        ensures { IfErr result (λ status. IsStatus status × (0 < status.lent)) }
    {
        self.close();
        self.shared().wait_for_returns(timeout)
    }

    // As `Pool::evict`, with what its takes are counted with.
    fn evict_with(&self, tally: &mut C::Tally) -> Result<usize, Error>
    where
        C: TakeCounter,
        requires { 0 < C.parts tally.old }
        ensures parts { C.parts tally.new ≡ C.parts tally.old }
        ensures amount { IfOk result
            (λ n. C.amount tally.new ≡ C.amount tally.old + n * C.per_take) }
        ensures unchanged { OnErr result (C.amount tally.new ≡ C.amount tally.old) }
        ensures refused { IfErr result IsOfMemory }
    {
        self.shared().evict(tally).map_err(|_| Error::memory())
    }

    /// Another pool over the same connections, for another thread. The error is lack of memory.
    pub fn try_clone(&self) -> Result<AnyPool<C, M, K, R>, Error>
        ensures settings { IfOk result (λ pool. pool ≡ self.now) }
        ensures refused { IfErr result IsOfMemory }
    {
        let closer = Arc::try_clone(&self.closer).map_err(|_| Error::memory())?;
        Ok(AnyPool { closer })
    }
}

// What the settings say.
impl<
    C: TakeTotal,
    M: ManageConnection,
    H: HandleError<M::Error>,
    V: HandleEvent + 'static,
    Z: CustomizeConnection<M::Connection, M::Error>,
    R: PoolRuntime,
> AnyPool<C, M, Config<H, V, Z>, R> {
    /// How many connections there are at most.
    pub fn max_size(&self) -> u32
        ensures { result ≡ self.now.max_size }
    {
        self.shared().hooks.max_size
    }

    /// How many connections the pool tries to keep idle; None for `max_size`.
    pub fn min_idle(&self) -> Option<u32>
        ensures { result ≡ self.now.min_idle }
    {
        self.shared().hooks.min_idle
    }

    /// Whether a connection is checked before it is lent.
    pub fn test_on_check_out(&self) -> bool
        ensures { result ≡ self.now.test_on_check_out }
    {
        self.shared().hooks.test_on_check_out
    }

    /// The age at which a connection is closed; None for never.
    pub fn max_lifetime(&self) -> Option<Duration>
        ensures { result ≡ self.now.max_lifetime }
    {
        self.shared().hooks.max_lifetime
    }

    /// The idle time at which a connection is closed; None for never.
    pub fn idle_timeout(&self) -> Option<Duration>
        ensures { result ≡ self.now.idle_timeout }
    {
        self.shared().hooks.idle_timeout
    }

    /// How long `get` waits for a connection.
    pub fn connection_timeout(&self) -> Duration
        ensures { result ≡ self.now.connection_timeout }
    {
        self.shared().hooks.connection_timeout
    }
}

impl<
    M: ManageConnection,
    H: HandleError<M::Error>,
    V: HandleEvent + 'static,
    Z: CustomizeConnection<M::Connection, M::Error>,
    R: PoolRuntime,
> Pool<M, H, V, Z, R> {
    ghost use Rattle.r2d2.specs.Failures.{IsOfMemory, IsOfAGet};
    ghost use Rattle.r2d2.specs.Settings.{AreNew};

    /// A builder with the default of each setting. `Builder::new()` is the same, and shorter: here
    /// the pool's types have to be written out.
    pub fn builder() -> Builder<M>
        ensures { AreNew result }
    {
        Builder::new()
    }

    /// Lends an idle connection, and waits for one as long as the setting `connection_timeout`
    /// says. See `get_timeout`.
    pub fn get(&self) -> Result<PooledConnection<M, H, V, Z, R>, Error>
        ensures settings { IfOk result (λ lent. lent.settings ≡ self.now) }
        ensures refused { IfErr result IsOfAGet }
    {
        self.get_timeout(self.connection_timeout())
    }

    /// Lends an idle connection, the newest unless the setting `lending_order` says the oldest, and
    /// waits about as long as `timeout` if there is none.
    ///
    /// If the setting `test_on_check_out` is on, the connection is checked first; one that fails is
    /// closed, and another is looked for while there is time left: a call whose time is over makes
    /// no other check.
    ///
    /// The error is a timeout, with the text of the latest error of an opening or a check if there
    /// was one; or `ErrorKind::Closed`, at once, if the pool was closed; or `ErrorKind::QueueFull`,
    /// at once, if it would have to wait and as many wait as `max_waiting` allows; or lack of
    /// memory for a shared pointer, and then nothing has changed.
    pub fn get_timeout(&self, timeout: Duration) -> Result<PooledConnection<M, H, V, Z, R>, Error>
        ensures settings { IfOk result (λ lent. lent.settings ≡ self.now) }
        ensures refused { IfErr result IsOfAGet }
    {
        if self.is_in_line() {
            // (Wrapped anew, since an answer handed on as it is makes each answer go by memory.)
            return Ok(self.lend_in_line(timeout, &mut ())?);
        }
        match self.lend_within(Some(timeout), &mut ())? {
            Some(lent) => Ok(lent),
            None => unreachable!(),
        }
    }

    /// Lends an idle connection, as `get_timeout`; None if there is none. It does not wait for one,
    /// and orders none. Connections are checked as by `get_timeout`, at most as many as were idle
    /// when it began. The error is lack of memory for a shared pointer, and then nothing has
    /// changed.
    pub fn try_get(&self) -> Result<Option<PooledConnection<M, H, V, Z, R>>, Error>
        ensures settings { IfOk result (λ found. IfSome found (λ lent. lent.settings ≡ self.now)) }
        ensures refused { IfErr result IsOfMemory }
    {
        self.lend_within(None, &mut ())
    }

    /// Closes each connection that is idle now, and each that is lent now when it comes back, for
    /// example after a database has moved. What is opened from now on stays, and at least as many
    /// are ordered as are wanted. One that is being opened stays too, unless it has its id by now:
    /// then it is closed when it first comes back.
    ///
    /// It returns how many were idle: each is reported by its release event and to the customizer
    /// before the call returns. The journal notes a take and a return for each. The error is lack
    /// of memory for a list of `max_size` connections; then nothing has changed.
    pub fn evict(&self) -> Result<usize, Error>
        ensures refused { IfErr result IsOfMemory }
    {
        self.evict_with(&mut ())
    }
}

impl<M: ManageConnection, R: PoolRuntime> PlainPool<M, R> {
    ghost use Rattle.r2d2.specs.Settings.{AreDefaults};
    ghost use Rattle.r2d2.specs.Failures.{IsOfABuild};

    /// A pool with the default settings: see `Builder::build`.
    pub fn new(rt: R, manager: M) -> Result<Self, Error>
        ensures settings { IfOk result AreDefaults }
        ensures refused { IfErr result IsOfABuild }
    {
        Builder::new().build(rt, manager)
    }
}

impl<
    C: TakeTotal,
    M: ManageConnection + fmt::Debug,
    K: PoolHooks<M> + fmt::Debug,
    R: PoolRuntime,
> fmt::Debug for AnyPool<C, M, K, R> {
    fn fmt<W: fmt::Write>(&self, f: &mut fmt::Formatter<W>) -> fmt::Result {
        let shared = &self.closer.shared;
        f.debug_struct("Pool")
            .field("state", &shared.state())
            .field("config", &shared.hooks)
            .field("manager", &shared.manager)
            .finish()
    }
}
