// The pool's calls.
ghost use Rattle.std.specs.Prelude.{◌≡◌, ◌≤◌, None, Some, IsSome, IfSome, IfOk, IfErr};
ghost use Rattle.r2d2_core.specs.Reports.{IsSoundReport};
ghost use Rattle.r2d2.specs.Failures.{IsOfMemory, IsOfAGet};
ghost use Rattle.pool_state.specs.Status.{IsStatus};

use crate::drain::Drain;
use crate::get::Get;
use crate::hooks::Hooks;
use crate::lent::PooledConnection;
use crate::shared::{CloserOf, PayloadOf, SharedOf, Taken};
use crate::worker::Worker;
use crate::{AsyncRuntime, ManageConnection, Timer};
use futures::spin::lock;
use pool_state::has_room;
use r2d2::event::ReleaseReason;
use r2d2::{Error, Observe, State, Status};
use r2d2_core::{Released, Report};
use std::marker::Model;
use std::sync::Arc;
use std::time::{Duration, SystemTime};

/// A pool of connections for tasks. `build` makes one; a task of its own gets a pool over the same
/// connections by `try_clone`.
///
/// `M` opens connections, `T` wakes tasks when time has passed, `K` handles errors and events and
/// changes connections as they come and go (a `Handlers`), and `R` is the runtime. The pool closes
/// when the last `Pool` over its state, the last pending `Get` and the last lent connection are
/// dropped.
#[derive(Drop)]
pub struct Pool<M: ManageConnection, T: Timer, K: Hooks<M>, R: AsyncRuntime> {
    pub(crate) closer: Arc<CloserOf<M, T, K, R>>,
}

// Contracts see a pool as its settings: what its lock holds, other tasks change.
impl<M: ManageConnection, T: Timer, K: Hooks<M>, R: AsyncRuntime> Model for Pool<M, T, K, R> {
    ghost use Rattle.std.specs.Arc.{arc_value};
    ghost use Rattle.r2d2.specs.Settings.{BareSettings};

    ghost Value = { BareSettings };

    ghost view = { λ p. (arc_value (arc_value p.closer).shared).settings };
}

impl<M: ManageConnection, T: Timer, K: Hooks<M>, R: AsyncRuntime> Pool<M, T, K, R> {
    ghost use Rattle.r2d2_async.specs.Sources.{settings_of};

    // What it shares with its workers and with what it lends.
    fn shared(&self) -> &SharedOf<M, T, K, R>
        ensures { result.now.settings ≡ self.now }
    {
        &self.closer.shared
    }

    /// Lends an idle connection, and waits for one as long as the setting `connection_timeout`
    /// says. See `get_timeout`.
    #[inline(always)]
    pub fn get(&self) -> Result<Get<M, T, K, R>, Error>
        ensures settings { IfOk result (λ get. settings_of get.closer ≡ Some self.now) }
        ensures fresh { IfOk result (λ get. get.checking ≡ None) }
        ensures sleep { IfOk result (λ get. get.sleep ≡ None) }
        ensures refused { IfErr result IsOfMemory }
    {
        self.get_timeout(self.connection_timeout())
    }

    /// Lends an idle connection, the newest unless the setting `lending_order` says the oldest; the
    /// future waits in line for one, and gives up once `timeout` has passed since its first poll.
    /// It asks the timer for a sleep only if it has to wait.
    ///
    /// If the setting `test_on_check_out` is on, the connection is checked first; one that fails is
    /// closed, and the caller looks for another from the same place in line. A check that outlasts
    /// the timeout is given up, and its connection closed.
    ///
    /// The future's error is a timeout, with the text of the latest error of an opening or a check
    /// if there was one, or else, if no worker is at work, with a text that says so; or
    /// `ErrorKind::Closed`, if the pool is closed; or `ErrorKind::QueueFull`, at once, if as many
    /// stand in line as `max_waiting` allows. The error of this call is lack of memory for a shared
    /// pointer: but for that text, nothing later takes any.
    #[inline(always)]
    pub fn get_timeout(&self, timeout: Duration) -> Result<Get<M, T, K, R>, Error>
        ensures settings { IfOk result (λ get. settings_of get.closer ≡ Some self.now) }
        ensures fresh { IfOk result (λ get. get.checking ≡ None) }
        ensures sleep { IfOk result (λ get. get.sleep ≡ None) }
        ensures refused { IfErr result IsOfMemory }
    {
        let Ok(closer) = Arc::try_clone(&self.closer) else {
            return Err(Error::memory());
        };
        Ok(Get::new(closer, timeout))
    }

    /// Lends an idle connection that is not kept for those in line; None if there is none. It does
    /// not wait, orders none, and makes no check; one that a failed check distrusts is closed, and
    /// the next one lent. The error is lack of memory for a shared pointer,
    /// and then nothing has changed.
    pub fn try_get(&self) -> Result<Option<PooledConnection<M, T, K, R>>, Error>
        ensures settings { IfOk result
            (λ found. IfSome found (λ lent. lent.settings ≡ self.now)) }
        ensures refused { IfErr result IsOfMemory }
    {
        let closer = Arc::try_clone(&self.closer).map_err(|_| Error::memory())?;
        let shared = &closer.shared;
        let Some(
            Taken {
                id,
                payload,
                at,
                ..
            },
        ) = shared.take_trusted()
        else {
            return Ok(None);
        };
        if shared.settings.listens {
            shared.hooks.check_out(id, at, at);
        }
        Ok(Some(PooledConnection {
            closer,
            id,
            lent_at: at,
            payload,
        }))
    }

    /// A worker: a future that opens connections and closes expired ones until the pool is closed.
    /// The user spawns it, and as many as openings may go on at once. The error is lack of memory
    /// for a list of `max_size` connections and a place among the workers.
    pub fn worker(&self) -> Result<Worker<M, T, K, R>, Error>
        ensures { IfOk result (λ worker. (worker.opening ≡ None) × (worker.sleep ≡ None)) }
    {
        let shared = Arc::try_clone(&self.closer.shared).map_err(|_| Error::memory())?;
        Worker::new(shared)
    }

    /// How many connections there are now, and how many of them are idle.
    pub fn state(&self) -> State
        ensures { result.idle_connections ≤ result.connections }
    {
        self.status().state()
    }

    /// What the pool is doing now, in one look at it.
    pub fn status(&self) -> Status
        ensures sums { IsStatus result }
        ensures workers { IsSome result.workers }
    {
        self.shared().status()
    }

    /// What the wall clock showed when the pool was made, from which its moments count; None if it
    /// could not be read.
    pub fn created_at(&self) -> Option<SystemTime> {
        self.shared().birth.created_at()
    }

    /// The time since the pool was made: the moment of a step that is made now, as a journal's
    /// records have it. Zero if the clock can't be read.
    pub fn uptime(&self) -> Duration {
        self.shared().moment()
    }

    /// How long `get` waits for a connection.
    pub fn connection_timeout(&self) -> Duration
        ensures { result ≡ self.now.config.connection_timeout }
    {
        self.shared().settings.config.connection_timeout
    }

    /// What happened last, as far back as the setting `journal_room` reaches, what stood before
    /// that, and what there is now. The error is lack of memory; then nothing has changed.
    pub fn journal(&self) -> Result<Report, Error>
        ensures sound { IfOk result IsSoundReport }
        ensures refused { IfErr result IsOfMemory }
    {
        match lock(&self.shared().tasks) {
            Some(tasks) => tasks.report().map_err(|_| Error::memory()),
            None => Err(Error::memory()),
        }
    }

    /// Closes each connection that is idle now, and each that is lent now when it comes back, for
    /// example after a database has moved. What is opened from now on stays.
    ///
    /// It returns how many were idle: each is reported by its release event and to the customizer
    /// before the call returns. The error is lack of memory for a list of `max_size` connections;
    /// then nothing has changed.
    pub fn evict(&self) -> Result<usize, Error>
        ensures refused { IfErr result IsOfMemory }
    {
        let shared = self.shared();
        let room = shared.settings.config.max_size as usize;
        let mut evicted: Vec<Released<PayloadOf<M>>> = Vec::with_capacity(
            shared.rt.alloc(),
            room,
        ).map_err(|_| Error::memory())?;
        if let Some(mut tasks) = lock(&shared.tasks) {
            if has_room(tasks.book(), &evicted) {
                tasks.evict(shared.moment(), &mut evicted);
            }
        }
        let count = evicted.len();
        for released in evicted.drain(..) {
            shared.release(released, ReleaseReason::Evicted);
        }
        Ok(count)
    }

    /// Closes the pool now, though pools over it and lent connections are still there. What is idle
    /// is dropped, as by the last drop, and nothing is opened any more. Who waits in a `get`, or
    /// begins one later, gets `ErrorKind::Closed`; `try_get` finds none. Lent connections are
    /// closed as they come back, the workers end. A second close does nothing.
    pub fn close(&self) {
        drop(self.shared().close());
    }

    /// Closes the pool at once; the future waits until nothing is lent any more, until `timeout`
    /// has passed since this call. Its error is the status past that, in which at least one
    /// connection is lent. The error of this call is lack of memory; the pool is then closed all
    /// the same.
    pub fn drain(&self, timeout: Duration) -> Result<Drain<M, T, K, R>, Error>
        ensures { IfOk result (λ drain. IfSome drain.sleep T.Sleep.can_poll) }
    {
        self.close();
        let shared = Arc::try_clone(&self.closer.shared).map_err(|_| Error::memory())?;
        Drain::new(shared, timeout)
    }

    /// Another pool over the same connections, for another task. The error is lack of memory.
    pub fn try_clone(&self) -> Result<Pool<M, T, K, R>, Error>
        ensures settings { IfOk result (λ pool. pool ≡ self.now) }
        ensures refused { IfErr result IsOfMemory }
    {
        let closer = Arc::try_clone(&self.closer).map_err(|_| Error::memory())?;
        Ok(Pool { closer })
    }
}

impl<M: ManageConnection, T: Timer, K: Hooks<M>, R: AsyncRuntime> Observe for Pool<M, T, K, R> {
    ghost timeout_of = { λ settings. settings.config.connection_timeout };

    fn status(&self) -> Status {
        Pool::status(self)
    }

    fn journal(&self) -> Result<Report, Error> {
        Pool::journal(self)
    }

    fn uptime(&self) -> Duration {
        Pool::uptime(self)
    }

    fn created_at(&self) -> Option<SystemTime> {
        Pool::created_at(self)
    }

    fn connection_timeout(&self) -> Duration {
        Pool::connection_timeout(self)
    }
}
