// How a pool is made from its settings.
ghost use Rattle.std.specs.Prelude.{◌≡◌, ◌≤◌, length, All, IfOk, IfErr};
ghost use Rattle.std.specs.Option.{ForSome};
ghost use Rattle.std.specs.Arc.{arc_value};
ghost use Rattle.r2d2.specs.Settings.{BeginsWith};
ghost use Rattle.pool_state.specs.Room.{HasRoom};
ghost use Rattle.r2d2.specs.Failures.{IsOfMemory, IsOfMemoryOrThreads, IsOfABuild};

use super::closing::Closer;
use super::locking::{Shared, SharedOf};
use super::{AnyPool, CountedPool, Pool, PoolRuntime};
use crate::birth::Birth;
use crate::config::{Builder, Config, Settings};
use crate::event::HandleEvent;
use crate::hooks::PoolHooks;
use crate::payload::PayloadOf;
use crate::{CustomizeConnection, Error, ErrorKind, HandleError, ManageConnection};
use pool_state::engine::{Counted, CountingBook, TakeTotal};
use pool_state::{Line, PoolState};
use r2d2_core::{Book, Limits, Released};
use std::alloc::{AllocError, Global};
use std::sync::ledger::Ledger;
use std::sync::{Arc, Condvar, Mutex, ledger};
use std::thread;
use std::time::Duration;

impl<
    M: ManageConnection,
    H: HandleError<M::Error>,
    V: HandleEvent + 'static,
    Z: CustomizeConnection<M::Connection, M::Error>,
> Builder<M, H, V, Z> {
    /// Makes a pool, and waits until as many connections are open as are wanted idle.
    ///
    /// `min_idle` may not be above `max_size`: `limits` is the test. The error is a timeout if
    /// fewer were opened within `connection_timeout`, with the text of the latest error of an
    /// opening if there was one; otherwise it is that of `build_unchecked`. After an error the pool
    /// is closed.
    pub fn build<R: PoolRuntime>(self, rt: R, manager: M) -> Result<Pool<M, H, V, Z, R>, Error>
        requires { ForSome self.config.min_idle (λ n. n ≤ self.config.max_size) }
        ensures settings { IfOk result (λ pool. pool ≡ self.config) }
        ensures refused { IfErr result IsOfABuild }
    {
        let pool = self.build_unchecked(rt, manager)?;
        wait_for_connections(&pool)?;
        Ok(pool)
    }

    /// Makes a pool, and starts its workers, which open connections from now on. It does not wait
    /// for them.
    ///
    /// `min_idle` may not be above `max_size`: `limits` is the test. The error is lack of memory,
    /// for here the memory for `max_size` connections and the journal is taken; or a worker's
    /// thread that could not be started. After an error the workers that were started end, and the
    /// manager and the handlers are dropped, at the latest with the last of them.
    pub fn build_unchecked<R: PoolRuntime>(
        self,
        rt: R,
        manager: M,
    ) -> Result<Pool<M, H, V, Z, R>, Error>
        requires { ForSome self.config.min_idle (λ n. n ≤ self.config.max_size) }
        ensures settings { IfOk result (λ pool. pool ≡ self.config) }
        ensures refused { IfErr result IsOfMemoryOrThreads }
    {
        let (settings, book, lists) = self.prepared(rt.alloc())?;
        let book = CountingBook::plain(book);
        open_pool(rt, book, settings, manager, lists)
    }

    /// Makes a pool whose takes are counted, and is otherwise as `build_unchecked`.
    ///
    /// `total` is the book of a ledger that counted nothing yet. Each caller brings a share of that
    /// ledger, and each take that finds adds one to it. After an error `total` is dropped with the
    /// rest.
    pub fn build_counted<R: PoolRuntime, L: Ledger + Send + Sync + 'static>(
        self,
        rt: R,
        manager: M,
        total: ledger::Book<L>,
    ) -> Result<CountedPool<M, H, V, Z, R, L>, Error>
        requires size { ForSome self.config.min_idle (λ n. n ≤ self.config.max_size) }
        requires total { total.total ≡ 0 }
        ensures settings { IfOk result (λ pool. pool ≡ self.config) }
        ensures refused { IfErr result IsOfMemoryOrThreads }
    {
        let (settings, book, lists) = self.prepared(rt.alloc())?;
        let book = Counted::new(book, total);
        open_pool(rt, book, settings, manager, lists)
    }

    // The settings, a book in which nothing has happened, and a list for each worker.
    fn prepare(self, alloc: Global) -> Result<Prepared<M, H, V, Z>, AllocError>
        requires { ForSome self.config.min_idle (λ n. n ≤ self.config.max_size) }
        ensures settings { IfOk result (λ made. made.0 ≡ self) }
        ensures takes { IfOk result (λ made. made.1.journal.takes ≡ 0) }
        ensures book { IfOk result (λ made. BeginsWith self made.1) }
        ensures workers { IfOk result (λ made. length made.2.items ≡ self.config.thread_pool) }
        ensures room { IfOk result (λ made. All (HasRoom self.config.max_size) made.2.items) }
    {
        let (settings, book) = self.into_book(alloc)?;
        let config = &settings.config;
        let lists = reap_lists(alloc, config.thread_pool, config.max_size)?;
        Ok((settings, book, lists))
    }

    // The same, with the error that callers get.
    fn prepared(self, alloc: Global) -> Result<Prepared<M, H, V, Z>, Error>
        requires { ForSome self.config.min_idle (λ n. n ≤ self.config.max_size) }
        ensures settings { IfOk result (λ made. made.0 ≡ self) }
        ensures takes { IfOk result (λ made. made.1.journal.takes ≡ 0) }
        ensures refused { IfErr result IsOfMemory }
    {
        self.prepare(alloc).map_err(|_| Error::memory())
    }
}

// What a pool is made of, before it has a lock.
type Prepared<M, H, V, Z> = (
    Settings<H, V, Z>,
    Book<PayloadOf<M>>,
    Vec<Vec<Released<PayloadOf<M>>>>,
);

// The pool over what its lock is to guard, with a worker for each list.
fn open_pool<
    C: TakeTotal + Send + 'static,
    M: ManageConnection,
    H: HandleError<M::Error>,
    V: HandleEvent + 'static,
    Z: CustomizeConnection<M::Connection, M::Error>,
    R: PoolRuntime,
>(
    rt: R,
    book: CountingBook<PayloadOf<M>, C>,
    settings: Settings<H, V, Z>,
    manager: M,
    lists: Vec<Vec<Released<PayloadOf<M>>>>,
) -> Result<AnyPool<C, M, Config<H, V, Z>, R>, Error>
    ensures settings { IfOk result (λ pool. pool ≡ settings.config) }
    ensures refused { IfErr result IsOfMemoryOrThreads }
{
    let closer = shared_state(rt, book, settings, manager).map_err(|_| Error::memory())?;
    start_workers(&closer, lists)?;
    Ok(AnyPool { closer })
}

// Waits until as many connections as are wanted were opened, or as long as a caller would wait.
fn wait_for_connections<
    M: ManageConnection,
    H: HandleError<M::Error>,
    V: HandleEvent + 'static,
    Z: CustomizeConnection<M::Connection, M::Error>,
    R: PoolRuntime,
>(pool: &Pool<M, H, V, Z, R>) -> Result<(), Error>
    ensures { IfErr result (λ error. error.kind ≡ ErrorKind.Timeout) }
{
    let shared = pool.shared();
    shared.wait_for_build(shared.hooks.connection_timeout)
}

// A list for each worker, with room for all connections that a reap may close.
fn reap_lists<P: Drop>(
    alloc: Global,
    workers: usize,
    room: u32,
) -> Result<Vec<Vec<Released<P>>>, AllocError>
    ensures workers { IfOk result (λ lists. length lists.items ≡ workers) }
    ensures room { IfOk result (λ lists. All (HasRoom room) lists.items) }
{
    let mut lists = Vec::with_capacity(alloc, workers)?;
    for _ in 0..workers {
        lists.push(Vec::with_capacity(alloc, room as usize)?)?;
    }
    Ok(lists)
}

// The state that workers, pools and lent connections share.
fn shared_state<P: Drop, C: TakeTotal, M: Drop, H: Drop, V: Drop, Z: Drop, R: PoolRuntime>(
    rt: R,
    book: CountingBook<P, C>,
    settings: Settings<H, V, Z>,
    manager: M,
) -> Result<Arc<Closer<P, C, M, Config<H, V, Z>, R>>, AllocError>
    ensures hooks { IfOk result
        (λ closer. (arc_value (arc_value closer).shared).hooks ≡ settings.config) }
    ensures listens { IfOk result
        (λ closer. (arc_value (arc_value closer).shared).listens ≡ settings.listens) }
    ensures checks { IfOk result (λ closer. (arc_value (arc_value closer).shared).checks
        ≡ settings.config.test_on_check_out) }
    ensures tuning { IfOk result
        (λ closer. (arc_value (arc_value closer).shared).tuning ≡ settings.tuning) }
{
    let Settings {
        config,
        tuning,
        listens,
        ..
    } = settings;
    let birth = Birth::now(&rt);
    let room = tuning.room_in_line();
    let line = Line::new(rt.alloc(), room)?;
    let slots = slots(rt.alloc(), room)?;
    let shared = Shared {
        guarded: Mutex::new(PoolState::new(book, line)),
        callers: Condvar::new(),
        slots,
        workers: Condvar::new(),
        manager,
        checks: config.test_on_check_out,
        hooks: config,
        listens,
        tuning,
        birth,
        rt,
    };
    let shared = Arc::new(rt.alloc(), shared)?;
    Ok(Arc::new(rt.alloc(), Closer { shared })?)
}

// So many variables, one for each slot of the line.
fn slots(alloc: Global, room: u32) -> Result<Vec<Condvar>, AllocError>
    ensures { IfOk result (λ slots. length slots.items ≡ room) }
{
    let mut slots = Vec::with_capacity(alloc, room as usize)?;
    for _ in 0..room {
        slots.push(Condvar::new())?;
    }
    Ok(slots)
}

// Starts a worker for each list, in a thread of its own.
fn start_workers<
    C: TakeTotal + Send + 'static,
    M: ManageConnection,
    K: PoolHooks<M>,
    R: PoolRuntime,
>(
    closer: &Arc<Closer<PayloadOf<M>, C, M, K, R>>,
    lists: Vec<Vec<Released<PayloadOf<M>>>>,
) -> Result<(), Error>
    ensures refused { IfErr result IsOfMemoryOrThreads }
{
    for expired in lists {
        let shared = Arc::try_clone(&closer.shared).map_err(|_| Error::memory())?;
        if !start(shared, expired) {
            return Err(Error::threads());
        }
    }
    Ok(())
}

// Starts a worker; false where its thread can't be started.
fn start<C: TakeTotal + Send + 'static, M: ManageConnection, K: PoolHooks<M>, R: PoolRuntime>(
    shared: Arc<SharedOf<C, M, K, R>>,
    expired: Vec<Released<PayloadOf<M>>>,
) -> bool {
    let rt = shared.rt;
    thread::spawn(&rt, move || work(shared, expired)).is_ok()
}

// The whole life of a worker.
fn work<C: TakeTotal, M: ManageConnection, K: PoolHooks<M>, R: PoolRuntime>(
    shared: Arc<SharedOf<C, M, K, R>>,
    expired: Vec<Released<PayloadOf<M>>>,
) {
    shared.work(expired);
}
