// How a pool is made from its settings.
ghost use Rattle.std.specs.Prelude.{◌≡◌, ◌≤◌, ◌<◌, IfOk, IfErr, MatchOption};
ghost use Rattle.std.specs.Option.{ForSome};
ghost use Rattle.std.specs.Arc.{arc_value};
ghost use Rattle.r2d2.specs.Settings.{without_handlers};
ghost use Rattle.r2d2.specs.Failures.{IsOfMemory};
ghost use Rattle.pool_tasks.specs.InTime.{IsInOrder};

use crate::hooks::Handlers;
use crate::pool::Pool;
use crate::shared::{Closer, Shared};
use crate::{AsyncRuntime, ManageConnection, Timer};
use futures::task::Source;
use pool_state::Tuning;
use pool_tasks::TaskBook;
use r2d2::birth::Birth;
use r2d2::event::HandleEvent;
use r2d2::{Builder, CustomizeConnection, Error, HandleError, Settings};
use r2d2_core::Book;
use std::alloc::{AllocError, Global};
use std::sync::{Arc, Mutex};

/// How many callers stand in line at most, if `max_waiting` is not set.
const PLACES: u32 = 1000;

impl<
    M: ManageConnection,
    T: Timer,
    H: HandleError<M::Error>,
    V: HandleEvent,
    Z: CustomizeConnection<M::Connection, M::Error>,
    R: AsyncRuntime,
> Pool<M, T, Handlers<H, V, Z>, R> {
    /// Makes a pool with the settings of this builder. It opens nothing until a `Pool::worker` of
    /// it is polled.
    ///
    /// `manager` opens and checks connections, `timer` wakes tasks when time has passed. `min_idle`
    /// may not be above `max_size`: `Builder::limits` is the test. `thread_pool` has no effect, and
    /// callers wait in line whether or not `fair_queue` was set. The error is lack of memory, for
    /// here the memory for `max_size` connections, the line (some 45 bytes for each place) and the
    /// journal is taken; then the manager, the timer and the handlers are dropped.
    pub fn build(
        builder: Builder<M, H, V, Z>,
        rt: R,
        manager: M,
        timer: T,
    ) -> Result<Pool<M, T, Handlers<H, V, Z>, R>, Error>
        requires { ForSome builder.config.min_idle (λ n. n ≤ builder.config.max_size) }
        ensures settings { IfOk result (λ pool. pool ≡ without_handlers builder) }
        ensures refused { IfErr result IsOfMemory }
    {
        let (settings, book) = first_book(builder, rt.alloc())?;
        let bare = settings.without_handlers();
        let made = shared_state(rt, book, bare, settings.config, manager, timer);
        let closer = made.map_err(|_| Error::memory())?;
        Ok(Pool { closer })
    }
}

// The settings, and a book that begins with them: what it orders first stands in order.
fn first_book<P: Drop, M, H: Drop, V: Drop, Z: Drop>(
    builder: Builder<M, H, V, Z>,
    alloc: Global,
) -> Result<(Settings<H, V, Z>, Book<P>), Error>
    requires { ForSome builder.config.min_idle (λ n. n ≤ builder.config.max_size) }
    ensures settings { IfOk result (λ made. made.0 ≡ builder) }
    ensures in_order { IfOk result (λ made. IsInOrder made.1.picture.on_order) }
    ensures refused { IfErr result IsOfMemory }
{
    match builder.into_book(alloc) {
        Ok(made) => Ok(made),
        Err(_) => Err(Error::memory()),
    }
}

// What a pool over this book shares.
fn shared_state<P: Drop, M: Drop, T: Drop, K: Drop, R: AsyncRuntime>(
    rt: R,
    book: Book<P>,
    settings: Settings<(), (), ()>,
    hooks: K,
    manager: M,
    timer: T,
) -> Result<Arc<Closer<P, M, T, K, R>>, AllocError>
    requires { IsInOrder book.picture.on_order }
    ensures { IfOk result
        (λ closer. (arc_value (arc_value closer).shared).settings ≡ settings) }
{
    let birth = Birth::now(&rt);
    let tasks = TaskBook::new(rt.alloc(), book, places(&settings.tuning))?;
    let shared = Shared {
        told: Source::new(),
        ordered: Source::new(),
        returned: Source::new(),
        tasks: Mutex::new(tasks),
        manager,
        timer,
        hooks,
        settings,
        birth,
        rt,
    };
    let shared = Arc::new(rt.alloc(), shared)?;
    Ok(Arc::new(rt.alloc(), Closer { shared })?)
}

// How many callers the line has room for.
fn places(tuning: &Tuning) -> u32
    ensures { MatchOption tuning.now.max_waiting (result ≡ 1000) (λ callers. result ≡ callers) }
{
    tuning.max_waiting.unwrap_or(PLACES)
}
