//! A generic connection pool for tasks: r2d2's pool where nothing may block a thread.
//!
//! `get` is a future, and so are the workers that open connections: the user spawns both on an
//! executor of theirs. What the pool decides is the same core that the pool of `r2d2` stands on;
//! settings, events, handlers, extensions and errors are those of `r2d2`.
//!
//! `Pool::build` makes a pool with the settings of a `Builder`, over a manager and a timer of the
//! user's. `Pool::worker` gives a worker to be spawned, and `Pool::get` the future of a connection,
//! which goes back to the pool when it is dropped.
//!
//! Callers stand in one line, and are served in the order in which they came. The memory for the
//! line is taken when the pool is built: the setting `max_waiting` says how many may stand in it.
//! No function here waits, but for a lock that is held for single steps of the book.
#![tactic(auto)]

mod building;
mod drain;
mod get;
mod hooks;
mod lent;
mod message;
mod pool;
mod shared;
mod worker;

pub use drain::Drain;
use futures::Future;
pub use get::Get;
pub use hooks::{Handlers, Hooks};
pub use lent::PooledConnection;
pub use pool::Pool;
pub use r2d2::{
    Builder, CustomizeConnection, Error, ErrorKind, Extension, Extensions, HandleError,
    HandleEvent, LendingOrder, LoggingErrorHandler, NopConnectionCustomizer, NopErrorHandler,
    NopEventHandler, State, Status, event,
};
use std::alloc::AllocGlobal;
use std::fmt;
use std::rt::Clock;
use std::time::Duration;
pub use worker::Worker;

/// Handlers and a customizer that do nothing: those of a `Builder` if none of them is set.
pub type NoHandlers = Handlers<NopErrorHandler, NopEventHandler, NopConnectionCustomizer>;

/// A pool with such handlers. What it gives has `NoHandlers` as well: its `get` is a
/// `Get<M, T, NoHandlers, R>`.
pub type PlainPool<M, T, R> = Pool<M, T, NoHandlers, R>;

/// Opens connections and checks them, by futures. Nothing is asked of what they return, nor of how
/// long they take: no lock of the pool is held while they are polled or dropped.
pub trait ManageConnection: Drop {
    /// What is opened, lent and closed.
    type Connection: Drop;

    /// Why opening or checking failed. A pool shows its text to a caller who timed out.
    type Error: fmt::Display + Drop;

    /// What a connection's `Extensions` hold, and `()` if nothing is to be kept.
    type Extension: Extension + Drop;

    /// Opens a connection. Dropped before its end, it gives up.
    type Connect: Future<Output = Result<Self::Connection, Self::Error>>;

    /// Checks a connection, and gives it back with the verdict. Dropped before its end, it drops
    /// the connection.
    type Check: Future<Output = (Self::Connection, Result<(), Self::Error>)>;

    /// Begins to open a connection. The future may be polled.
    fn connect(&self) -> Self::Connect
        ensures { Self.Connect.can_poll result };

    /// Begins to check whether the connection can still be used, as by a small query. It is asked
    /// before a connection is lent, if the setting `test_on_check_out` is on. After an error the
    /// connection is closed, and the caller gets another. The future may be polled.
    fn check(&self, connection: Self::Connection) -> Self::Check
        ensures { Self.Check.can_poll result };

    /// Whether the connection is known to be useless; if so it is closed. It is asked at each
    /// return, in the drop, so it may not wait. If it takes waiting to find out, return false.
    fn has_broken(&self, connection: &mut Self::Connection) -> bool;
}

/// What wakes a task when time has passed: a timer of the executor's, mostly.
pub trait Timer: Drop {
    /// Ends once the length of time has passed, or never.
    type Sleep: Future<Output = ()>;

    /// A sleep of this length, from now on. The future may be polled.
    fn sleep(&self, length: Duration) -> Self::Sleep
        ensures { Self.Sleep.can_poll result };
}

/// What a pool needs of the runtime that it is made with, and keeps: a clock and memory. It neither
/// waits nor starts threads. The runtime that `main` is given is one; nobody has to implement it.
pub trait AsyncRuntime: Clock + AllocGlobal + Copy + Drop {}

impl<R: Clock + AllocGlobal + Copy + Drop> AsyncRuntime for R {}
