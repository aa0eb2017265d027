//! A generic connection pool, under the names of the Rust crate r2d2.
//!
//! Opening a connection for each request is slow, and a server allows only so many. A pool keeps a
//! few open and lends them out. It is made for any kind of connection: a manager of yours, which
//! implements [`ManageConnection`], opens and checks them.
//!
//! ```rust
//! let pool = Builder::new()
//!     .max_size(2)
//!     .connection_timeout(Duration::from_secs(5))
//!     .build(rt, manager)?;
//!
//! let mut database = pool.get()?;
//! database.execute("INSERT INTO visit (name) VALUES (?1)", params!["Ada"])?;
//! // ..
//! // It goes back to the pool, and is lent next: the newest comes first by default.
//! drop(database);
//! ```
//!
//! `rt` is the runtime that `main` is given. Each thread gets a pool of its own over the same
//! connections by `try_clone`. [`Builder`] has the settings, [`Pool`] the calls, [`event`] what a
//! handler gets. What a pool decides is in `r2d2_core`; here it is carried out, in threads.
#![tactic(auto)]

ghost use Rattle.std.specs.Prelude.{◌≡◌};

use log::{Log, error as log_error};
use std::fmt;
use std::marker::Model;

pub mod birth;
mod config;
pub mod engine;
mod error;
pub mod event;
mod extensions;
pub mod hooks;
mod observe;
mod payload;
mod pool;

pub use config::{Builder, Config, Settings};
pub use error::{Error, ErrorKind};
pub use event::{HandleEvent, NopEventHandler};
pub use extensions::{Extension, Extensions};
pub use observe::Observe;
pub use pool::{
    CountedConnection, CountedPool, PlainPool, Pool, PoolRuntime, PooledConnection, State, Status,
};
pub use r2d2_core::{LendingOrder, journal, machine, reuse, run, schedule, steps};

/// Opens connections and checks them. Nothing is asked of what it returns, nor of how long it
/// takes: no lock of the pool is held while it is called.
pub trait ManageConnection: Send + Sync + Drop + 'static {
    /// What is opened, lent and closed.
    type Connection: Send + Drop + 'static;

    /// Why opening or checking failed. A pool shows its text to a caller who timed out.
    type Error: fmt::Display + Send + Drop + 'static;

    /// What a connection's `Extensions` hold, and `()` if nothing is to be kept. They travel with
    /// it from thread to thread.
    type Extension: Extension<Kind: Send> + Send + Drop + 'static;

    /// Opens a connection.
    fn connect(&self) -> Result<Self::Connection, Self::Error>;

    /// Whether the connection can still be used, as a small query would show. It is asked before a
    /// connection is lent, if the setting `test_on_check_out` is on. After an error the connection
    /// is closed, and the caller gets another.
    fn is_valid(&self, connection: &mut Self::Connection) -> Result<(), Self::Error>;

    /// Whether the connection is known to be useless; if so it is closed. It is asked at each
    /// return, on the thread that returns the connection, so it should not wait for the other side.
    /// If that takes waiting to find out, return false.
    fn has_broken(&self, connection: &mut Self::Connection) -> bool;
}

/// Handles each error of a manager or a customizer, on the thread where it happened, while no lock
/// of the pool is held.
pub trait HandleError<E>: fmt::Debug + Send + Sync + Drop + 'static {
    /// Takes the error.
    fn handle_error(&self, error: E);
}

/// Drops each error in silence. A builder's error handler until another is set.
#[derive(Clone, Copy, Debug)]
pub struct NopErrorHandler;

impl<E: Drop> HandleError<E> for NopErrorHandler {
    fn handle_error(&self, _error: E) {}
}

/// Writes each error's text to a log, as one record at the level of errors. The log's sink has to
/// be one that threads can share, as `Console`, which writes to standard error, or `Locked`.
#[derive(Drop)]
pub struct LoggingErrorHandler<L> {
    log: L,
}

// Contracts see the handler as its log.
impl<L> Model for LoggingErrorHandler<L> {
    ghost Value = { L };

    ghost view = { λ handler. handler.log };
}

impl<L> LoggingErrorHandler<L> {
    /// A handler that writes to this log.
    pub fn new(log: L) -> LoggingErrorHandler<L>
        ensures { result ≡ log }
    {
        LoggingErrorHandler { log }
    }
}

impl<L> fmt::Debug for LoggingErrorHandler<L> {
    fn fmt<W: fmt::Write>(&self, f: &mut fmt::Formatter<W>) -> fmt::Result {
        f.write_str("LoggingErrorHandler")
    }
}

impl<E: fmt::Display + Drop, L: Log + Send + Sync + Drop + 'static> HandleError<E>
    for LoggingErrorHandler<L> {
    fn handle_error(&self, error: E) {
        log_error!(self.log; "{error}");
    }
}

/// Changes connections as they come and go. Each method does nothing unless you write it.
pub trait CustomizeConnection<C: Drop, E>: fmt::Debug + Send + Sync + Drop + 'static {
    /// Is given each connection right after it was opened. After an error the connection is
    /// dropped, and counts as one that could not be opened.
    fn on_acquire(&self, _connection: &mut C) -> Result<(), E> {
        Ok(())
    }

    /// Is given each connection that the pool closes because it is broken, expired, evicted, or
    /// failed its check, or because it comes back to a closed pool. Those that are idle when the
    /// pool is closed are dropped without it, and a detached one stays with its caller.
    fn on_release(&self, _connection: C) {}
}

/// Leaves connections as they are. A builder's customizer until another is set.
#[derive(Clone, Copy, Debug)]
pub struct NopConnectionCustomizer;

impl<C: Drop, E> CustomizeConnection<C, E> for NopConnectionCustomizer {}
