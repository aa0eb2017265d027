// A database that is not ready at first, and a log of its errors.

use log::sink::{Console, Locked};
use log::{Level, Logged};
use r2d2::{Builder, LoggingErrorHandler, ManageConnection, PoolRuntime};
use std::sync::atomic::{AtomicU64, Ordering};
use std::time::Duration;
use std::{fmt, io};

/// The database is not ready.
#[derive(Clone, Copy, Debug)]
struct NotReady;

impl fmt::Display for NotReady {
    fn fmt<W: fmt::Write>(&self, f: &mut fmt::Formatter<W>) -> fmt::Result {
        f.write_str("the database is starting up")
    }
}

/// Fails twice, and can open connections from then on.
#[derive(Drop)]
struct Starting {
    tries: AtomicU64,
}

impl Starting {
    fn new() -> Starting {
        Starting {
            tries: AtomicU64::new(0),
        }
    }
}

impl ManageConnection for Starting {
    type Connection = u32;

    type Error = NotReady;

    type Extension = ();

    fn connect(&self) -> Result<u32, NotReady> {
        if self.tries.fetch_add(1, Ordering::SeqCst) < 2 {
            return Err(NotReady);
        }
        Ok(7)
    }

    fn is_valid(&self, _connection: &mut u32) -> Result<(), NotReady> {
        Ok(())
    }

    fn has_broken(&self, _connection: &mut u32) -> bool {
        false
    }
}

pub fn waited_for<R: PoolRuntime + Print + Eprint>(rt: R) -> Result<(), anyhow::Error> {
    // Each error is a line on standard error.
    let log = Logged::new(rt, Level::Error, Console(rt));
    let pool = Builder::new()
        .max_size(1)
        .error_handler(LoggingErrorHandler::new(log))
        .build_unchecked(rt, Starting::new())?;
    // The first try fails at once. The second comes 400 ms later, and the third 800 ms after that.
    match pool.get_timeout(Duration::from_millis(600)) {
        Ok(_) => println!(rt; "found one too soon"),
        Err(error) => println!(rt; "{error}"),
    }?;
    println!(rt; "then found {}", *pool.get()?)?;
    Ok(())
}
