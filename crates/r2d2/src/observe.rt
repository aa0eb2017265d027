// What can be read of a pool, of whichever kind it is.
ghost use Rattle.std.specs.Prelude.{◌≡◌, IfOk, IfErr};
ghost use Rattle.std.specs.declared.time.Duration.{Duration};
ghost use Rattle.r2d2_core.specs.Reports.{IsSoundReport};
ghost use Rattle.r2d2.specs.Failures.{IsOfMemory};
ghost use Rattle.pool_state.specs.Status.{IsStatus};

use crate::{Error, Status};
use r2d2_core::Report;
use std::time::{Duration, SystemTime};

/// What can be read of a pool, of whichever kind it is: each call is the pool's own of that name.
/// The pools here implement it, plain and counted ones, and that of `r2d2_async`.
pub trait Observe {
    // How long a `get` of it waits.
    ghost timeout_of: { Self → Duration };

    /// What the pool is doing now, in one look at it.
    fn status(&self) -> Status
        ensures { IsStatus result };

    /// What happened last, what stood before that, and what there is now. The error is lack of
    /// memory; then nothing has changed.
    fn journal(&self) -> Result<Report, Error>
        ensures sound { IfOk result IsSoundReport }
        ensures refused { IfErr result IsOfMemory };

    /// The time since the pool was made: the moment of a step that is made now.
    fn uptime(&self) -> Duration;

    /// What the wall clock showed when the pool was made; None if it could not be read.
    fn created_at(&self) -> Option<SystemTime>;

    /// How long `get` waits for a connection.
    fn connection_timeout(&self) -> Duration
        ensures { result ≡ timeout_of self.now };
}
