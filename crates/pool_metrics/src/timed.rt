// A manager whose openings are timed.
ghost use Rattle.std.specs.Prelude.{◌≡◌, IfOk};

use crate::recording::Metrics;
use r2d2::{ManageConnection, PoolRuntime};
use std::alloc::AllocError;
use std::marker::Model;

/// A manager, the time of whose openings goes to the metrics of its pool. All else is as with the
/// manager in it.
#[derive(Drop)]
pub struct Timed<M, R> {
    manager: M,
    metrics: Metrics<R>,
}

// Contracts see it as the manager in it.
impl<M, R> Model for Timed<M, R> {
    ghost Value = { M };

    ghost view = { λ timed. timed.manager };
}

impl<M, R> Timed<M, R> {
    /// This manager, for the pool whose metrics these are. The error is lack of memory.
    pub fn new(manager: M, metrics: &Metrics<R>) -> Result<Timed<M, R>, AllocError>
    where
        M: Drop,
        ensures { IfOk result (λ timed. timed ≡ manager) }
    {
        let metrics = metrics.try_clone()?;
        metrics.expect_openings();
        Ok(Timed { manager, metrics })
    }
}

impl<M: ManageConnection, R: PoolRuntime> ManageConnection for Timed<M, R> {
    type Connection = M::Connection;

    type Error = M::Error;

    type Extension = M::Extension;

    fn connect(&self) -> Result<M::Connection, M::Error> {
        let begun = self.metrics.begin_opening();
        let opened = self.manager.connect();
        if opened.is_ok() {
            self.metrics.end_opening(begun);
        }
        opened
    }

    fn is_valid(&self, connection: &mut M::Connection) -> Result<(), M::Error> {
        self.manager.is_valid(connection)
    }

    fn has_broken(&self, connection: &mut M::Connection) -> bool {
        self.manager.has_broken(connection)
    }
}
