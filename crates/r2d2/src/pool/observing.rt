// A pool as what can be observed. A call of the pool's own of the same name has more bounds than a
// trait's method may ask for, so both go to what the pool shares.

use super::{AnyPool, PoolRuntime};
use crate::config::Config;
use crate::event::HandleEvent;
use crate::observe::Observe;
use crate::{CustomizeConnection, Error, HandleError, ManageConnection};
use pool_state::Status;
use pool_state::engine::TakeTotal;
use r2d2_core::Report;
use std::time::{Duration, SystemTime};

impl<
    C: TakeTotal,
    M: ManageConnection,
    H: HandleError<M::Error>,
    V: HandleEvent + 'static,
    Z: CustomizeConnection<M::Connection, M::Error>,
    R: PoolRuntime,
> Observe for AnyPool<C, M, Config<H, V, Z>, R> {
    ghost timeout_of = { λ config. config.connection_timeout };

    fn status(&self) -> Status {
        self.closer.shared.status()
    }

    fn journal(&self) -> Result<Report, Error> {
        self.closer.shared.report().map_err(|_| Error::memory())
    }

    fn uptime(&self) -> Duration {
        self.closer.shared.moment()
    }

    fn created_at(&self) -> Option<SystemTime> {
        self.closer.shared.birth.created_at()
    }

    fn connection_timeout(&self) -> Duration {
        self.closer.shared.hooks.connection_timeout
    }
}
