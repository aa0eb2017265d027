// The handlers of a pool for tasks: one bound for the three of them.

use crate::ManageConnection;
use r2d2::Config;

/// What a pool over this manager reports and asks: a `Handlers` is one, and nobody else has to
/// implement it.
pub trait Hooks<M: ManageConnection>: r2d2::hooks::Hooks<M::Connection, M::Error> {}

impl<M: ManageConnection, K: r2d2::hooks::Hooks<M::Connection, M::Error>> Hooks<M> for K {}

/// The handlers of a pool, of errors, of events, and what changes connections as they come and go:
/// they stand among its settings.
pub type Handlers<H, V, Z> = Config<H, V, Z>;
