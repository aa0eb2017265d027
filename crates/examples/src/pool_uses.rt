// A user's own code over a pool, proved from the contracts of the pool's calls.
ghost use Rattle.std.specs.Prelude.{◌≡◌, ◌+◌, ◌^◌, ◌<◌, ◌≤◌, ◌↔◌, IsTrue, IsSome, IfOk, IfSome};
ghost use Rattle.std.specs.Option.{ForSome};
ghost use Rattle.std.specs.Duration.{as_nanos};
ghost use Rattle.pool_machine.specs.Limits.{seen_limits};
ghost use Rattle.r2d2_core.specs.Bases.{first_base};
ghost use Rattle.r2d2_core.specs.Reports.{seen_base, DoesReplay};

use r2d2::event::HandleEvent;
use r2d2::journal::Report;
use r2d2::{
    Builder, CountedPool, CustomizeConnection, Error, HandleError, ManageConnection,
    NopConnectionCustomizer, NopErrorHandler, NopEventHandler, PlainPool, Pool, PoolRuntime,
    PooledConnection,
};
use std::sync::ledger::{Ledger, Share};
use std::time::Duration;

// What there is of pools without handlers, beside `PlainPool`.
type PlainBuilder<M> = Builder<M, NopErrorHandler, NopEventHandler, NopConnectionCustomizer>;

type PlainConnection<M, R> = PooledConnection<
    M,
    NopErrorHandler,
    NopEventHandler,
    NopConnectionCustomizer,
    R,
>;

type PlainCountedPool<M, R, L> = CountedPool<
    M,
    NopErrorHandler,
    NopEventHandler,
    NopConnectionCustomizer,
    R,
    L,
>;

/// How busy a pool is at one moment.
#[derive(Clone, Copy, PartialEq, Eq, Debug)]
pub struct Load {
    /// How many connections there are.
    pub connections: u32,
    /// How many of them are lent.
    pub lent: u32,
}

/// How busy the pool is now. It may wait for the pool's lock.
pub fn load_of<
    M: ManageConnection,
    H: HandleError<M::Error>,
    V: HandleEvent + 'static,
    Z: CustomizeConnection<M::Connection, M::Error>,
    R: PoolRuntime,
>(pool: &Pool<M, H, V, Z, R>) -> Load
    ensures { result.lent ≤ result.connections }
{
    let state = pool.state();
    Load {
        connections: state.connections,
        // No more are idle than there are.
        lent: state.connections - state.idle_connections,
    }
}

/// Whether so many callers can hold a connection at once.
pub fn can_serve<M: ManageConnection, R: PoolRuntime>(pool: &PlainPool<M, R>, callers: u32) -> bool
    ensures { IsTrue result ↔ (callers ≤ pool.now.max_size) }
{
    callers <= pool.max_size()
}

/// A pool from settings that come from outside; None where they are none that a pool can have.
pub fn build_checked<M: ManageConnection, R: PoolRuntime>(
    builder: PlainBuilder<M>,
    rt: R,
    manager: M,
) -> Result<Option<PlainPool<M, R>>, Error>
    ensures legal { IfOk result
        (λ built. IsSome built
        ↔ ForSome builder.config.min_idle (λ n. n ≤ builder.config.max_size)) }
    ensures kept { IfOk result (λ built. IfSome built (λ pool. pool ≡ builder.config)) }
{
    if builder.limits().is_none() {
        return Ok(None);
    }
    let pool = builder.build(rt, manager)?;
    Ok(Some(pool))
}

/// All that happened since the pool was made, which replays to what there is; None where records
/// were folded into the base.
pub fn audit<M: ManageConnection, R: PoolRuntime>(
    pool: &PlainPool<M, R>,
) -> Result<Option<Report>, Error>
    ensures whole { IfOk result (λ found. IfSome found (λ report. report.lost ≡ 0)) }
    ensures begins { IfOk result
        (λ found. IfSome found
        (λ report. seen_base report.base
        ≡ first_base (seen_limits report.limits) (as_nanos report.base.at))) }
    ensures replays { IfOk result (λ found. IfSome found DoesReplay) }
{
    let report = pool.journal()?;
    if report.lost > 0 {
        return Ok(None);
    }
    Ok(Some(report))
}

/// How many more openings the pool's limit leaves room for now, whatever its journal has folded.
pub fn room_left<M: ManageConnection, R: PoolRuntime>(
    pool: &PlainPool<M, R>,
) -> Result<u32, Error> {
    let report = pool.journal()?;
    // Connections and pending openings are at most the report's own limit, so neither difference is
    // below zero.
    Ok(report.limits.max_size() - report.connections - report.pending)
}

/// Lends a connection, and says how long the pool that lent it lets callers wait.
pub fn lend_with_timeout<M: ManageConnection, R: PoolRuntime>(
    pool: &PlainPool<M, R>,
) -> Result<(PlainConnection<M, R>, Duration), Error>
    ensures { IfOk result (λ lent. lent.1 ≡ lent.0.settings.connection_timeout) }
{
    let lent = pool.get()?;
    Ok((lent, pool.connection_timeout()))
}

/// Counts two uses in a pool whose connections are counters: the second one finds what the first
/// one left.
pub fn count_two_uses<M: ManageConnection<Connection = u64>, R: PoolRuntime>(
    lent: &mut PlainConnection<M, R>,
)
    requires { lent.old.connection + 2 < 2 ^ 64 }
    ensures counted { lent.new.connection ≡ lent.old.connection + 2 }
    ensures extensions { lent.new.extensions ≡ lent.old.extensions }
{
    **lent += 1;
    **lent += 1;
}

/// Puts another connection in the place of the lent one. What is kept beside it stays.
pub fn replace<
    M: ManageConnection,
    H: HandleError<M::Error>,
    V: HandleEvent + 'static,
    Z: CustomizeConnection<M::Connection, M::Error>,
    R: PoolRuntime,
>(lent: &mut PooledConnection<M, H, V, Z, R>, connection: M::Connection)
    ensures connection { lent.new.connection ≡ connection }
    ensures extensions { lent.new.extensions ≡ lent.old.extensions }
{
    **lent = connection;
}

/// Lends twice from a pool that counts, and audits it with the share that has all parts of its
/// ledger: whatever other threads did before, the report counts two takes more than all shares
/// had counted.
pub fn lend_twice_and_audit<M: ManageConnection, R: PoolRuntime, L: Ledger + Send + Sync + 'static>(
    pool: &PlainCountedPool<M, R, L>,
    all: &mut Share<L>,
) -> Result<Report, Error>
    requires all { all.old.parts ≡ L.parts }
    requires some { 0 < L.parts }
    requires few { all.old.amount + 2 < 2 ^ 64 }
    ensures takes { IfOk result (λ report. all.old.amount + 2 ≤ report.takes) }
    ensures parts { all.new.parts ≡ all.old.parts }
{
    drop(pool.get(all)?);
    drop(pool.get(all)?);
    pool.audit(all)
}
