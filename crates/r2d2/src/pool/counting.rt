// The calls of a pool that counts its takes.
ghost use Rattle.std.specs.Prelude.{◌≡◌, ◌≤◌, ◌<◌, ◌+◌, IfOk, IfErr, IfSome, OnErr};
ghost use Rattle.r2d2_core.specs.Reports.{IsSoundReport};
ghost use Rattle.pool_state.specs.Counted.{counted_up_to};

use super::locking::Shared;
use super::{CountedConnection, CountedPool, PoolRuntime};
use crate::event::HandleEvent;
use crate::{CustomizeConnection, Error, HandleError, ManageConnection};
use pool_state::PoolState;
use pool_state::engine::LedgerCounter;
use r2d2_core::Report;
use std::alloc::AllocError;
use std::rt::Clock;
use std::sync::Wait;
use std::sync::ledger::{Ledger, Share};
use std::time::Duration;

impl<
    M: ManageConnection,
    H: HandleError<M::Error>,
    V: HandleEvent + 'static,
    Z: CustomizeConnection<M::Connection, M::Error>,
    R: PoolRuntime,
    L: Ledger + Send + Sync + 'static,
> CountedPool<M, H, V, Z, R, L> {
    ghost use Rattle.r2d2.specs.Failures.{IsOfMemory, IsOfAGet};

    /// As `Pool::get`. Each take adds one to the share, which has a part at least: one if a
    /// connection is lent, and one for each that was found before it and failed its check, also if
    /// the call ends in an error.
    pub fn get(&self, share: &mut Share<L>) -> Result<CountedConnection<M, H, V, Z, R, L>, Error>
        requires { 0 < share.old.parts }
        ensures settings { IfOk result (λ lent. lent.settings ≡ self.now) }
        ensures refused { IfErr result IsOfAGet }
        ensures parts { share.new.parts ≡ share.old.parts }
        ensures amount { share.old.amount ≤ share.new.amount }
        ensures lent { IfOk result (λ _. share.old.amount + 1 ≤ share.new.amount) }
    {
        self.get_timeout(self.connection_timeout(), share)
    }

    /// As `Pool::get_timeout`, and counted as `get`.
    pub fn get_timeout(
        &self,
        timeout: Duration,
        share: &mut Share<L>,
    ) -> Result<CountedConnection<M, H, V, Z, R, L>, Error>
        requires { 0 < share.old.parts }
        ensures settings { IfOk result (λ lent. lent.settings ≡ self.now) }
        ensures refused { IfErr result IsOfAGet }
        ensures parts { share.new.parts ≡ share.old.parts }
        ensures amount { share.old.amount ≤ share.new.amount }
        ensures lent { IfOk result (λ _. share.old.amount + 1 ≤ share.new.amount) }
    {
        if self.is_in_line() {
            return Ok(self.lend_in_line(timeout, share)?);
        }
        match self.lend_within(Some(timeout), share)? {
            Some(lent) => Ok(lent),
            None => unreachable!(),
        }
    }

    /// As `Pool::try_get`, and counted as `get`.
    pub fn try_get(
        &self,
        share: &mut Share<L>,
    ) -> Result<Option<CountedConnection<M, H, V, Z, R, L>>, Error>
        requires { 0 < share.old.parts }
        ensures settings { IfOk result (λ found. IfSome found (λ lent. lent.settings ≡ self.now)) }
        ensures refused { IfErr result IsOfMemory }
        ensures parts { share.new.parts ≡ share.old.parts }
        ensures amount { share.old.amount ≤ share.new.amount }
        ensures lent { IfOk result
            (λ found. IfSome found (λ _. share.old.amount + 1 ≤ share.new.amount)) }
    {
        self.lend_within(None, share)
    }

    /// As `Pool::evict`. Each connection that it closes is a take, which adds one to the share.
    pub fn evict(&self, share: &mut Share<L>) -> Result<usize, Error>
        requires { 0 < share.old.parts }
        ensures parts { share.new.parts ≡ share.old.parts }
        ensures amount { IfOk result (λ n. share.new.amount ≡ share.old.amount + n) }
        ensures unchanged { OnErr result (share.new.amount ≡ share.old.amount) }
        ensures refused { IfErr result IsOfMemory }
    {
        self.evict_with(share)
    }

    /// What happened, as `journal` says it, at a time when `all` has all parts of the ledger: so
    /// the report's `takes` is what all shares counted, up to `u64::MAX`, whatever threads made the
    /// calls. The share is unchanged. The error is lack of memory; then nothing has changed.
    pub fn audit(&self, all: &mut Share<L>) -> Result<Report, Error>
        requires { all.old.parts ≡ L.parts }
        ensures takes { IfOk result (λ report. report.takes ≡ counted_up_to all.old.amount) }
        ensures sound { IfOk result IsSoundReport }
        ensures refused { IfErr result IsOfMemory }
        ensures amount { all.new.amount ≡ all.old.amount }
        ensures parts { all.new.parts ≡ all.old.parts }
    {
        self.shared().audit(all).map_err(|_| Error::memory())
    }
}

impl<P: Drop, L: Ledger, M, K, R: Clock + Wait> Shared<PoolState<P, LedgerCounter<L>>, M, K, R> {
    /// What the book reports, beside the share with all parts.
    pub(super) fn audit(&self, all: &mut Share<L>) -> Result<Report, AllocError>
        requires { all.old.parts ≡ L.parts }
        ensures takes { IfOk result (λ report. report.takes ≡ counted_up_to all.old.amount) }
        ensures sound { IfOk result IsSoundReport }
        ensures amount { all.new.amount ≡ all.old.amount }
        ensures parts { all.new.parts ≡ all.old.parts }
    {
        self.guarded.lock(&self.rt).audit(all)
    }
}
