// What a worker does: it opens connections, closes expired ones, and waits for either.
ghost use Rattle.std.specs.Prelude.{◌≡◌, length, vec_len, vec_capacity};

use super::PoolRuntime;
use super::locking::SharedOf;
use crate::ManageConnection;
use crate::event::ReleaseReason;
use crate::hooks::PoolHooks;
use crate::payload::{Payload, PayloadOf, open};
use pool_state::engine::{Outcome, TakeTotal};
use pool_state::{PoolState, has_room, reason_of_reap, text_of};
use r2d2_core::{Job, Limits, Refusal, Released};
use std::sync::MutexGuard;
use std::time::Duration;

impl<C: TakeTotal, M: ManageConnection, K: PoolHooks<M>, R: PoolRuntime> SharedOf<C, M, K, R> {
    /// Does what is due, and waits if nothing is, until the pool is closed. The list is for the
    /// connections that a reap closes.
    pub(super) fn work(&self, mut expired: Vec<Released<PayloadOf<M>>>) {
        // Modelled in model/waiting.pml: keep both alike.
        let mut seen = Duration::ZERO;
        for _ in self.rt.forever() {
            let mut guarded = self.lock();
            let now = self.moment();
            seen = seen.max(now);
            match guarded.begin(now) {
                Job::Open { tries } => {
                    drop(guarded);
                    self.open(tries);
                }
                Job::Reap => {
                    let limits = guarded.book().limits();
                    self.reap(guarded, &mut expired);
                    self.release_expired(limits, &mut expired);
                }
                Job::Wait(due) => {
                    // Not from `now`, which is zero where the clock can't be read.
                    let left = due.saturating_sub(seen);
                    let _woken = self.workers.wait_timeout(&self.rt, guarded, left);
                }
                Job::Nothing => {
                    let _woken = self.workers.wait(&self.rt, guarded);
                }
                Job::Closed => return,
            }
        }
    }

    // One opening, after so many failures. The lock is not held while the manager and the
    // customizer are called.
    fn open(&self, tries: u32) {
        // Modelled in model/waiting.pml: keep both alike.
        match open(&self.manager, self.hooks.customizer()) {
            Ok(connection) => self.admit(tries, connection),
            Err(error) => {
                let text = text_of(self.rt.alloc(), &error);
                self.fail(tries, text);
                self.hooks.error(error);
            }
        }
    }

    // Gives an opened connection its id, reports it, and admits it.
    fn admit(&self, tries: u32, connection: M::Connection) {
        // Modelled in model/waiting.pml: keep both alike.
        match self.number(tries) {
            Ok(id) => {
                self.hooks.acquire(id);
                let value = Payload::new(self.rt.alloc(), connection);
                self.settle(Outcome::Opened { id, value });
            }
            Err(Refusal::IdsUsedUp) => {
                drop(connection);
                self.fail(tries, None);
            }
            // A pool that was closed meanwhile has no use for it.
            Err(Refusal::Closed) => drop(connection),
            // None other comes, since the opening is in work.
            Err(_) => {}
        }
    }

    // Closes what is expired, into the list. It is empty and has room for all; but of a locked book
    // its type alone is known, so this asks.
    fn reap(
        &self,
        mut guarded: MutexGuard<'_, PoolState<PayloadOf<M>, C>>,
        expired: &mut Vec<Released<PayloadOf<M>>>,
    ) {
        if !has_room(guarded.book(), expired) {
            return;
        }
        let (_ordered, to_wake) = guarded.reap(self.moment(), expired);
        drop(guarded);
        self.wake(to_wake);
    }

    // Releases what a reap closed.
    fn release_expired(&self, limits: Limits, expired: &mut Vec<Released<PayloadOf<M>>>)
        ensures empty { vec_len expired.new ≡ 0 }
        ensures room { vec_capacity expired.new ≡ vec_capacity expired.old }
    {
        for released in expired.drain(..) {
            let reason = reason_of_reap(&limits, released.age);
            self.release(released, reason);
        }
    }
}
