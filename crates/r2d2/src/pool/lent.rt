// What a pool lent, from the book to the caller's drop.
ghost use Rattle.std.specs.Prelude.{◌≡◌};

use super::PoolRuntime;
use super::closing::Closer;
use crate::event::ReleaseReason;
use crate::hooks::PoolHooks;
use crate::payload::{Payload, PayloadOf};
use crate::{Extensions, ManageConnection};
use pool_state::engine::{Outcome, Settled, TakeTotal};
use std::alloc::{Allocator, Global};
use std::fmt;
use std::marker::Model;
use std::ops::{Deref, DerefMut};
use std::sync::Arc;
use std::time::Duration;

/// What the book lent.
#[derive(Drop)]
pub struct Lent<P> {
    pub(super) id: u64,
    pub(super) payload: P,
}

/// A connection that a pool lent, whatever counts its takes.
pub struct AnyConnection<C: TakeTotal, M: ManageConnection, K: PoolHooks<M>, R: PoolRuntime> {
    pub(super) closer: Arc<Closer<PayloadOf<M>, C, M, K, R>>,
    /// When it was lent.
    pub(super) lent_at: Duration,
    pub(super) lent: Lent<PayloadOf<M>>,
}

// Contracts see a lent connection as what can be reached through it, the settings of its pool, and
// how it was lent.
impl<C: TakeTotal, M: ManageConnection, K: PoolHooks<M>, R: PoolRuntime> Model
    for AnyConnection<C, M, K, R> {
    ghost use Rattle.std.specs.Arc.{arc_value};
    ghost use Rattle.r2d2.specs.Lent.{SeenConnection};

    ghost Value = { SeenConnection M.Connection M.Extension.Kind M.Extension K };

    ghost view = { λ l. record {
      connection = l.lent.payload.connection;
      extensions = l.lent.payload.extensions;
      settings = (arc_value
          (arc_value l.closer).shared).hooks;
      id = l.lent.id;
      lent_at = l.lent_at;
    } };
}

impl<C: TakeTotal, M: ManageConnection, K: PoolHooks<M>, R: PoolRuntime> AnyConnection<C, M, K, R> {
    ghost use Rattle.std.specs.Borrow.{sem, Lends};
    ghost use Rattle.r2d2.specs.contracts.extensions.Extensions.{the_row as extensions_row};
    ghost use Rattle.r2d2.specs.contracts.pool.lent.AnyConnection.{the_row};

    /// The number that the pool gave the connection when it was opened: that of the events and of
    /// the journal. No other connection of the pool ever has it.
    pub fn id(this: &Self) -> u64
        ensures { result ≡ this.now.id }
    {
        this.lent.id
    }

    /// When it was lent, as a time since the pool was made: the moment that the checkout event
    /// reports. If no handler of events was set it is that of the take, or, if the connection was
    /// checked, the moment after the check.
    pub fn lent_at(this: &Self) -> Duration
        ensures { result ≡ this.now.lent_at }
    {
        this.lent_at
    }

    /// Takes the connection out of the pool for good: it is the caller's from now on, and what was
    /// kept beside it is dropped. The pool orders another one by the same rules as after a broken
    /// return. The checkin event is sent, then the release event; the customizer is not called,
    /// since the connection is not closed.
    pub fn detach(this: Self) -> M::Connection
        ensures { result ≡ this.connection }
    {
        // Modelled in model/waiting.pml, as a return that is closed: keep both alike.
        let AnyConnection {
            closer,
            lent_at,
            lent,
        } = this;
        let Lent { id, payload, .. } = lent;
        let shared = &closer.shared;
        if shared.listens {
            shared.hooks.check_in(id, lent_at, shared.moment());
        }
        if let Settled::Gone(gone) = shared.settle(Outcome::Unsound { id, text: None }) {
            shared.hooks.gone(id, gone.age, ReleaseReason::Detached);
        }
        let Payload { connection, .. } = payload;
        connection
    }

    /// What is kept beside the connection. It stays with the connection from one caller to the
    /// next, until it is closed.
    pub fn extensions(this: &Self) -> &Extensions<M::Extension>
        ensures { result.now ≡ this.now.extensions }
    {
        &this.lent.payload.extensions
    }

    /// The same, to be changed.
    pub fn extensions_mut(this: &mut Self) -> &mut Extensions<M::Extension>
        ensures value { result.now ≡ this.old.extensions }
        ensures* writes_back { sem 𝓛 (Lends (the_row C.row M.row K.row R.row M.Connection.row
            M.Error.row M.Extension.row M.Extension.Kind.row K.Customizer.row C.TakeTotal
            M.Error.Display M.Extension.Extension M.Extension.Kind.PartialEq K.Customizer.Debug
            ⟦<Global as Allocator>⟧ ⟦<Global as Clone>⟧)
            (extensions_row M.Extension.row M.Extension.Kind.row
            M.Extension.Extension M.Extension.Kind.PartialEq) this.entry result
            (λ w. record this.old { extensions = w })) }
    {
        &mut this.lent.payload.extensions
    }
}

impl<C: TakeTotal, M: ManageConnection, K: PoolHooks<M>, R: PoolRuntime> Deref
    for AnyConnection<C, M, K, R> {
    type Target = M::Connection;

    ghost deref_gives = { λ lent connection. connection ≡ lent.connection };

    fn deref(&self) -> &M::Connection {
        &self.lent.payload.connection
    }
}

impl<C: TakeTotal, M: ManageConnection, K: PoolHooks<M>, R: PoolRuntime> DerefMut
    for AnyConnection<C, M, K, R> {
    ghost use Rattle.std.specs.Borrow.{sem, Lends};
    ghost use Rattle.r2d2.specs.contracts.pool.lent.AnyConnection.{the_row};

    ghost deref_mut_gives = { λ lent connection. connection ≡ lent.connection };

    fn deref_mut(&mut self) -> &mut M::Connection
        ensures value { result.now ≡ self.old.connection }
        ensures* writes_back { sem 𝓛 (Lends (the_row C.row M.row K.row R.row M.Connection.row
            M.Error.row M.Extension.row M.Extension.Kind.row K.Customizer.row C.TakeTotal
            M.Error.Display M.Extension.Extension M.Extension.Kind.PartialEq K.Customizer.Debug
            ⟦<Global as Allocator>⟧ ⟦<Global as Clone>⟧) M.Connection.row
            self.entry result
            (λ w. record self.old { connection = w })) }
    {
        &mut self.lent.payload.connection
    }
}

impl<C: TakeTotal, M: ManageConnection, K: PoolHooks<M>, R: PoolRuntime> fmt::Debug
    for AnyConnection<C, M, K, R>
where
    M::Connection: fmt::Debug,
{
    fn fmt<W: fmt::Write>(&self, f: &mut fmt::Formatter<W>) -> fmt::Result {
        fmt::Debug::fmt(&self.lent.payload.connection, f)
    }
}

impl<C: TakeTotal, M: ManageConnection, K: PoolHooks<M>, R: PoolRuntime> Drop
    for AnyConnection<C, M, K, R> {
    // Puts the connection back, and only then lets the pool go.
    fn drop(self) {
        // Modelled in model/waiting.pml: keep both alike.
        let AnyConnection {
            closer,
            lent_at,
            mut lent,
        } = self;
        let shared = &closer.shared;
        if shared.listens {
            shared.hooks.check_in(lent.id, lent_at, shared.moment());
        }
        let broken = shared.manager.has_broken(&mut lent.payload.connection);
        let unfit = if broken {
            Some(ReleaseReason::Broken)
        } else {
            None
        };
        if let Some(closed) = shared.give_back(lent, unfit) {
            shared.hooks.release(closed);
        }
    }
}
