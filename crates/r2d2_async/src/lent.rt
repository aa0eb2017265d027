// What a pool lent.
ghost use Rattle.std.specs.Prelude.{◌≡◌};

use crate::hooks::Hooks;
use crate::shared::{CloserOf, PayloadOf};
use crate::{AsyncRuntime, ManageConnection, Timer};
use r2d2::Extensions;
use r2d2::engine::{Outcome, Payload, Settled};
use r2d2::event::ReleaseReason;
use std::alloc::{Allocator, Global};
use std::fmt;
use std::marker::Model;
use std::ops::{Deref, DerefMut};
use std::sync::Arc;
use std::time::Duration;

/// A connection that a pool lent: it derefs to yours. It goes back to the pool when it is dropped,
/// which waits for nothing, and keeps the pool alive until then.
pub struct PooledConnection<M: ManageConnection, T: Timer, K: Hooks<M>, R: AsyncRuntime> {
    pub(crate) closer: Arc<CloserOf<M, T, K, R>>,
    pub(crate) id: u64,
    pub(crate) lent_at: Duration,
    pub(crate) payload: PayloadOf<M>,
}

// Contracts see a lent connection as what can be reached through it, the settings of its pool, and
// how it was lent.
impl<M: ManageConnection, T: Timer, K: Hooks<M>, R: AsyncRuntime> Model
    for PooledConnection<M, T, K, R> {
    ghost use Rattle.std.specs.Arc.{arc_value};
    ghost use Rattle.r2d2.specs.Lent.{SeenConnection};
    ghost use Rattle.r2d2.specs.Settings.{BareSettings};

    ghost Value = { SeenConnection M.Connection M.Extension.Kind M.Extension BareSettings };

    ghost view = { λ l. record {
      connection = l.payload.connection;
      extensions = l.payload.extensions;
      settings = (arc_value (arc_value l.closer).shared).settings;
      id = l.id;
      lent_at = l.lent_at;
    } };
}

impl<M: ManageConnection, T: Timer, K: Hooks<M>, R: AsyncRuntime> PooledConnection<M, T, K, R> {
    ghost use Rattle.std.specs.Borrow.{sem, Lends};
    ghost use Rattle.r2d2.specs.contracts.extensions.Extensions.{the_row as extensions_row};
    ghost use Rattle.r2d2_async.specs.contracts.lent.PooledConnection.{the_row};

    /// The number that the pool gave the connection when it was opened: that of the events and of
    /// the journal. No other connection of the pool ever has it.
    pub fn id(this: &Self) -> u64
        ensures { result ≡ this.now.id }
    {
        this.id
    }

    /// When it was lent, as a time since the pool was made.
    pub fn lent_at(this: &Self) -> Duration
        ensures { result ≡ this.now.lent_at }
    {
        this.lent_at
    }

    /// Takes the connection out of the pool for good: it is the caller's from now on, and what was
    /// kept beside it is dropped. The pool orders another one by the same rules as after a broken
    /// return. The checkin event is sent, then the release event; the customizer is not called,
    /// since the connection is not closed.
    pub fn detach(this: Self) -> M::Connection
        ensures { result ≡ this.connection }
    {
        let PooledConnection {
            closer,
            id,
            lent_at,
            payload,
        } = this;
        let shared = &closer.shared;
        if shared.settings.listens {
            shared.hooks.check_in(id, lent_at, shared.moment());
        }
        if let Some(Settled::Gone(gone)) = shared.settle(Outcome::Unsound { id, text: None }) {
            shared.hooks.gone(id, gone.age, ReleaseReason::Detached);
        }
        let Payload { connection, .. } = payload;
        connection
    }

    /// What is kept beside the connection. It stays with the connection from one caller to the
    /// next, until it is closed.
    pub fn extensions(this: &Self) -> &Extensions<M::Extension>
        ensures { result.now ≡ this.now.extensions }
    {
        &this.payload.extensions
    }

    /// The same, to be changed.
    pub fn extensions_mut(this: &mut Self) -> &mut Extensions<M::Extension>
        ensures value { result.now ≡ this.old.extensions }
        ensures* writes_back { sem 𝓛 (Lends (the_row M.row T.row K.row R.row M.Connection.row
            M.Error.row M.Extension.row M.Connect.row M.Check.row M.Extension.Kind.row T.Sleep.row
            M.Error.Display M.Extension.Extension M.Extension.Kind.PartialEq M.Connect.Future
            M.Check.Future T.Sleep.Future
            ⟦<Global as Allocator>⟧ ⟦<Global as Clone>⟧)
            (extensions_row M.Extension.row M.Extension.Kind.row
            M.Extension.Extension M.Extension.Kind.PartialEq) this.entry result
            (λ w. record this.old { extensions = w })) }
    {
        &mut this.payload.extensions
    }
}

impl<M: ManageConnection, T: Timer, K: Hooks<M>, R: AsyncRuntime> Deref
    for PooledConnection<M, T, K, R> {
    type Target = M::Connection;

    ghost deref_gives = { λ lent connection. connection ≡ lent.connection };

    fn deref(&self) -> &M::Connection {
        &self.payload.connection
    }
}

impl<M: ManageConnection, T: Timer, K: Hooks<M>, R: AsyncRuntime> DerefMut
    for PooledConnection<M, T, K, R> {
    ghost deref_mut_gives = { λ lent connection. connection ≡ lent.connection };

    fn deref_mut(&mut self) -> &mut M::Connection {
        &mut self.payload.connection
    }
}

impl<M: ManageConnection, T: Timer, K: Hooks<M>, R: AsyncRuntime> fmt::Debug
    for PooledConnection<M, T, K, R>
where
    M::Connection: fmt::Debug,
{
    fn fmt<W: fmt::Write>(&self, f: &mut fmt::Formatter<W>) -> fmt::Result {
        fmt::Debug::fmt(&self.payload.connection, f)
    }
}

impl<M: ManageConnection, T: Timer, K: Hooks<M>, R: AsyncRuntime> Drop
    for PooledConnection<M, T, K, R> {
    // Puts the connection back, and only then lets the pool go.
    fn drop(self) {
        let PooledConnection {
            closer,
            id,
            lent_at,
            mut payload,
        } = self;
        let shared = &closer.shared;
        if shared.settings.listens {
            shared.hooks.check_in(id, lent_at, shared.moment());
        }
        let broken = shared.manager.has_broken(&mut payload.connection);
        let unfit = if broken {
            Some(ReleaseReason::Broken)
        } else {
            None
        };
        shared.put_back(id, payload, unfit);
    }
}
