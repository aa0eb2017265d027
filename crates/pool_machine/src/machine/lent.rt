// A connection that is lent.
ghost use Rattle.std.specs.Prelude.{◌≡◌};
ghost use Rattle.std.specs.Duration.{as_nanos};

use super::roster::HasId;
use std::marker::Model;
use std::time::Duration;

/// Its id, and the moment of its admission.
#[derive(Drop)]
pub struct LentConnection {
    id: u64,
    birth: Duration,
}

impl Model for LentConnection {
    ghost use Rattle.std.specs.Duration.{as_nanos};
    ghost use Rattle.pool_machine.specs.Connections.{SeenLentConnection, lent_connection};

    ghost Value = { SeenLentConnection };

    ghost view = { λ a. lent_connection a.id (as_nanos a.birth) };
}

impl LentConnection {
    ghost use Rattle.pool_machine.specs.Connections.{lent_connection};

    pub fn new(id: u64, birth: Duration) -> LentConnection
        ensures { result ≡ lent_connection id (as_nanos birth) }
    {
        LentConnection { id, birth }
    }

    pub fn birth(&self) -> Duration
        ensures { as_nanos result ≡ self.now.birth }
    {
        self.birth
    }
}

impl HasId for LentConnection {
    ghost use Rattle.pool_machine.specs.Connections.{id_of_lent};

    ghost id_of = { id_of_lent };

    fn id(&self) -> u64 {
        self.id
    }
}
