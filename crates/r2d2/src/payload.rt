// What a pool lends, as its book keeps it, and how the connection in it is opened: this needs no
// book, and no lock.
ghost use Rattle.std.specs.Prelude.{◌≡◌, []};

use crate::{CustomizeConnection, Extension, Extensions, ManageConnection};
use std::alloc::Global;

/// A connection with its extensions, as a pool's book keeps it. The extensions stay with the
/// connection over its returns; at its admission there are none.
#[derive(Drop)]
pub struct Payload<C, X: Extension> {
    /// The connection.
    pub connection: C,
    /// What is kept beside it.
    pub extensions: Extensions<X>,
}

/// What a pool of this manager keeps.
pub type PayloadOf<M> = Payload<
    <M as ManageConnection>::Connection,
    <M as ManageConnection>::Extension,
>;

impl<C, X: Extension> Payload<C, X> {
    /// A new connection, without extensions. It takes no memory.
    pub fn new(alloc: Global, connection: C) -> Payload<C, X>
        ensures connection { result.connection ≡ connection }
        ensures extensions { result.extensions ≡ [] }
    {
        Payload {
            connection,
            extensions: Extensions::new(alloc),
        }
    }
}

/// Opens a connection, and shows it to the customizer.
pub fn open<M: ManageConnection, Z: CustomizeConnection<M::Connection, M::Error>>(
    manager: &M,
    customizer: &Z,
) -> Result<M::Connection, M::Error> {
    let mut connection = manager.connect()?;
    customizer.on_acquire(&mut connection)?;
    Ok(connection)
}
