// Who waits for a connection, in order, and who was notified. Nothing here waits: it is what the
// pool's lock guards.

mod links;
pub mod place;
pub mod queue;
mod ring;
pub mod search;
