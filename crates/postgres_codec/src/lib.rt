//! What a client of PostgreSQL sends and reads, without a socket: requests into bytes, bytes into
//! messages, and how the server was left. For connections of any kind.
#![tactic(auto)]

mod conversation;
mod error;
mod frame;
mod incoming;
mod mark;
mod message;
mod reading;
mod requests;
mod row;
mod text;

pub use conversation::Conversation;
pub use error::{CodecError, Fault};
pub use mark::Mark;
pub use message::{Asked, Done, Message, Refusal, Status};
pub use requests::{
    RequestError, cancel, close, password, prepare, prepared, query, query_with, sasl_first,
    sasl_next, start,
};
