//! What a client of Redis sends and reads, without a socket: requests into bytes, bytes into
//! answers, and what the server remembers of the caller. For connections of any kind.
#![tactic(auto)]

mod command;
mod conversation;
mod decoder;
mod item;
mod reading;
mod requests;
mod session;

pub use command::{Command, Said};
pub use conversation::Conversation;
pub use decoder::{Decoder, Limits};
pub use item::{CodecError, Fault, Item};
pub use requests::request;
pub use session::Session;
