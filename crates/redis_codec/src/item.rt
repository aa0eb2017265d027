//! What is read.

ghost use Rattle.std.specs.Prelude.{◌≡◌};
ghost use Rattle.redis_codec.specs.declared.item.CodecError.TheVariants.{Memory};

use std::alloc::{AllocError, AllocFailed};

/// A part of an answer. An answer is one, or a `List` and behind it the answers that it has.
#[derive(Debug, Drop, PartialEq, Eq)]
pub enum Item {
    /// A word, as `OK`.
    Word(Vec<u8>),
    /// The server's own words.
    Refusal(Vec<u8>),
    /// The text of a whole number.
    Number(Vec<u8>),
    /// Any bytes.
    Value(Vec<u8>),
    /// There is no such value.
    Nothing,
    /// So many answers follow. Those of a map are its keys, each with its value behind it.
    List(usize),
}

/// Why bytes are no answer, however they go on.
#[derive(Clone, Copy, Debug, PartialEq, Eq)]
pub enum Fault {
    /// They are not RESP.
    Malformed,
    /// They have, or announce, more than the limits allow.
    TooMuch,
}

/// Why there is no answer.
#[derive(Debug, Drop)]
pub enum CodecError {
    Memory,
    Fault(Fault),
    /// Bytes came that nobody asked for.
    Unasked,
}

impl From<AllocError> for CodecError {
    ghost from_gives = { λ _ e. e ≡ Memory };

    fn from(_error: AllocError) -> CodecError {
        CodecError::Memory
    }
}

impl<T: Drop> From<AllocFailed<T>> for CodecError {
    ghost from_gives = { λ _ e. e ≡ Memory };

    fn from(_error: AllocFailed<T>) -> CodecError {
        CodecError::Memory
    }
}
