//! What fails.

ghost use Rattle.std.specs.Prelude.{◌≡◌};
ghost use Rattle.postgres_codec.specs.declared.error.CodecError.TheVariants.{Memory};

use std::alloc::{AllocError, AllocFailed};

/// Why bytes are no message, however they go on.
#[derive(Clone, Copy, Debug, PartialEq, Eq)]
pub enum Fault {
    /// They are not what the protocol says, or what a client of these requests knows.
    Malformed,
    /// They have, or announce, more than the limit allows.
    TooMuch,
}

/// Why there is no message.
#[derive(Debug, Drop)]
pub enum CodecError {
    Memory,
    Fault(Fault),
    /// Bytes came that nobody asked for.
    Unasked,
}

impl From<AllocError> for CodecError {
    ghost from_gives = { λ _ e. e ≡ Memory };

    fn from(_error: AllocError) -> CodecError {
        CodecError::Memory
    }
}

impl<T: Drop> From<AllocFailed<T>> for CodecError {
    ghost from_gives = { λ _ e. e ≡ Memory };

    fn from(_error: AllocFailed<T>) -> CodecError {
        CodecError::Memory
    }
}
