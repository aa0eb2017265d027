//! Where a message ends.

ghost use Rattle.std.specs.Prelude.{◌<◌, ◌^◌};
ghost use Rattle.postgres_codec.specs.Frames.{Gives, body_at, frame_at};

use crate::error::{CodecError, Fault};

/// A kind and a body, as they stand in bytes.
pub(crate) type Frame<'a> = (u8, &'a [u8]);

// The body of a message of such a length, and the bytes after it.
#[tactic(auto, unfolding(crate::specs::Frames::body_at))]
fn body_at(
    room: usize,
    kind: u8,
    length: usize,
    bytes: &[u8],
) -> Result<Option<(Frame<'_>, &[u8])>, CodecError>
    requires { length < 2 ^ 32 }
    ensures { Gives (λ it. (record { kind = it.0.0; body = it.0.1.now }, it.1.now)) result
        (body_at room kind length bytes.now) }
{
    let Some(size) = length.checked_sub(4) else {
        return Err(CodecError::Fault(Fault::Malformed));
    };
    if length + 1 > room {
        return Err(CodecError::Fault(Fault::TooMuch));
    }
    if bytes.len() < size {
        return Ok(None);
    }
    let (body, rest) = bytes.split_at(size);
    Ok(Some(((kind, body), rest)))
}

/// The message in front of bytes, and the bytes after it; `room` is how many it may have. None: it
/// is not whole yet. No memory is taken.
#[tactic(auto, unfolding(crate::specs::Frames::frame_at))]
pub(crate) fn frame_at(room: usize, bytes: &[u8]) -> Result<Option<(Frame<'_>, &[u8])>, CodecError>
    ensures { Gives (λ it. (record { kind = it.0.0; body = it.0.1.now }, it.1.now)) result
        (frame_at room bytes.now) }
{
    let [kind, a, b, c, d, bytes @ ..] = bytes else {
        return Ok(None);
    };
    let length = u32::from_be_bytes([*a, *b, *c, *d]);
    body_at(room, *kind, length as usize, bytes)
}
