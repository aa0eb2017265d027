//! Bytes into messages.

ghost use Rattle.std.specs.Prelude.{◌≡◌, IfOk};
ghost use Rattle.postgres_codec.specs.Frames.{Gives, GivesWhole};
ghost use Rattle.postgres_codec.specs.Messages.{seen, done_of, complete_of, ready_of, asked_of, field};
ghost use Rattle.postgres_codec.specs.Messages.{login_of, message_of, message_at};

use crate::error::{CodecError, Fault};
use crate::frame::frame_at;
use crate::mark::Mark;
use crate::message::{Asked, Done, Message, Refusal, Status};
use crate::row::{line_of, row_of};
use crate::text::{field, is, last_number, until};
use std::alloc::{AllocError, Global};

#[tactic(auto, unfolding(crate::specs::Messages::done_of))]
fn done_of(tag: &[u8]) -> Done
    ensures { result ≡ done_of tag.now }
{
    Done {
        rows: last_number(tag),
        mark: Mark::of_statement(until(b'0', b'9', tag)),
    }
}

#[tactic(auto, unfolding(crate::specs::Messages::complete_of))]
fn complete_of(body: &[u8]) -> Result<Message, CodecError>
    ensures { GivesWhole seen result (complete_of body.now) }
{
    let (tag, end) = body.split_at(body.len().saturating_sub(1));
    if is(end, &[0]) {
        Ok(Message::Complete(done_of(tag)))
    } else {
        Err(CodecError::Fault(Fault::Malformed))
    }
}

#[tactic(auto, unfolding(crate::specs::Messages::ready_of))]
fn ready_of(body: &[u8]) -> Result<Message, CodecError>
    ensures { GivesWhole seen result (ready_of body.now) }
{
    match body {
        _ if is(body, b"I") => Ok(Message::Ready(Status::Idle)),
        _ if is(body, b"T") => Ok(Message::Ready(Status::InTransaction)),
        _ if is(body, b"E") => Ok(Message::Ready(Status::InFailedTransaction)),
        _ => Err(CodecError::Fault(Fault::Malformed)),
    }
}

fn refusal_of(alloc: Global, body: &[u8]) -> Result<Refusal, AllocError>
    ensures { IfOk result (λ refusal. (refusal.severity.items ≡ field 86 body.now)
        × (refusal.state.items ≡ field 67 body.now) × (refusal.text.items ≡ field 77 body.now)) }
{
    Ok(Refusal {
        severity: Vec::from_slice(alloc, field(b'V', body))?,
        state: Vec::from_slice(alloc, field(b'C', body))?,
        text: Vec::from_slice(alloc, field(b'M', body))?,
    })
}

fn asked_of(number: u32) -> Asked
    ensures { result ≡ asked_of number }
{
    match number {
        0 => Asked::Nothing,
        5 => Asked::Md5,
        10 => Asked::Sasl,
        11 => Asked::SaslGoesOn,
        12 => Asked::SaslEnds,
        _ => Asked::Other,
    }
}

#[tactic(auto, unfolding(crate::specs::Messages::login_of))]
fn login_of(alloc: Global, body: &[u8]) -> Result<Message, CodecError>
    ensures { GivesWhole seen result (login_of body.now) }
{
    let [a, b, c, d, text @ ..] = body else {
        return Err(CodecError::Fault(Fault::Malformed));
    };
    let asked = asked_of(u32::from_be_bytes([*a, *b, *c, *d]));
    Ok(Message::Login(asked, Vec::from_slice(alloc, text)?))
}

#[tactic(auto, unfolding(crate::specs::Messages::message_of))]
fn message_of(alloc: Global, room: usize, kind: u8, body: &[u8]) -> Result<Message, CodecError>
    ensures { GivesWhole seen result (message_of room kind body.now) }
{
    match kind {
        b'Z' => ready_of(body),
        b'D' => Ok(Message::Row(row_of(alloc, room, body)?)),
        b'd' => Ok(Message::Row(line_of(alloc, room, body)?)),
        b'C' => complete_of(body),
        b'E' => Ok(Message::Refusal(refusal_of(alloc, body)?)),
        b'R' => login_of(alloc, body),
        b'K' => Ok(Message::Key(Vec::from_slice(alloc, body)?)),
        b'S' => Ok(Message::Setting),
        b'A' => Ok(Message::Notification),
        b'N' => Ok(Message::Notice),
        b'T' | b'I' | b'1' | b'2' | b'3' | b'H' | b'c' => Ok(Message::Passed),
        // As where a COPY waits for the client's lines.
        _ => Err(CodecError::Fault(Fault::Malformed)),
    }
}

/// The message in front of bytes, and the bytes after it, where room is left for so many. None: it
/// is not whole yet, and no memory was taken.
#[tactic(auto, unfolding(crate::specs::Messages::message_at))]
pub(crate) fn message_at(
    alloc: Global,
    room: usize,
    bytes: &[u8],
) -> Result<Option<(Message, &[u8])>, CodecError>
    ensures { Gives (λ it. (seen it.0, it.1.now)) result (message_at room bytes.now) }
{
    let Some(((kind, body), rest)) = frame_at(room, bytes)? else {
        return Ok(None);
    };
    let room = room.saturating_sub(5 + body.len());
    Ok(Some((message_of(alloc, room, kind, body)?, rest)))
}
