//! The values of a row.

ghost use Rattle.std.specs.Prelude.{[]};
ghost use Rattle.postgres_codec.specs.Frames.{GivesWhole};
ghost use Rattle.postgres_codec.specs.Messages.{seen_value, seen_values};
ghost use Rattle.postgres_codec.specs.Messages.{bytes_at, value_at, values_after, row_of, line_of};

use crate::error::{CodecError, Fault};
use std::alloc::Global;

/// What stands in place of a length where a value is NULL.
const NULL: usize = 0xffff_ffff;
/// What a value takes beside its bytes.
pub(crate) const VALUE: usize = 32;

// A value of such a length, and what comes after it.
#[tactic(auto, unfolding(crate::specs::Messages::bytes_at))]
fn bytes_at(
    alloc: Global,
    length: usize,
    bytes: &[u8],
) -> Result<(Option<Vec<u8>>, &[u8]), CodecError>
    ensures { GivesWhole (λ it. (seen_value it.0, it.1.now)) result (bytes_at length bytes.now) }
{
    if length == NULL {
        return Ok((None, bytes));
    }
    if bytes.len() < length {
        return Err(CodecError::Fault(Fault::Malformed));
    }
    let (value, rest) = bytes.split_at(length);
    Ok((Some(Vec::from_slice(alloc, value)?), rest))
}

#[tactic(auto, unfolding(crate::specs::Messages::value_at))]
fn value_at(alloc: Global, bytes: &[u8]) -> Result<(Option<Vec<u8>>, &[u8]), CodecError>
    ensures { GivesWhole (λ it. (seen_value it.0, it.1.now)) result (value_at bytes.now) }
{
    let [a, b, c, d, bytes @ ..] = bytes else {
        return Err(CodecError::Fault(Fault::Malformed));
    };
    bytes_at(alloc, u32::from_be_bytes([*a, *b, *c, *d]) as usize, bytes)
}

// So many values, which are all there is. Memory is taken for those that are there alone.
fn values_in(alloc: Global, count: u16, bytes: &[u8]) -> Result<Vec<Option<Vec<u8>>>, CodecError>
    ensures { GivesWhole (λ values. seen_values values.items) result
        (values_after [] count bytes.now) }
{
    let mut values = Vec::new(alloc);
    let mut rest = bytes;
    for _ in 0..count {
        let (value, after) = value_at(alloc, rest)?;
        values.push(value)?;
        rest = after;
    }
    if !rest.is_empty() {
        return Err(CodecError::Fault(Fault::Malformed));
    }
    Ok(values)
}

/// The values of a row, where room is left for so many bytes.
#[tactic(auto, unfolding(crate::specs::Messages::row_of))]
pub(crate) fn row_of(
    alloc: Global,
    room: usize,
    body: &[u8],
) -> Result<Vec<Option<Vec<u8>>>, CodecError>
    ensures { GivesWhole (λ values. seen_values values.items) result (row_of room body.now) }
{
    let [a, b, values @ ..] = body else {
        return Err(CodecError::Fault(Fault::Malformed));
    };
    let count = u16::from_be_bytes([*a, *b]);
    if count as usize * VALUE > room {
        return Err(CodecError::Fault(Fault::TooMuch));
    }
    values_in(alloc, count, values)
}

/// A line of a COPY, where room is left for so many bytes: the only value of a row.
#[tactic(auto, unfolding(crate::specs::Messages::line_of))]
pub(crate) fn line_of(
    alloc: Global,
    room: usize,
    body: &[u8],
) -> Result<Vec<Option<Vec<u8>>>, CodecError>
    ensures { GivesWhole (λ values. seen_values values.items) result (line_of room body.now) }
{
    if VALUE > room {
        return Err(CodecError::Fault(Fault::TooMuch));
    }
    let mut values = Vec::new(alloc);
    values.push(Some(Vec::from_slice(alloc, body)?))?;
    Ok(values)
}
