//! Reads an answer part by part, and goes on where it stopped.

ghost use Rattle.std.specs.Prelude.{◌≡◌, ◌<◌, ◌≤◌, true, false, [], Ok, IfOk, IfErr, IfSome};
ghost use Rattle.std.specs.Prelude.{OnOk, OnErr, length};
ghost use Rattle.redis_codec.specs.Resp.{seen, Short, Fails, Gives, GivesNumber};
ghost use Rattle.redis_codec.specs.Resp.{end_at, text_len, line_at, number_in, length_in};
ghost use Rattle.redis_codec.specs.Resp.{is_null, value_of, value_at, group_at, part_of};
ghost use Rattle.redis_codec.specs.Resp.{longest_line, part_at};
ghost use Rattle.redis_codec.specs.Answers.{weight, count_of, settled, lacking_after};
ghost use Rattle.redis_codec.specs.Answers.{is_too_deep, Follows, Begins, outcome};

use crate::decoder::Limits;
use crate::item::{CodecError, Fault, Item};
use memchr::memchr;
use std::alloc::{AllocError, Global};
use std::collections::VecDeque;

/// How many digits a length has at most.
const LENGTH: usize = 18;

// The bytes after the end of a line or of a value, once it is whole.
fn end_at(bytes: &[u8]) -> Result<Option<&[u8]>, CodecError>
    ensures { Gives (λ rest. rest.now) result (end_at bytes.now) }
{
    match bytes {
        [] | [b'\r'] => Ok(None),
        [b'\r', b'\n', rest @ ..] => Ok(Some(rest)),
        _ => Err(CodecError::Fault(Fault::Malformed)),
    }
}

// How long the text in front is, which has at most so many bytes.
fn text_len(most: usize, bytes: &[u8]) -> Result<Option<usize>, CodecError>
    ensures exact { Gives (λ n. n) result (text_len most bytes.now) }
    ensures within { IfOk result (λ found. IfSome found (λ n. n ≤ length bytes.now)) }
{
    let found = memchr(b'\r', bytes);
    if found.unwrap_or(bytes.len()) > most {
        return Err(CodecError::Fault(Fault::TooMuch));
    }
    Ok(found)
}

// The text in front, and what comes after its line.
#[tactic(auto, unfolding(crate::specs::Resp::line_at))]
fn line_at(most: usize, bytes: &[u8]) -> Result<Option<(&[u8], &[u8])>, CodecError>
    ensures { Gives (λ line. (line.0.now, line.1.now)) result (line_at most bytes.now) }
{
    let Some(len) = text_len(most, bytes)? else {
        return Ok(None);
    };
    let (text, end) = bytes.split_at(len);
    let Some(rest) = end_at(end)? else {
        return Ok(None);
    };
    Ok(Some((text, rest)))
}

// The number that is written in digits alone.
fn number(text: &[u8]) -> Option<usize>
    ensures exact { result ≡ number_in text.now }
    ensures small { IfSome result (λ n. n < 1_000_000_000_000_000_000) }
{
    if text.is_empty() {
        return None;
    }
    let mut number = 0;
    for digit in text {
        if *digit < b'0' || *digit > b'9' || number >= 100_000_000_000_000_000 {
            return None;
        }
        number = number * 10 + (*digit - b'0') as usize;
    }
    Some(number)
}

// The length of a value or of a list.
#[tactic(auto, unfolding(crate::specs::Resp::length_in))]
fn length_in(room: usize, text: &[u8]) -> Result<usize, CodecError>
    ensures exact { GivesNumber result (length_in room text.now) }
    ensures small { IfOk result (λ n. n < 1_000_000_000_000_000_000) }
{
    match number(text) {
        None => Err(CodecError::Fault(Fault::Malformed)),
        Some(number) if number > room => Err(CodecError::Fault(Fault::TooMuch)),
        Some(number) => Ok(number),
    }
}

#[tactic(auto, unfolding(crate::specs::Resp::is_null))]
fn is_null(text: &[u8]) -> bool
    ensures { result ≡ is_null text.now }
{
    text == b"-1".as_slice()
}

// A value of so many bytes. No memory is taken before they are there.
#[tactic(auto, unfolding(crate::specs::Resp::value_of))]
fn value_of(alloc: Global, len: usize, bytes: &[u8]) -> Result<Option<(Item, &[u8])>, CodecError>
    ensures { Gives (λ part. (seen part.0, part.1.now)) result (value_of len bytes.now) }
{
    if bytes.len() < len {
        return Ok(None);
    }
    let (value, end) = bytes.split_at(len);
    let Some(rest) = end_at(end)? else {
        return Ok(None);
    };
    Ok(Some((Item::Value(Vec::from_slice(alloc, value)?), rest)))
}

#[tactic(auto, unfolding(crate::specs::Resp::value_at))]
fn value_at<'a>(
    alloc: Global,
    room: usize,
    text: &[u8],
    bytes: &'a [u8],
) -> Result<Option<(Item, &'a [u8])>, CodecError>
    ensures { Gives (λ part. (seen part.0, part.1.now)) result
        (value_at room text.now bytes.now) }
{
    if is_null(text) {
        return Ok(Some((Item::Nothing, bytes)));
    }
    let len = length_in(room, text)?;
    value_of(alloc, len, bytes)
}

// A list, or where so many answers stand for one, as two for each pair of a map, those.
#[tactic(auto, unfolding(crate::specs::Resp::group_at))]
fn group_at<'a>(
    times: usize,
    room: usize,
    text: &[u8],
    bytes: &'a [u8],
) -> Result<Option<(Item, &'a [u8])>, CodecError>
    requires { times ≤ 2 }
    ensures { Gives (λ part. (seen part.0, part.1.now)) result
        (group_at times room text.now bytes.now) }
{
    if is_null(text) {
        return Ok(Some((Item::Nothing, bytes)));
    }
    let count = length_in(room, text)?;
    Ok(Some((Item::List(times * count), bytes)))
}

#[tactic(auto, unfolding(crate::specs::Resp::part_of))]
fn part_of<'a>(
    alloc: Global,
    room: usize,
    kind: u8,
    text: &[u8],
    bytes: &'a [u8],
) -> Result<Option<(Item, &'a [u8])>, CodecError>
    ensures { Gives (λ part. (seen part.0, part.1.now)) result
        (part_of room kind text.now bytes.now) }
{
    match kind {
        b'+' => Ok(Some((Item::Word(Vec::from_slice(alloc, text)?), bytes))),
        b'-' => Ok(Some((Item::Refusal(Vec::from_slice(alloc, text)?), bytes))),
        b':' => Ok(Some((Item::Number(Vec::from_slice(alloc, text)?), bytes))),
        b'$' => value_at(alloc, room, text, bytes),
        b'*' | b'~' => group_at(1, room, text, bytes),
        b'%' => group_at(2, room, text, bytes),
        b'_' => Ok(Some((Item::Nothing, bytes))),
        _ => Err(CodecError::Fault(Fault::Malformed)),
    }
}

// How long the line of a part may be. What says nothing in it takes no room, so it is short.
fn longest_line(room: usize, kind: u8) -> usize
    ensures { result ≡ longest_line room kind }
{
    match kind {
        b'$' | b'*' | b'~' | b'%' | b'_' => LENGTH,
        _ => room,
    }
}

#[tactic(auto, unfolding(crate::specs::Resp::part_at))]
fn part_at(alloc: Global, room: usize, bytes: &[u8]) -> Result<Option<(Item, &[u8])>, CodecError>
    ensures { Gives (λ part. (seen part.0, part.1.now)) result (part_at room bytes.now) }
{
    let [kind, bytes @ ..] = bytes else {
        return Ok(None);
    };
    let Some((text, bytes)) = line_at(longest_line(room, *kind), bytes)? else {
        return Ok(None);
    };
    part_of(alloc, room, *kind, text, bytes)
}

fn weight(item: &Item) -> usize
    ensures { result ≡ weight (seen item.now) }
{
    match item {
        Item::Word(bytes) | Item::Refusal(bytes) | Item::Number(bytes) | Item::Value(bytes) => {
            bytes.len()
        }
        Item::Nothing | Item::List(_) => 0,
    }
}

fn count_of(item: &Item) -> usize
    ensures { result ≡ count_of (seen item.now) }
{
    match item {
        Item::List(count) => *count,
        _ => 0,
    }
}

// Whether so many answers more would stand too deep, where so many lists are open.
fn is_too_deep(depth: usize, lists: usize, count: usize) -> bool
    ensures { result ≡ is_too_deep depth lists count }
{
    lists > depth && count > 0
}

// Takes away the lists that lack nothing any more.
fn settle(lacking: &mut VecDeque<usize>)
    ensures { lacking.new.items ≡ settled lacking.old.items }
{
    while lacking.front().copied() == Some(0) {
        lacking.pop_front();
    }
}

// One answer fewer is lacking, and so many more.
#[tactic(auto, unfolding(crate::specs::Answers::lacking_after))]
fn count_one(lacking: &mut VecDeque<usize>, more: usize) -> Result<(), AllocError>
    ensures ok { OnOk result (lacking.new.items ≡ lacking_after more lacking.old.items) }
    ensures err { OnErr result (lacking.new.items ≡ lacking.old.items) }
{
    lacking.reserve(1)?;
    if let Some(lacks) = lacking.pop_front() {
        lacking.push_front_reserved(lacks.saturating_sub(1));
        lacking.push_front_reserved(more);
        settle(lacking);
    }
    Ok(())
}

/// What is read of an answer: so many bytes, as these items.
#[derive(Drop)]
pub(crate) struct Progress {
    pub at: usize,
    pub items: Vec<Item>,
    // How many answers each open list lacks, the innermost first.
    pub lacking: VecDeque<usize>,
    // How many bytes of texts and values, and how many items, may still come.
    pub room: usize,
    pub left: usize,
}

impl Progress {
    /// Nothing is read yet.
    pub fn new(alloc: Global, limits: Limits) -> Result<Progress, AllocError>
        ensures { IfOk result (Begins limits) }
    {
        let mut lacking = VecDeque::new(alloc);
        lacking.push_back(1)?;
        Ok(Progress {
            at: 0,
            items: Vec::new(alloc),
            lacking,
            room: limits.bytes,
            left: limits.parts,
        })
    }

    /// Reads on, and says whether the answer is whole.
    pub fn read_on(&mut self, alloc: Global, depth: usize, bytes: &[u8]) -> Result<bool, CodecError>
        requires { self.old.at ≤ length bytes.now }
        ensures follows { Follows depth self.old self.new bytes.now }
        ensures whole { result ≡ Ok true → self.new.lacking.items ≡ [] }
        ensures short { result ≡ Ok false → outcome depth self.new bytes.now ≡ Short }
        ensures fault { IfErr result (λ e. Fails e (outcome depth self.new bytes.now)) }
    {
        while !self.lacking.is_empty() {
            if !self.read_part(alloc, depth, bytes)? {
                return Ok(false);
            }
        }
        Ok(true)
    }

    // Reads a part, and says whether one was there.
    fn read_part(&mut self, alloc: Global, depth: usize, bytes: &[u8]) -> Result<bool, CodecError>
        requires within { self.old.at ≤ length bytes.now }
        requires lacking { 0 < length self.old.lacking.items }
        ensures follows { Follows depth self.old self.new bytes.now }
        ensures fewer { result ≡ Ok true → self.new.left < self.old.left }
        ensures short { result ≡ Ok false → outcome depth self.new bytes.now ≡ Short }
        ensures fault { IfErr result (λ e. Fails e (outcome depth self.new bytes.now)) }
    {
        if self.left == 0 {
            return Err(CodecError::Fault(Fault::TooMuch));
        }
        let (_, unread) = bytes.split_at(self.at);
        let Some((item, rest)) = part_at(alloc, self.room, unread)? else {
            return Ok(false);
        };
        let at = bytes.len() - rest.len();
        let (weight, count) = (weight(&item), count_of(&item));
        if weight > self.room || is_too_deep(depth, self.lacking.len(), count) {
            return Err(CodecError::Fault(Fault::TooMuch));
        }
        self.items.reserve(1)?;
        count_one(&mut self.lacking, count)?;
        self.items.push_reserved(item);
        self.at = at;
        self.room -= weight;
        self.left -= 1;
        Ok(true)
    }
}
