//! Bytes into answers, in whatever pieces they come.

ghost use Rattle.std.specs.Prelude.{◌≡◌, ◌↔◌, ◌++◌, ℕ, List, [], IsTrue, IfOk, IfSome, IfNone, IfErr};
ghost use Rattle.std.specs.Prelude.{OnOk, OnErr, ◌≤◌, length};
ghost use Rattle.redis_codec.specs.Resp.{seen_all, Gives, Lasts};
ghost use Rattle.redis_codec.specs.Answers.{answer_at, IsWithin, Took, most_kept};

use crate::item::{CodecError, Item};
use crate::reading::Progress;
use std::alloc::{AllocError, Global};
use std::marker::Model;
use std::mem;

/// How much one answer may take, whatever lengths the server announces.
#[derive(Clone, Copy, Debug, PartialEq, Eq)]
pub struct Limits {
    /// The bytes of its texts and values.
    pub bytes: usize,
    /// How many parts it may have: a list is one, and each of its answers.
    pub parts: usize,
    /// How many lists may stand within one another.
    pub depth: usize,
}

/// Reads the answers of a stream. What it has read of an answer is kept, so no byte is read twice.
#[derive(Drop)]
pub struct Decoder {
    alloc: Global,
    limits: Limits,
    bytes: Vec<u8>,
    progress: Progress,
}

impl Model for Decoder {
    ghost use Rattle.redis_codec.specs.Answers.{Stream, Leads};

    ghost Value = { Stream };

    ghost view = { λ d. record { limits = d.limits; bytes = d.bytes.items } };

    ghost invariant = { λ d. Leads d.limits d.progress d.bytes.items };
}

impl Decoder {
    /// One that nothing came to yet.
    pub fn new(alloc: Global, limits: Limits) -> Result<Decoder, AllocError>
        ensures { IfOk result (λ d. d ≡ record { limits = limits; bytes = [] }) }
    {
        Ok(Decoder {
            alloc,
            limits,
            bytes: Vec::new(alloc),
            progress: Progress::new(alloc, limits)?,
        })
    }

    /// The next bytes of the stream. An answer that was whole is the same with them, so it does not
    /// matter in which pieces they come. The error is lack of memory, and changes nothing.
    pub fn feed(&mut self, piece: &[u8]) -> Result<(), AllocError>
        ensures ok { OnOk result
            (self.new ≡ record self.old { bytes = self.old.bytes ++ piece.now }) }
        ensures err { OnErr result (self.new ≡ self.old) }
        ensures same { Lasts piece.now (answer_at self.old.limits self.old.bytes)
            (answer_at self.old.limits (self.old.bytes ++ piece.now)) }
    {
        self.bytes.extend_from_slice(piece)
    }

    /// Whether no byte is there of which no answer was taken.
    pub fn is_empty(&self) -> bool
        ensures { IsTrue result ↔ (self.now.bytes ≡ []) }
    {
        self.bytes.is_empty()
    }

    /// Takes the answer in front of the bytes, once it is whole. None, and an error, take nothing.
    pub fn next(&mut self) -> Result<Option<Vec<Item>>, CodecError>
        ensures exact { Gives (λ items. (seen_all items.items, self.new.bytes)) result
            (answer_at self.old.limits self.old.bytes) }
        ensures within { IfOk result (λ found. IfSome found (λ items.
            IsWithin self.old.limits (seen_all items.items) self.new.bytes self.old.bytes)) }
        // No more is waited for than the limits allow, whatever lengths were announced.
        ensures bounded { IfOk result (λ found. IfNone found
            (length self.new.bytes ≤ most_kept self.old.limits)) }
        ensures limits { self.new.limits ≡ self.old.limits }
        ensures kept { IfOk result (Took self.old self.new) }
        ensures err { OnErr result (self.new ≡ self.old) }
    {
        let depth = self.limits.depth;
        if !self
            .progress
            .read_on(self.alloc, depth, self.bytes.as_slice())?
        {
            return Ok(None);
        }
        let (_, rest) = self.bytes.split_at(self.progress.at);
        let rest = Vec::from_slice(self.alloc, rest)?;
        let fresh = Progress::new(self.alloc, self.limits)?;
        let whole = mem::replace(&mut self.progress, fresh);
        self.bytes = rest;
        Ok(Some(whole.items))
    }
}
