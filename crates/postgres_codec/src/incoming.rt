//! The bytes that came, and were not taken yet.

ghost use Rattle.std.specs.Prelude.{◌≡◌, ◌↔◌, ◌≤◌, ◌++◌, [], drop, length, IsTrue, OnOk, OnErr};

use std::alloc::{AllocError, Global};
use std::marker::Model;

/// Bytes that came, of which some in front were taken.
#[derive(Drop)]
pub(crate) struct Incoming {
    alloc: Global,
    bytes: Vec<u8>,
    at: usize,
}

impl Model for Incoming {
    ghost use Rattle.std.specs.Prelude.{ℕ, ◌≤◌, List, drop, length};

    ghost Value = { List ℕ };

    ghost view = { λ i. drop i.at i.bytes.items };

    ghost invariant = { λ i. i.at ≤ length i.bytes.items };
}

impl Incoming {
    pub fn new(alloc: Global) -> Incoming
        ensures { result ≡ [] }
    {
        Incoming {
            alloc,
            bytes: Vec::new(alloc),
            at: 0,
        }
    }

    /// The next ones. Memory is taken for them alone. The error changes nothing.
    pub fn feed(&mut self, piece: &[u8]) -> Result<(), AllocError>
        ensures ok { OnOk result (self.new ≡ self.old ++ piece.now) }
        ensures err { OnErr result (self.new ≡ self.old) }
    {
        if self.at == 0 {
            return self.bytes.extend_from_slice(piece);
        }
        let mut bytes = Vec::from_slice(self.alloc, self.unread())?;
        bytes.extend_from_slice(piece)?;
        self.bytes = bytes;
        self.at = 0;
        Ok(())
    }

    pub fn unread(&self) -> &[u8]
        ensures { result.now ≡ self.now }
    {
        let (_, unread) = self.bytes.split_at(self.at);
        unread
    }

    /// So many are taken.
    pub fn take(&mut self, count: usize)
        requires { count ≤ length self.old }
        ensures { self.new ≡ drop count self.old }
    {
        self.at += count;
    }

    pub fn is_empty(&self) -> bool
        ensures { IsTrue result ↔ (self.now ≡ []) }
    {
        self.unread().is_empty()
    }
}
