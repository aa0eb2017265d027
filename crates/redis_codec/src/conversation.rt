//! Requests and their answers: each answer is that of its own request.

ghost use Rattle.std.specs.Prelude.{◌≡◌, ◌≢◌, ◌↔◌, ◌++◌, [], length, Err, IsTrue, IfOk, IfSome, IfNone, IsSome};
ghost use Rattle.std.specs.Prelude.{OnOk, OnErr};
ghost use Rattle.redis_codec.specs.declared.item.CodecError.TheVariants.{Unasked};
ghost use Rattle.redis_codec.specs.Requests.{request as bytes_of_request, bytes_of};
ghost use Rattle.redis_codec.specs.Resp.{seen_all, Found};
ghost use Rattle.redis_codec.specs.Answers.{answer_at};
ghost use Rattle.redis_codec.specs.Sessions.{command_of, plain};
ghost use Rattle.redis_codec.specs.Talks.{asked, answered};

use crate::command::{Command, Said};
use crate::decoder::{Decoder, Limits};
use crate::item::{CodecError, Item};
use crate::requests::request;
use crate::session::Session;
use std::alloc::{AllocError, Global};
use std::collections::VecDeque;
use std::marker::Model;

/// What is said over one connection.
#[derive(Drop)]
pub struct Conversation {
    alloc: Global,
    decoder: Decoder,
    owed: VecDeque<Command>,
    session: Session,
}

impl Model for Conversation {
    ghost use Rattle.redis_codec.specs.Talks.{Talk};

    ghost Value = { Talk };

    ghost view = { λ c. record {
      limits = c.decoder.limits;
      bytes = c.decoder.bytes;
      owed = c.owed.items;
      session = c.session;
    } };
}

impl Conversation {
    /// One over a connection that was just opened.
    pub fn new(alloc: Global, limits: Limits) -> Result<Conversation, AllocError>
        ensures { IfOk result
            (λ c. c ≡ record { limits = limits; bytes = []; owed = []; session = plain }) }
    {
        Ok(Conversation {
            alloc,
            decoder: Decoder::new(alloc, limits)?,
            owed: VecDeque::new(alloc),
            session: Session::PLAIN,
        })
    }

    /// The bytes of a request, which have to be sent. The error is lack of memory, and changes
    /// nothing.
    pub fn ask(&mut self, words: &[&[u8]]) -> Result<Vec<u8>, AllocError>
        ensures bytes { IfOk result
            (λ bytes. bytes.items ≡ bytes_of_request (bytes_of words.now)) }
        ensures ok { OnOk result
            (self.new ≡ asked (command_of (bytes_of words.now)) self.old) }
        ensures err { OnErr result (self.new ≡ self.old) }
    {
        let bytes = request(self.alloc, words)?;
        self.expect(Command::of(words))?;
        Ok(bytes)
    }

    /// The same for a request whose bytes were made before, by `request`: an answer to this command
    /// is waited for from now on. The error is lack of memory, and changes nothing.
    pub fn expect(&mut self, command: Command) -> Result<(), AllocError>
        ensures ok { OnOk result (self.new ≡ asked command self.old) }
        ensures err { OnErr result (self.new ≡ self.old) }
    {
        self.owed.push_back(command)?;
        Ok(())
    }

    /// The next bytes that came. The error is lack of memory, and changes nothing.
    pub fn feed(&mut self, piece: &[u8]) -> Result<(), AllocError>
        ensures ok { OnOk result
            (self.new ≡ record self.old { bytes = self.old.bytes ++ piece.now }) }
        ensures err { OnErr result (self.new ≡ self.old) }
    {
        self.decoder.feed(piece)
    }

    /// The answer to the request that waits for the longest, once it is whole.
    pub fn answer(&mut self) -> Result<Option<Vec<Item>>, CodecError>
        ensures some { IfOk result (λ found. IfSome found (λ items.
            (answer_at self.old.limits self.old.bytes
            ≡ Found (seen_all items.items, self.new.bytes))
            × (self.new ≡ answered (seen_all items.items) self.new.bytes self.old))) }
        ensures none { IfOk result (λ found. IfNone found (self.new ≡ self.old)) }
        ensures err { OnErr result (self.new ≡ self.old) }
        ensures unasked { (result ≡ Err Unasked)
            ↔ ((self.old.owed ≡ []) × (self.old.bytes ≢ [])) }
        ensures owed { IfOk result (λ found. IsSome found → self.old.owed ≢ []) }
    {
        let Some(command) = self.owed.front().copied() else {
            return if self.decoder.is_empty() {
                Ok(None)
            } else {
                Err(CodecError::Unasked)
            };
        };
        let Some(items) = self.decoder.next()? else {
            return Ok(None);
        };
        self.session = self.session.after(command, Said::of(items.as_slice()));
        self.owed.pop_front();
        Ok(Some(items))
    }

    /// Whether each request has its answer, and nothing else came.
    pub fn is_settled(&self) -> bool
        ensures { IsTrue result ↔ ((self.now.owed ≡ []) × (self.now.bytes ≡ [])) }
    {
        self.owed.is_empty() && self.decoder.is_empty()
    }

    /// How many requests still lack their answer.
    pub fn owed(&self) -> usize
        ensures { result ≡ length self.now.owed }
    {
        self.owed.len()
    }

    /// What the answers so far say of the session.
    pub fn session(&self) -> Session
        ensures { result ≡ self.now.session }
    {
        self.session
    }

    /// What was said so far is how each session begins.
    pub fn begin(&mut self)
        ensures { self.new ≡ record self.old { session = plain } }
    {
        self.session = Session::PLAIN;
    }
}
