//! Requests and what comes of them: each end is that of its own request.

ghost use Rattle.std.specs.Prelude.{◌≡◌, ◌≢◌, ◌↔◌, ◌<◌, ◌++◌, [], Err, IsTrue, IfOk, IfSome, IfNone};
ghost use Rattle.std.specs.Prelude.{OnOk, OnErr, ◌+◌, ◌-◌, ◌*◌, ◌≤◌, length, max};
ghost use Rattle.postgres_codec.specs.declared.error.CodecError.TheVariants.{Unasked};
ghost use Rattle.postgres_codec.specs.Frames.{Gives, Lasts};
ghost use Rattle.postgres_codec.specs.Messages.{seen, message_at};
ghost use Rattle.postgres_codec.specs.Talks.{asked, told, read, count_in};

use crate::error::CodecError;
use crate::incoming::Incoming;
use crate::mark::Mark;
use crate::message::Message;
use crate::reading::message_at;
use crate::row::VALUE;
use std::alloc::{AllocError, Global};
use std::marker::Model;

/// What is said over one connection.
#[derive(Drop)]
pub struct Conversation {
    alloc: Global,
    incoming: Incoming,
    limit: usize,
    room: usize,
    owed: usize,
    mark: Mark,
}

impl Model for Conversation {
    ghost use Rattle.postgres_codec.specs.Talks.{Talk};

    ghost Value = { Talk };

    ghost view = { λ c. record {
      limit = c.limit;
      room = c.room;
      bytes = c.incoming;
      owed = c.owed;
      mark = c.mark;
    } };
}

impl Conversation {
    /// One over a connection that was just opened. An answer may have so many bytes, and 32 fewer
    /// for each value in it.
    pub fn new(alloc: Global, limit: usize) -> Conversation
        ensures { result ≡ record {
          limit = limit;
          room = limit;
          bytes = [];
          owed = 0;
          mark = Mark.Plain;
        } }
    {
        Conversation {
            alloc,
            incoming: Incoming::new(alloc),
            limit,
            room: limit,
            owed: 0,
            mark: Mark::Plain,
        }
    }

    /// From here on an answer may have so many.
    pub fn allow(&mut self, limit: usize)
        ensures { self.new ≡ record self.old { limit = limit; room = limit } }
    {
        self.limit = limit;
        self.room = limit;
    }

    /// A request is about to be sent: its end is waited for from now on. A login is one.
    pub fn expect(&mut self)
        ensures { self.new ≡ asked self.old }
    {
        self.owed = self.owed.saturating_add(1);
    }

    /// The next bytes that came, in whatever pieces: a message that was whole is the same with
    /// them. The error is lack of memory, and changes nothing.
    pub fn feed(&mut self, piece: &[u8]) -> Result<(), AllocError>
        ensures ok { OnOk result
            (self.new ≡ record self.old { bytes = self.old.bytes ++ piece.now }) }
        ensures err { OnErr result (self.new ≡ self.old) }
        ensures same { Lasts piece.now (message_at self.old.room self.old.bytes)
            (message_at self.old.room (self.old.bytes ++ piece.now)) }
    {
        self.incoming.feed(piece)
    }

    /// The next message, once it is whole. None, and an error, take nothing.
    pub fn next(&mut self) -> Result<Option<Message>, CodecError>
        ensures exact { 0 < self.old.owed → Gives (λ message. (seen message, self.new.bytes))
            result (message_at self.old.room self.old.bytes) }
        ensures some { IfOk result (λ found. IfSome found (λ message.
            (0 < self.old.owed) × (self.new ≡ read (seen message) self.new.bytes self.old))) }
        // An answer takes no more than there is room for: its bytes, and 32 for each value in it.
        ensures within { IfOk result (λ found. IfSome found (λ message.
            length self.old.bytes - length self.new.bytes + 32 * count_in (seen message)
            ≤ self.old.room)) }
        ensures none { IfOk result (λ found. IfNone found (self.new ≡ self.old)) }
        // What is waited with is less than that, whatever length was announced.
        ensures bounded { IfOk result (λ found. IfNone found
            (length self.new.bytes < max self.old.room 5)) }
        ensures err { OnErr result (self.new ≡ self.old) }
        ensures unasked { (result ≡ Err Unasked)
            ↔ ((self.old.owed ≡ 0) × (self.old.bytes ≢ [])) }
    {
        if self.owed == 0 {
            return if self.incoming.is_empty() {
                Ok(None)
            } else {
                Err(CodecError::Unasked)
            };
        }
        let unread = self.incoming.unread();
        let Some((message, rest)) = message_at(self.alloc, self.room, unread)? else {
            return Ok(None);
        };
        let size = unread.len() - rest.len();
        self.incoming.take(size);
        self.spend(size, count_in(&message));
        self.told(&message);
        Ok(Some(message))
    }

    // So many bytes and values of the answer came.
    fn spend(&mut self, size: usize, values: usize)
        ensures { self.new ≡ record self.old { room = self.old.room - size - 32 * values } }
    {
        let values = VALUE.saturating_mul(values);
        self.room = self.room.saturating_sub(size).saturating_sub(values);
    }

    fn told(&mut self, message: &Message)
        ensures { self.new ≡ told (seen message.now) self.old }
    {
        match message {
            Message::Ready(_) => {
                self.owed = self.owed.saturating_sub(1);
                self.room = self.limit;
            }
            Message::Complete(done) => self.mark = self.mark.and(done.mark),
            // (What it did before it failed may last.)
            Message::Refusal(_) | Message::Setting | Message::Notification => {
                self.mark = self.mark.and(Mark::Marked);
            }
            _ => {}
        }
    }

    /// Whether each request has its end, and nothing else came.
    pub fn is_settled(&self) -> bool
        ensures { IsTrue result ↔ ((self.now.owed ≡ 0) × (self.now.bytes ≡ [])) }
    {
        self.owed == 0 && self.incoming.is_empty()
    }

    /// What the messages say that the session may keep, since this was asked last.
    pub fn take_mark(&mut self) -> Mark
        ensures is { result ≡ self.old.mark }
        ensures after { self.new ≡ record self.old { mark = Mark.Plain } }
    {
        let mark = self.mark;
        self.mark = Mark::Plain;
        mark
    }
}

fn count_in(message: &Message) -> usize
    ensures { result ≡ count_in (seen message.now) }
{
    match message {
        Message::Row(values) => values.len(),
        _ => 0,
    }
}
