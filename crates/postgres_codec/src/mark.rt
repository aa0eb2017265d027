//! What a session may keep beyond its transactions.

ghost use Rattle.std.specs.Prelude.{◌≡◌};
ghost use Rattle.postgres_codec.specs.Messages.{is_plain, mark_of};
ghost use Rattle.postgres_codec.specs.Talks.{both};

use crate::text::is;

/// What a session may keep when its transaction is over.
#[derive(Clone, Copy, Debug, PartialEq, Eq)]
pub enum Mark {
    /// Nothing.
    Plain,
    /// What DISCARD ALL brings back.
    Marked,
    /// What stays until the connection is closed, as a library that was loaded.
    Lasting,
}

impl Mark {
    /// What both leave.
    pub fn and(self, other: Mark) -> Mark
        ensures exact { result ≡ both self other }
        ensures plain { result ≡ Mark.Plain → (self ≡ Mark.Plain) × (other ≡ Mark.Plain) }
    {
        match (self, other) {
            (Mark::Lasting, _) | (_, Mark::Lasting) => Mark::Lasting,
            (Mark::Plain, Mark::Plain) => Mark::Plain,
            _ => Mark::Marked,
        }
    }

    /// What a statement leaves that has this name, as the server writes it at its end: before a
    /// count of rows stands a space.
    #[tactic(auto, unfolding(crate::specs::Messages::mark_of))]
    pub(crate) fn of_statement(name: &[u8]) -> Mark
        ensures { result ≡ mark_of name.now }
    {
        if is(name, b"LOAD") {
            Mark::Lasting
        } else if is_plain(name) {
            Mark::Plain
        } else {
            Mark::Marked
        }
    }
}

// The statements that leave nothing: INSERT is none of them, as `lastval` shows what it inserted.
#[tactic(auto, unfolding(crate::specs::Messages::is_plain))]
fn is_plain(name: &[u8]) -> bool
    ensures { result ≡ is_plain name.now }
{
    is(name, b"SELECT ")
        || is(name, b"UPDATE ")
        || is(name, b"DELETE ")
        || is(name, b"BEGIN")
        || is(name, b"START TRANSACTION")
        || is(name, b"COMMIT")
        || is(name, b"ROLLBACK")
        || is(name, b"SAVEPOINT")
        || is(name, b"RELEASE")
}
