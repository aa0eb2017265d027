//! What is read.

ghost use Rattle.std.specs.Prelude.{◌≡◌};
ghost use Rattle.postgres_codec.specs.Messages.{ends};

use crate::mark::Mark;
use crate::text::is;

/// Whether a transaction is open, once the server is ready for a request.
#[derive(Clone, Copy, Debug, PartialEq, Eq)]
pub enum Status {
    Idle,
    InTransaction,
    /// A statement of the transaction failed: until it is rolled back the server refuses all else.
    InFailedTransaction,
}

/// What a server wants to be shown before it takes a login.
#[derive(Clone, Copy, Debug, PartialEq, Eq)]
pub enum Asked {
    /// Nothing more.
    Nothing,
    /// The password by MD5, with the salt that follows.
    Md5,
    /// A proof by one of the ways that follow, each with a zero after it.
    Sasl,
    /// What answers its own proof, which follows.
    SaslGoesOn,
    /// Its own proof, which follows.
    SaslEnds,
    /// What is not known here.
    Other,
}

/// The end of a statement.
#[derive(Clone, Copy, Debug, PartialEq, Eq)]
pub struct Done {
    /// How many rows it told or changed.
    pub rows: u64,
    pub mark: Mark,
}

/// An error of the server.
#[derive(Debug, Drop, PartialEq, Eq)]
pub struct Refusal {
    pub severity: Vec<u8>,
    /// Its SQLSTATE.
    pub state: Vec<u8>,
    /// What it says.
    pub text: Vec<u8>,
}

impl Refusal {
    /// Whether the connection is of no more use after it: the server ends it, or may not write.
    #[tactic(auto, unfolding(crate::specs::Messages::ends))]
    pub fn ends(&self) -> bool
        ensures { result ≡ ends self.now.severity.items self.now.state.items }
    {
        let (severity, state) = (self.severity.as_slice(), self.state.as_slice());
        let class = state.get(..2).unwrap_or(state);
        is(severity, b"FATAL")
            || is(severity, b"PANIC")
            || is(state, b"25006")
            || is(state, b"57P01")
            || is(state, b"57P02")
            || is(state, b"57P03")
            || is(class, b"08")
    }
}

/// A message of a server.
#[derive(Debug, Drop, PartialEq, Eq)]
pub enum Message {
    /// The request that waited for the longest is done.
    Ready(Status),
    /// A row: the bytes of each value, or None for NULL. A line of a COPY is one of one value.
    Row(Vec<Option<Vec<u8>>>),
    Complete(Done),
    Refusal(Refusal),
    /// A login goes on: what is asked for, and what belongs to that.
    Login(Asked, Vec<u8>),
    /// What names this connection in a request to cancel its query.
    Key(Vec<u8>),
    /// A setting has changed.
    Setting,
    /// Somebody notifies this listener.
    Notification,
    Notice,
    /// Which columns follow, that lines follow or have ended, that a query was empty, that it or its
    /// values were taken, or that a statement was forgotten.
    Passed,
}
