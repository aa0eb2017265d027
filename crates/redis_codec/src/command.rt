//! What a command does to a session, and what an answer says of it.

ghost use Rattle.std.specs.Prelude.{◌≡◌};
ghost use Rattle.redis_codec.specs.Requests.{bytes_of};
ghost use Rattle.redis_codec.specs.Resp.{seen_all};
ghost use Rattle.redis_codec.specs.Sessions.{is_word, command_of, named, of_transactions};
ghost use Rattle.redis_codec.specs.Sessions.{of_listening, of_client, of_settings, or_else};
ghost use Rattle.redis_codec.specs.Sessions.{said_in, said_by_word, said_by_refusal};

use crate::item::Item;

/// A command, by what it may do to a session.
#[derive(Clone, Copy, Debug, PartialEq, Eq)]
pub enum Command {
    Watch,
    Unwatch,
    Multi,
    Exec,
    Discard,
    Subscribe,
    /// One after which the server sends what it likes, or nothing any more.
    Monitor,
    Select,
    Auth,
    Hello,
    Name,
    ReplyMode,
    /// Another setting of the connection.
    Setting,
    Reset,
    /// Nothing.
    Other,
}

impl Command {
    /// What these words are, in capitals or not.
    #[tactic(auto, unfolding(crate::specs::Sessions::command_of))]
    pub fn of(words: &[&[u8]]) -> Command
        ensures { result ≡ command_of (bytes_of words.now) }
    {
        match words {
            [] => Command::Other,
            [word] => Command::named(word, b""),
            [word, second, ..] => Command::named(word, second),
        }
    }

    #[tactic(auto, unfolding(crate::specs::Sessions::named))]
    fn named(word: &[u8], second: &[u8]) -> Command
        ensures { result ≡ named word.now second.now }
    {
        Command::of_transactions(word).or_else(Command::of_listening(word, second).or_else(
            Command::of_settings(word, second),
        ))
    }

    fn or_else(self, next: Command) -> Command
        ensures { result ≡ or_else self next }
    {
        match self {
            Command::Other => next,
            _ => self,
        }
    }

    #[tactic(auto, unfolding(crate::specs::Sessions::of_transactions))]
    fn of_transactions(word: &[u8]) -> Command
        ensures { result ≡ of_transactions word.now }
    {
        match word {
            _ if is(word, "MULTI") => Command::Multi,
            _ if is(word, "EXEC") => Command::Exec,
            _ if is(word, "DISCARD") => Command::Discard,
            _ if is(word, "WATCH") => Command::Watch,
            _ if is(word, "UNWATCH") => Command::Unwatch,
            _ => Command::Other,
        }
    }

    #[tactic(auto, unfolding(crate::specs::Sessions::of_listening))]
    fn of_listening(word: &[u8], second: &[u8]) -> Command
        ensures { result ≡ of_listening word.now second.now }
    {
        match word {
            _ if is(word, "SUBSCRIBE") => Command::Subscribe,
            _ if is(word, "PSUBSCRIBE") => Command::Subscribe,
            _ if is(word, "SSUBSCRIBE") => Command::Subscribe,
            _ if is(word, "MONITOR") => Command::Monitor,
            _ if is(word, "SYNC") => Command::Monitor,
            _ if is(word, "PSYNC") => Command::Monitor,
            _ if is(word, "QUIT") => Command::Monitor,
            _ if is(word, "SCRIPT") => match second {
                _ if is(second, "DEBUG") => Command::Monitor,
                _ => Command::Other,
            },
            _ => Command::Other,
        }
    }

    #[tactic(auto, unfolding(crate::specs::Sessions::of_client))]
    fn of_client(second: &[u8]) -> Command
        ensures { result ≡ of_client second.now }
    {
        match second {
            _ if is(second, "SETNAME") => Command::Name,
            _ if is(second, "REPLY") => Command::ReplyMode,
            _ => Command::Setting,
        }
    }

    #[tactic(auto, unfolding(crate::specs::Sessions::of_settings))]
    fn of_settings(word: &[u8], second: &[u8]) -> Command
        ensures { result ≡ of_settings word.now second.now }
    {
        match word {
            _ if is(word, "SELECT") => Command::Select,
            _ if is(word, "AUTH") => Command::Auth,
            _ if is(word, "HELLO") => Command::Hello,
            _ if is(word, "CLIENT") => Command::of_client(second),
            _ if is(word, "READONLY") => Command::Setting,
            _ if is(word, "READWRITE") => Command::Setting,
            _ if is(word, "ASKING") => Command::Setting,
            _ if is(word, "RESET") => Command::Reset,
            _ => Command::Other,
        }
    }
}

// Whether it is this word, in capitals or not.
#[tactic(auto, unfolding(crate::specs::Sessions::is_word))]
fn is(word: &[u8], name: &str) -> bool
    ensures { result ≡ is_word word.now name.now }
{
    word.eq_ignore_ascii_case(name.as_bytes())
}

/// An answer, by what it says of the session.
#[derive(Clone, Copy, Debug, PartialEq, Eq)]
pub enum Said {
    Okay,
    Reset,
    /// A transaction is open, and took the command in.
    Queued,
    /// A refusal, with which the transaction was given up.
    Aborted,
    /// Any other refusal.
    Refused,
    /// Any other answer.
    Other,
}

impl Said {
    pub fn of(answer: &[Item]) -> Said
        ensures { result ≡ said_in (seen_all answer.now) }
    {
        match answer {
            [Item::Word(text), ..] => Said::of_word(text.as_slice()),
            [Item::Refusal(text), ..] => Said::of_refusal(text.as_slice()),
            _ => Said::Other,
        }
    }

    fn of_word(text: &[u8]) -> Said
        ensures { result ≡ said_by_word text.now }
    {
        match text {
            _ if text == b"OK".as_slice() => Said::Okay,
            _ if text == b"QUEUED".as_slice() => Said::Queued,
            _ if text == b"RESET".as_slice() => Said::Reset,
            _ => Said::Other,
        }
    }

    fn of_refusal(text: &[u8]) -> Said
        ensures { result ≡ said_by_refusal text.now }
    {
        if text.starts_with(b"EXECABORT ") {
            Said::Aborted
        } else {
            Said::Refused
        }
    }
}
