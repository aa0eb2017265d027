//! What the server remembers of a caller.

ghost use Rattle.std.specs.Prelude.{◌≡◌};
ghost use Rattle.redis_codec.specs.Sessions.{plain, ended, reset, marked, after};

use crate::command::{Command, Said};

/// How a session may differ from one that has just begun.
#[derive(Clone, Copy, Debug, PartialEq, Eq)]
pub struct Session {
    /// Commands are queued, and not carried out.
    pub transaction: bool,
    /// Keys are watched: the next transaction may fail because of them.
    pub watch: bool,
    pub subscriptions: bool,
    /// MONITOR, or another command after which the connection is of no use to anyone else.
    pub monitor: bool,
    pub database: bool,
    pub user: bool,
    pub name: bool,
    pub reply_mode: bool,
    pub protocol: bool,
    /// Another setting of the connection.
    pub settings: bool,
}

impl Session {
    /// One that has just begun.
    pub const PLAIN: Session = Session {
        transaction: false,
        watch: false,
        subscriptions: false,
        monitor: false,
        database: false,
        user: false,
        name: false,
        reply_mode: false,
        protocol: false,
        settings: false,
    };

    /// The session after a command that was answered so.
    pub fn after(self, command: Command, said: Said) -> Session
        ensures { result ≡ after command said self }
    {
        match (command, said) {
            (Command::Exec, Said::Aborted | Said::Other) | (Command::Discard, Said::Okay) => {
                self.ended()
            }
            (_, Said::Refused | Said::Aborted) => self,
            (Command::Unwatch, Said::Okay) => Session {
                watch: false,
                ..self
            },
            (Command::Reset, Said::Reset) => self.reset(),
            (_, Said::Queued) => Session {
                transaction: true,
                ..self.marked(command)
            },
            _ => self.marked(command),
        }
    }

    fn ended(self) -> Session
        ensures { result ≡ ended self }
    {
        Session {
            transaction: false,
            watch: false,
            ..self
        }
    }

    fn reset(self) -> Session
        ensures { result ≡ reset self }
    {
        Session {
            user: true,
            database: true,
            subscriptions: self.subscriptions,
            monitor: self.monitor,
            ..Session::PLAIN
        }
    }

    fn marked(self, command: Command) -> Session
        ensures { result ≡ marked command self }
    {
        let mut session = self;
        match command {
            Command::Watch => session.watch = true,
            Command::Multi => session.transaction = true,
            Command::Subscribe => session.subscriptions = true,
            Command::Monitor => session.monitor = true,
            Command::Select => session.database = true,
            Command::Auth => session.user = true,
            Command::Hello => {
                session.protocol = true;
                session.user = true;
                session.name = true;
            }
            Command::Name => session.name = true,
            Command::ReplyMode => session.reply_mode = true,
            Command::Setting => session.settings = true,
            Command::Exec | Command::Discard | Command::Unwatch | Command::Reset | Command::Other =>
                {}
        }
        session
    }
}
