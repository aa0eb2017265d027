// Why a call of the pool failed.
ghost use Rattle.std.specs.Prelude.{◌≡◌, ◌↔◌, None, IsSome, IfSome, option_map, option_and_then};
ghost use Rattle.std.specs.Prelude.{string_bytes};
ghost use Rattle.r2d2.specs.declared.error.ErrorKind.TheVariants.{Timeout};
ghost use Rattle.r2d2.specs.Failures.{Failure};
ghost use Rattle.pool_state.specs.Status.{IsStatus};

use pool_state::Status;
use std::alloc::{Allocator, Global};
use std::fmt;
use std::marker::Model;
use std::time::Duration;

/// Why a call failed.
#[derive(Clone, Copy, Debug, PartialEq, Eq)]
pub enum ErrorKind {
    /// No connection came in time.
    Timeout,
    /// Memory was refused.
    Memory,
    /// A worker's thread could not be started.
    Threads,
    /// The pool was closed.
    Closed,
    /// As many callers wait as the setting `max_waiting` allows.
    QueueFull,
}

/// Why a call failed, and for a timeout the latest error of an opening or a check, if one is
/// known, or else that no worker of a pool for tasks is running, if none is. It displays as
/// `timed out waiting for connection`, then `: ` and that text; as `out of memory`; as `a worker
/// could not be started`; as `the pool is closed`; or as `too many callers are waiting`.
#[derive(Drop)]
pub struct Error {
    kind: ErrorKind,
    message: Option<String>,
    /// On the heap, since each `get` moves what it returns.
    gave_up: Option<Box<GaveUp>>,
}

/// What a call that gave up saw.
#[derive(Clone, Copy)]
struct GaveUp {
    /// What the pool showed then.
    status: Status,
    /// How long the call had lasted.
    waited: Duration,
    /// How many waited before it, if it stood in line.
    ahead: Option<usize>,
}

// Contracts see an error as why the call failed, the bytes of the text, and what a call that gave
// up saw.
impl Model for Error {
    ghost Value = { Failure };

    ghost view = { λ e. record {
      kind = e.kind;
      message = option_map string_bytes e.message;
      status = option_map (λ g. g.value.status) e.gave_up;
      waited = option_map (λ g. g.value.waited) e.gave_up;
      ahead = option_and_then (λ g. g.value.ahead) e.gave_up;
    } };

    ghost invariant = { λ e. (IsSome e.message → e.kind ≡ Timeout)
        × IfSome e.gave_up (λ g. IsStatus g.value.status) };
}

impl Error {
    /// No connection came in time; the text is the latest error's, if one is known, or says why
    /// none is opened. The call gave up after so long, while the pool showed this, and so many
    /// waited before it, if it stood in line; all three are left out if memory is refused.
    pub fn timeout(
        alloc: Global,
        message: Option<String>,
        status: Status,
        waited: Duration,
        ahead: Option<usize>,
    ) -> Error
        requires { IsStatus status }
        ensures kind { result.kind ≡ ErrorKind.Timeout }
        ensures message { result.message ≡ option_map string_bytes message }
        ensures status { IfSome result.status (λ shown. shown ≡ status) }
        ensures waited { IfSome result.waited (λ length. length ≡ waited) }
        ensures ahead { IsSome result.status → result.ahead ≡ ahead }
    {
        let gave_up = GaveUp {
            status,
            waited,
            ahead,
        };
        Error {
            kind: ErrorKind::Timeout,
            message,
            gave_up: Box::new(alloc, gave_up).ok(),
        }
    }

    // An error of a call that waited for nothing.
    fn at_once(kind: ErrorKind) -> Error
        ensures kind { result.kind ≡ kind }
        ensures message { result.message ≡ None }
        ensures status { result.status ≡ None }
        ensures waited { result.waited ≡ None }
        ensures ahead { result.ahead ≡ None }
    {
        Error {
            kind,
            message: None,
            gave_up: None,
        }
    }

    /// Memory was refused.
    pub fn memory() -> Error
        ensures kind { result.kind ≡ ErrorKind.Memory }
    {
        Error::at_once(ErrorKind::Memory)
    }

    /// A worker's thread could not be started.
    pub(crate) fn threads() -> Error
        ensures kind { result.kind ≡ ErrorKind.Threads }
    {
        Error::at_once(ErrorKind::Threads)
    }

    /// The pool was closed.
    pub fn closed() -> Error
        ensures kind { result.kind ≡ ErrorKind.Closed }
    {
        Error::at_once(ErrorKind::Closed)
    }

    /// As many callers wait as may.
    pub fn full() -> Error
        ensures kind { result.kind ≡ ErrorKind.QueueFull }
    {
        Error::at_once(ErrorKind::QueueFull)
    }

    /// Why the call failed.
    pub fn kind(&self) -> ErrorKind
        ensures { result ≡ self.now.kind }
    {
        self.kind
    }

    /// The text of the latest error of an opening or a check, if one is known; or else that no
    /// worker of a pool for tasks is running, if none is. Only a timeout has one.
    pub fn message(&self) -> Option<&str>
        ensures text { option_map (λ text. text.now) result ≡ self.now.message }
        ensures only_timeouts { IsSome result → self.now.kind ≡ ErrorKind.Timeout }
    {
        match &self.message {
            Some(text) => Some(text.as_str()),
            None => None,
        }
    }

    /// What the pool showed as the call gave up, with those who waited beside it. Only a timeout
    /// has it, and none if memory for it was refused.
    pub fn status(&self) -> Option<Status>
        ensures status { result ≡ self.now.status }
        ensures sums { IfSome result IsStatus }
    {
        match &self.gave_up {
            Some(gave_up) => Some(gave_up.status),
            None => None,
        }
    }

    /// How long the call lasted until it gave up; None if there is no status.
    pub fn waited(&self) -> Option<Duration>
        ensures waited { result ≡ self.now.waited }
        ensures with_status { IsSome result ↔ IsSome self.now.status }
    {
        match &self.gave_up {
            Some(gave_up) => Some(gave_up.waited),
            None => None,
        }
    }

    /// How many callers waited before the call as its time ran out in line; 1,000 stands for so
    /// many or more, as they are counted under the pool's lock. None if callers do not wait in
    /// line, if a check took the rest of its time, or if there is no status.
    pub fn ahead(&self) -> Option<usize>
        ensures ahead { result ≡ self.now.ahead }
        ensures with_status { IsSome result → IsSome self.now.status }
    {
        match &self.gave_up {
            Some(gave_up) => gave_up.ahead,
            None => None,
        }
    }
}

impl fmt::Debug for Error {
    fn fmt<W: fmt::Write>(&self, f: &mut fmt::Formatter<W>) -> fmt::Result {
        f.debug_struct("Error")
            .field("kind", &self.kind)
            .field("message", &self.message)
            .finish()
    }
}

impl fmt::Display for Error {
    ghost use Rattle.std.specs.Prelude.{Some};
    ghost use Rattle.r2d2.specs.Failures.{error_text};

    ghost output = { λ e. Some (error_text e) };

    fn fmt<W: fmt::Write>(&self, f: &mut fmt::Formatter<W>) -> fmt::Result {
        match (self.kind, &self.message) {
            (ErrorKind::Timeout, Some(message)) => {
                write!(f, "timed out waiting for connection: {message}")
            }
            (ErrorKind::Timeout, None) => write!(f, "timed out waiting for connection"),
            (ErrorKind::Memory, _) => write!(f, "out of memory"),
            (ErrorKind::Threads, _) => write!(f, "a worker could not be started"),
            (ErrorKind::Closed, _) => write!(f, "the pool is closed"),
            (ErrorKind::QueueFull, _) => write!(f, "too many callers are waiting"),
        }
    }
}

impl std::error::Error for Error {}
