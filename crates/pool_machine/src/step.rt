// One step as data, what it answers, and the call that takes it.
ghost use Rattle.std.specs.Prelude.{◌≡◌, true, IfOk, IfErr, OnOk};
ghost use Rattle.std.specs.Duration.{as_nanos};

use crate::machine::{Core, Gone, Leftover, Refusal, Released, Returned, Take};
use crate::schedule::Job;
use std::alloc::{AllocError, Allocator, Global};
use std::time::Duration;

/// One call of the core, as a value. Each moment `now` is a `Duration` since the pool was made.
#[derive(Clone, Drop)]
pub enum Step<T> {
    /// `Core::take`: a caller wants a connection.
    Take {
        now: Duration,
        /// Whether an opening is ordered if none is idle.
        or_order: bool,
    },
    /// `Core::begin`: a worker asks what to do.
    Begin {
        now: Duration,
    },
    /// `Core::number`: a worker opened a connection, and wants its id.
    Number {
        /// How often opening it had failed, as `begin` said.
        tries: u32,
    },
    /// `Core::admit`: the connection joins the idle ones.
    Admit {
        now: Duration,
        /// The id that `number` gave.
        id: u64,
        value: T,
    },
    /// `Core::fail`: a worker could not open a connection.
    Fail {
        now: Duration,
        /// How often opening it had failed before, as `begin` said.
        tries: u32,
        /// Why, for the caller who times out.
        text: Option<String>,
    },
    /// `Core::fail_check`: the check of a lent connection failed.
    FailCheck {
        now: Duration,
        /// The id of the lent connection.
        id: u64,
        /// Why, for the caller who times out.
        text: Option<String>,
    },
    /// `Core::put_back`: a lent connection comes back.
    PutBack {
        now: Duration,
        /// The id of the lent connection.
        id: u64,
        value: T,
        /// Whether its user says that it is broken.
        broken: bool,
    },
    /// `Core::reap`: the idle connections that are expired are to be closed.
    Reap {
        now: Duration,
    },
    /// `Core::take_error`: the latest text of a failure is wanted.
    TakeError,
    /// `Core::close`: the pool is no longer used.
    Close,
}

/// The answer of a step: the variant has the name of the step's.
#[derive(Drop)]
pub enum Answer<T, A: Allocator = Global> {
    /// The idle connection that was next in the lending order, or none; and how many openings were
    /// ordered.
    Take(Take<T>),
    /// What the worker is to do.
    Begin(Job),
    /// The connection's id.
    Number(Result<u64, Refusal>),
    /// Nothing; or why it was refused, with the value that was to be admitted.
    Admit(Result<(), (Refusal, T)>),
    /// The moment at which the opening is due again.
    Fail(Result<Duration, Refusal>),
    /// How old the connection was, and how many openings were ordered.
    FailCheck(Result<Gone, Refusal>),
    /// Whether it was kept; or why it was refused, with the value that was to be put back.
    PutBack(Result<Returned<T>, (Refusal, T)>),
    /// The idle connections that were expired, now to be closed.
    Reap {
        /// Those connections, the one that was idle longest first.
        released: Vec<Released<T>>,
        /// How many openings were ordered.
        ordered: u32,
    },
    /// The latest text of a failure, if there is one.
    TakeError(Option<String>),
    /// The values of the connections that were idle, the one that was idle longest first.
    Close(Leftover<T, A>),
}

// The machine's own call for a step. What a reap's list takes of memory is taken before the call.
#[macro_export]
macro_rules! answer_by {
    ($machine:expr, $alloc:expr, $step:expr) => {
        match $step {
            Step::Take { now, or_order } => Ok(Answer::Take($machine.take(now, or_order))),
            Step::Begin { now } => Ok(Answer::Begin($machine.begin(now))),
            Step::Number { tries } => Ok(Answer::Number($machine.number(tries))),
            Step::Admit { now, id, value } => Ok(Answer::Admit($machine.admit(now, id, value))),
            Step::Fail { now, tries, text } => Ok(Answer::Fail($machine.fail(now, tries, text))),
            Step::FailCheck { now, id, text } => {
                Ok(Answer::FailCheck($machine.fail_check(now, id, text)))
            }
            Step::PutBack {
                now,
                id,
                value,
                broken,
            } => Ok(Answer::PutBack($machine.put_back(now, id, value, broken))),
            Step::Reap { now } => $machine.answer_reap($alloc, now),
            Step::TakeError => Ok(Answer::TakeError($machine.take_error())),
            Step::Close => Ok(Answer::Close($machine.close())),
        }
    };
}

impl<T, A: Allocator> Core<T, A> {
    ghost use Rattle.pool_machine.specs.Picture.{IsSound};
    ghost use Rattle.pool_machine.specs.Steps.{seen_answer, step_answer, after_step, is_reap};
    ghost use Rattle.pool_machine.specs.Seen.{Reaped};
    ghost use Rattle.pool_machine.specs.Table.{reap_closed, reap_orders, after_reap};

    /// Takes a step by the call of its kind, and gives the answer of that call. A reap lists what
    /// it closes in memory of `alloc`, with room for `max_size`; no other step takes any. The error
    /// comes only if that list is refused: then nothing changed, and the same reap may be tried
    /// again.
    pub fn answer(&mut self, alloc: Global, step: Step<T>) -> Result<Answer<T, A>, AllocError>
        ensures answer { IfOk result (λ a. seen_answer a ≡ step_answer step self.old) }
        ensures after { OnOk result (self.new ≡ after_step step self.old) }
        ensures unchanged { IfErr result (λ _. self.new ≡ self.old) }
        ensures only_reaps { IfErr result (λ _. is_reap step ≡ true) }
        ensures sound { IsSound self.new }
    {
        answer_by!(self, alloc, step)
    }

    // The answer to a reap.
    fn answer_reap(&mut self, alloc: Global, now: Duration) -> Result<Answer<T, A>, AllocError>
        ensures answer { IfOk result (λ a. seen_answer a
            ≡ Reaped (reap_closed (as_nanos now) self.old) (reap_orders (as_nanos now) self.old)) }
        ensures after { OnOk result (self.new ≡ after_reap (as_nanos now) self.old) }
        ensures unchanged { IfErr result (λ _. self.new ≡ self.old) }
        ensures sound { IsSound self.new }
    {
        let room = self.limits().max_size() as usize;
        let mut released = Vec::with_capacity(alloc, room)?;
        let ordered = self.reap_uncounted(now, &mut released);
        Ok(Answer::Reap { released, ordered })
    }
}
