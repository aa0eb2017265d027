// When openings and reaps are due.
ghost use Rattle.std.specs.Prelude.{◌≡◌, ℕ, ◌+◌, ◌*◌, ◌/◌, ◌^◌, ◌<◌, ◌≤◌, min, length, vec_len};
ghost use Rattle.std.specs.Prelude.{IfOk};
ghost use Rattle.std.specs.Duration.{as_nanos};
ghost use Rattle.pool_machine.specs.Schedule.{is_due_before};

use crate::steps::Steps;
pub use limits::{LendingOrder, LimitSettings, Limits};
use opening::Opening;
use std::alloc::{AllocError, Allocator, Global};
use std::marker::Model;
use std::sync::ledger::Ledger;
use std::time::Duration;

mod heap;
pub mod limits;
mod opening;
mod uncounted;

/// What a worker is to do now.
#[derive(Clone, Copy, PartialEq, Eq, Debug)]
pub enum Job {
    /// Open a connection; opening it failed `tries` times so far, counted up to 99.
    Open { tries: u32 },
    /// Close what is idle too long or too old.
    Reap,
    /// Nothing before that moment.
    Wait(Duration),
    /// Nothing until something is ordered.
    Nothing,
    /// Nothing, ever again: the core is closed.
    Closed,
}

/// Openings by the moment at which they are due, and the next reap.
///
/// All memory is taken at the creation; no other call takes any. A step of a call that counts them
/// is one comparison of two openings.
#[derive(Drop)]
pub struct Schedule<A: Allocator = Global> {
    max_size: u32,
    reap_every: Duration,
    // As many as there is room for. The first `held` are a heap; the others mean nothing.
    entries: Vec<Opening, A>,
    held: u32,
    next_reap: Option<Duration>,
}

impl<A: Allocator> Model for Schedule<A> {
    ghost use Rattle.pool_machine.specs.Schedule.{SeenSchedule};

    ghost Value = { SeenSchedule };

    ghost use Rattle.pool_machine.specs.ScheduleParts.{seen_schedule, IsHolding};

    ghost view = { seen_schedule };

    ghost invariant = { IsHolding };
}

impl<A: Allocator> Schedule<A> {
    ghost use Rattle.pool_machine.specs.Limits.{seen_limits};
    ghost use Rattle.pool_machine.specs.Openings.{opening};
    ghost use Rattle.pool_machine.specs.Schedule.{first_schedule, joined, cleared, after_job};
    ghost use Rattle.pool_machine.specs.Jobs.{seen_job, first_job};
    ghost use Rattle.pool_machine.specs.Heap.{binary_digits, steps_of_job};

    /// No openings, room for `max_size` of them, and the first reap, if an age or an idle time is
    /// limited: `reap_every` after `now`. The error comes only if memory is refused.
    pub fn new(alloc: A, limits: Limits, now: Duration) -> Result<Schedule<A>, AllocError>
        ensures { IfOk result
            (λ schedule. schedule ≡ first_schedule (seen_limits limits) (as_nanos now)) }
    {
        let max_size = limits.max_size();
        let reap_every = limits.reap_every();
        let entries = filled(alloc, max_size)?;
        let next_reap = if limits.max_lifetime().is_some() || limits.idle_timeout().is_some() {
            Some(now.saturating_add(reap_every))
        } else {
            None
        };
        Ok(Schedule {
            max_size,
            reap_every,
            entries,
            held: 0,
            next_reap,
        })
    }

    /// How many openings are held.
    pub fn len(&self) -> u32
        ensures value { result ≡ length self.now.openings }
        ensures within { result ≤ self.now.max_size }
    {
        self.held
    }

    /// Adds an opening that is due at `due` and failed `tries` times. There is room while `len` is
    /// below `max_size`. It takes at most as many steps as the number of openings that are held
    /// then has binary digits.
    pub fn order<L: Ledger>(&mut self, due: Duration, tries: u32, steps: &mut Steps<L>)
        requires { length self.old.openings < self.old.max_size }
        ensures after { self.new ≡ joined (opening (as_nanos due) tries) self.old }
        ensures cost { steps.new ≤ steps.old + binary_digits (length self.new.openings) }
    {
        let opening = Opening::new(due, tries);
        heap::add(&mut self.entries, self.held as usize, opening, steps);
        self.held += 1;
    }

    /// What is to be done at the moment `now`, and taken out then: the opening that is due first,
    /// by its tries among equals, or the next reap if that is due before it. What is not due yet
    /// stays: then the answer is to wait for it. If an opening is handed out it takes at most twice
    /// as many steps as the number of openings that were held has binary digits, else none.
    pub fn next<L: Ledger>(&mut self, now: Duration, steps: &mut Steps<L>) -> Job
        ensures answer { seen_job result
            ≡ first_job (as_nanos now) self.old.openings self.old.next_reap }
        ensures after { self.new ≡ after_job (seen_job result) self.old }
        ensures cost { steps.new
            ≤ steps.old + steps_of_job (seen_job result) (length self.old.openings) }
    {
        if self.held > 0 {
            let due = self.entries[0].due();
            if !is_reap_before(self.next_reap, due) {
                if now.as_nanos() < due.as_nanos() {
                    return Job::Wait(due);
                }
                let tries = self.entries[0].tries();
                heap::remove_least(&mut self.entries, self.held as usize, steps);
                self.held -= 1;
                return Job::Open { tries };
            }
        }
        match self.next_reap {
            None => Job::Nothing,
            Some(reap) => {
                if now.as_nanos() < reap.as_nanos() {
                    return Job::Wait(reap);
                }
                self.next_reap = Some(reap.saturating_add(self.reap_every));
                Job::Reap
            }
        }
    }

    /// Forgets the openings and the next reap.
    pub fn clear(&mut self)
        ensures { self.new ≡ cleared self.old }
    {
        self.held = 0;
        self.next_reap = None;
    }
}

// So many openings, whatever they are.
fn filled<A: Allocator>(alloc: A, count: u32) -> Result<Vec<Opening, A>, AllocError>
    ensures { IfOk result (λ entries. vec_len entries ≡ count) }
{
    let mut entries = Vec::with_capacity(alloc, count as usize)?;
    for _ in 0..count {
        entries.push_reserved(Opening::new(Duration::ZERO, 0));
    }
    Ok(entries)
}

/// The `k`-th delay in a row of one opening: 200 ms doubled `k` times, or half of
/// `connection_timeout` if that is less.
pub fn delay(connection_timeout: Duration, k: u32) -> Duration
    ensures { as_nanos result ≡ min (as_nanos connection_timeout / 2) (200_000_000 * 2 ^ k) }
{
    let half = connection_timeout / 2;
    if k >= 67 {
        return half;
    }
    let doubled = Duration::from_nanos_u128(200_000_000 << k);
    if doubled.as_nanos() < half.as_nanos() {
        doubled
    } else {
        half
    }
}

// The reap is due before that moment.
fn is_reap_before(next_reap: Option<Duration>, due: Duration) -> bool
    ensures { result ≡ is_due_before next_reap (as_nanos due) }
{
    match next_reap {
        None => false,
        Some(reap) => reap.as_nanos() < due.as_nanos(),
    }
}
