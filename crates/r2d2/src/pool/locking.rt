// The lock of a pool, how it is taken, and who is woken once it is free.
ghost use Rattle.std.specs.Prelude.{◌≡◌, ◌≤◌, ◌-◌, None, IfOk, IsTrue, ◌↔◌};
ghost use Rattle.r2d2_core.specs.Reports.{IsSoundReport};

use crate::birth::Birth;
use crate::payload::PayloadOf;
use pool_state::engine::{Outcome, Settled, TakeTotal};
use pool_state::{PoolState, State, Status, ToWake, Tuning, Wake};
use r2d2_core::machine::Leftover;
use r2d2_core::{Refusal, Report};
use std::alloc::AllocError;
use std::hint::spin_loop;
use std::rt::Clock;
use std::sync::{Condvar, Mutex, MutexGuard, Wait};
use std::thread::yield_now;
use std::time::Duration;

/// How often a thread that finds the lock taken lets others run, before it sleeps for it.
const TURNS: u32 = 10;

/// How many turns of a loop it lets the lock alone between two tries.
const PAUSES: u32 = 250;

/// What workers, pools and lent connections share. The lock is held for the book's steps, and while
/// a report of it is copied.
#[derive(Drop)]
pub struct Shared<B, M, K, R> {
    pub(super) guarded: Mutex<B>,
    /// Where callers wait for a connection, who do not stand in line.
    pub(super) callers: Condvar,
    /// Where each caller in line waits: one for each slot.
    pub(super) slots: Vec<Condvar>,
    /// Where workers wait for something to do.
    pub(super) workers: Condvar,
    pub(super) manager: M,
    pub(super) hooks: K,
    /// Whether a handler of events was set: if not, nobody sees when a call began or ended.
    pub(super) listens: bool,
    /// Whether a connection is checked before it is lent: the setting `test_on_check_out`.
    pub(super) checks: bool,
    /// The settings that r2d2 has not.
    pub(super) tuning: Tuning,
    /// When the pool was made.
    pub(super) birth: Birth,
    pub(super) rt: R,
}

/// What a pool shares, whose payload is its manager's.
pub type SharedOf<C, M, K, R> = Shared<PoolState<PayloadOf<M>, C>, M, K, R>;

impl<B, M, K, R> Shared<B, M, K, R> {
    /// The time since the pool was made.
    pub(super) fn moment(&self) -> Duration
    where
        R: Clock,
    {
        self.birth.moment(&self.rt)
    }

    /// Wakes those for whom a step left something.
    #[inline(always)]
    pub(super) fn wake(&self, to_wake: ToWake) {
        // Modelled in model/waiting.pml: keep both alike.
        let ToWake {
            callers,
            workers,
            told,
            all_in_line,
        } = to_wake;
        match callers {
            Wake::Nobody => {}
            Wake::One => self.callers.notify_one(),
            Wake::All => self.callers.notify_all(),
        }
        if workers {
            self.workers.notify_all();
        }
        if let Some(slot) = told {
            self.wake_in_line(slot);
        }
        if all_in_line {
            self.wake_all_in_line();
        }
    }

    // Wakes the one in line at this slot.
    #[cold]
    fn wake_in_line(&self, slot: u32) {
        self.variable_of(slot).notify_one();
    }

    // Wakes all who stand in line.
    #[cold]
    fn wake_all_in_line(&self) {
        for own in &self.slots {
            own.notify_all();
        }
    }

    /// Where the caller in line with this slot waits.
    pub(super) fn variable_of(&self, slot: u32) -> &Condvar {
        // Each slot has one.
        self.slots.get(slot as usize).unwrap_or(&self.callers)
    }

    /// Takes the lock.
    #[inline(always)]
    pub(super) fn lock(&self) -> MutexGuard<'_, B>
    where
        R: Wait,
    {
        match self.guarded.try_lock() {
            Some(state) => state,
            None => self.lock_in_turn(),
        }
    }

    /// Takes the lock, which another thread had just now. That one needs it for a step alone, so
    /// this one lets others run a few times before it sleeps, which takes longer.
    pub(super) fn lock_in_turn(&self) -> MutexGuard<'_, B>
    where
        R: Wait,
    {
        for _ in 0..TURNS {
            pause();
            if let Some(state) = self.guarded.try_lock() {
                return state;
            }
        }
        self.guarded.lock(&self.rt)
    }

    // Makes a step: takes the lock, reads the moment, calls, lets the lock go, wakes. What the call
    // did to the book, nobody can say after it.
    #[inline(always)]
    pub(super) fn step<X, F: FnOnce(&mut B, Duration) -> (X, ToWake)>(&self, call: F) -> X
    where
        R: Clock + Wait,
        requires { (g : _) (now : _) → F.pre call g now }
        ensures { (g : _) × (now : _) × (w : _) × (g' : _) × F.post call g now (result, w) g' }
    {
        // Modelled in model/waiting.pml: keep both alike.
        let mut state = self.lock();
        let now = self.moment();
        let (answer, to_wake) = call(&mut state, now);
        drop(state);
        self.wake(to_wake);
        answer
    }
}

impl<P: Drop, C: TakeTotal, M, K, R: Clock + Wait> Shared<PoolState<P, C>, M, K, R> {
    ghost use Rattle.r2d2_core.specs.BookSteps.{IsNumbering, IsClose};
    ghost use Rattle.pool_state.specs.Guarded.{SeenState};
    ghost use Rattle.pool_state.specs.Settled.{seen_settled, wakes_of_settled, IsSettling};
    ghost use Rattle.pool_state.specs.Waiting.{told_if};
    ghost use Rattle.pool_state.specs.Status.{IsStatus};

    /// The counts.
    pub(super) fn state(&self) -> State
        ensures { result.idle_connections ≤ result.connections }
    {
        self.step(|state, _now| (State::of(state.book()), ToWake::nobody()))
    }

    /// The counts, with those of the callers who wait.
    pub(super) fn status(&self) -> Status
        ensures sums { IsStatus result }
        ensures workers { result.workers ≡ None }
    {
        self.guarded.lock(&self.rt).status()
    }

    /// What the book reports.
    pub(super) fn report(&self) -> Result<Report, AllocError>
        ensures sound { IfOk result IsSoundReport }
    {
        self.step(|state, _now| (state.report(), ToWake::nobody()))
    }

    /// Gives an opened connection its id.
    pub(super) fn number(&self, tries: u32) -> Result<u64, Refusal>
        ensures { (old : SeenState P C) × (new : SeenState P C)
            × IsNumbering tries result old.book new.book × (new.places ≡ old.places) }
    {
        self.step(|state, _now| (state.number(tries), ToWake::nobody()))
    }

    /// Reports an outcome to the book.
    pub(super) fn settle(&self, outcome: Outcome<P>) -> Settled<P>
        ensures { (now : _) × (old : SeenState P C) × (new : SeenState P C)
            × IsSettling now outcome result old.book new.book
            × (new.places ≡ told_if (wakes_of_settled (seen_settled result)).caller old.places) }
    {
        self.step(|state, now| state.settle(now, outcome))
    }

    /// Reports a failed opening to the book.
    pub(super) fn fail(&self, tries: u32, text: Option<String>) {
        self.step(|state, now| state.fail(now, tries, text));
    }

    /// Closes the book, wakes all who wait, and hands over what was idle.
    pub(super) fn close(&self) -> Leftover<P>
        ensures { (old : SeenState P C) × (new : SeenState P C)
            × IsClose result old.book new.book × (new.places ≡ old.places) }
    {
        self.step(|state, _now| state.close())
    }
}

/// Lets other threads run, and lets the lock alone for a short time: each try at a lock takes its
/// cache line from who holds it.
pub(super) fn pause() {
    yield_now();
    for _ in 0..PAUSES {
        spin_loop();
    }
}
