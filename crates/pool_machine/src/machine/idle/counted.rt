// Idle connections and their ring. Who reaps can look at one, or move it, by calls that are
// counted, and by no others.
ghost use Rattle.std.specs.Prelude.{◌≡◌, ◌+◌, ◌<◌, ◌++◌, ◌∷◌, [], ◌≤◌, length, drop, slice_get};
ghost use Rattle.std.specs.Prelude.{option_copied, map, IfOk, IfNone};
ghost use Rattle.std.specs.Duration.{as_nanos};
ghost use Rattle.circular_buffer.specs.Buffer.{buffer};
ghost use Rattle.pool_machine.specs.Limits.{seen_limits};
ghost use Rattle.pool_machine.specs.Lending.{next_to_lend, still_idle};
ghost use Rattle.pool_machine.specs.Connections.{idle_connection, is_expired, released_at};
ghost use Rattle.pool_machine.specs.Seen.{seen_released};

use crate::machine::answers::Released;
use crate::schedule::{LendingOrder, Limits};
use crate::steps::Steps;
use circular_buffer::HeapCircularBuffer;
use std::alloc::{AllocError, Allocator, Global};
use std::marker::Model;
use std::sync::ledger::Ledger;
use std::time::Duration;

/// A connection that is idle.
#[derive(Drop)]
pub struct IdleConnection<T> {
    id: u64,
    birth: Duration,
    since: Duration,
    value: T,
}

impl<T> Model for IdleConnection<T> {
    ghost use Rattle.std.specs.Duration.{as_nanos};
    ghost use Rattle.pool_machine.specs.Connections.{SeenIdleConnection, idle_connection};

    ghost Value = { SeenIdleConnection T };

    ghost view = { λ e. idle_connection e.id (as_nanos e.birth) (as_nanos e.since) e.value };
}

impl<T> IdleConnection<T> {
    pub fn new(id: u64, birth: Duration, since: Duration, value: T) -> IdleConnection<T>
        ensures { result ≡ idle_connection id (as_nanos birth) (as_nanos since) value }
    {
        IdleConnection {
            id,
            birth,
            since,
            value,
        }
    }

    pub fn id(&self) -> u64
        ensures { result ≡ self.now.id }
    {
        self.id
    }

    pub fn birth(&self) -> Duration
        ensures { as_nanos result ≡ self.now.birth }
    {
        self.birth
    }

    pub fn since(&self) -> Duration
        ensures { as_nanos result ≡ self.now.since }
    {
        self.since
    }

    pub fn into_value(self) -> T
        ensures { result ≡ self.value }
    {
        self.value
    }
}

/// The ring of the idle ones, the newest at its back.
#[derive(Drop)]
pub struct Ring<T, A: Allocator = Global> {
    held: HeapCircularBuffer<IdleConnection<T>, A>,
}

impl<T, A: Allocator> Model for Ring<T, A> {
    ghost use Rattle.std.specs.Prelude.{◌≤◌, length};
    ghost use Rattle.circular_buffer.specs.Buffer.{Buffer};
    ghost use Rattle.pool_machine.specs.Connections.{SeenIdleConnection};

    ghost Value = { Buffer (SeenIdleConnection T) };

    ghost view = { λ r. r.held };

    ghost invariant = { λ r. length r.held.items ≤ r.held.capacity };
}

// What is not counted is for the list of idle ones alone, which reaps by counted calls.
impl<T, A: Allocator> Ring<T, A> {
    pub(super) fn with_capacity(alloc: A, room: usize) -> Result<Ring<T, A>, AllocError>
    where
        T: Drop,
        ensures { IfOk result (λ ring. ring ≡ buffer [] room) }
    {
        let held = HeapCircularBuffer::with_capacity(alloc, room)?;
        Ok(Ring { held })
    }

    pub(super) fn get(&self, place: usize) -> Option<&IdleConnection<T>>
        ensures { option_copied result ≡ slice_get self.now.items place }
    {
        self.held.get(place)
    }

    /// The one that is lent next.
    pub(super) fn next(&self, order: LendingOrder) -> Option<&IdleConnection<T>>
        ensures { option_copied result ≡ next_to_lend order self.now.items }
    {
        match order {
            LendingOrder::NewestFirst => self.held.back(),
            LendingOrder::OldestFirst => self.held.front(),
        }
    }

    /// The same, which is taken out.
    pub(super) fn pop_next(&mut self, order: LendingOrder) -> Option<IdleConnection<T>>
        ensures next { result ≡ next_to_lend order self.old.items }
        ensures others { self.new ≡ buffer (still_idle order self.old.items) self.old.capacity }
        ensures same { IfNone result (self.new ≡ self.old) }
    {
        match order {
            LendingOrder::NewestFirst => self.held.pop_back(),
            LendingOrder::OldestFirst => self.held.pop_front(),
        }
    }

    /// Takes out the oldest.
    pub(super) fn pop_front(&mut self) -> Option<IdleConnection<T>>
        ensures value { result ≡ slice_get self.old.items 0 }
        ensures items { self.new ≡ buffer (drop 1 self.old.items) self.old.capacity }
    {
        self.held.pop_front()
    }

    /// Adds the newest, if there is room.
    pub(super) fn push_back(&mut self, entry: IdleConnection<T>)
        requires { length self.old.items < self.old.capacity }
        ensures { self.new ≡ buffer (self.old.items ++ entry ∷ []) self.old.capacity }
    {
        match self.held.push_back(entry) {
            None => {}
            Some(_) => unreachable!(),
        }
    }

    pub(super) fn clear(&mut self)
    where
        T: Drop,
        ensures { self.new ≡ buffer [] self.old.capacity }
    {
        self.held.clear();
    }

    /// The ring as a close hands it out.
    pub(super) fn into_held(self) -> HeapCircularBuffer<IdleConnection<T>, A>
        ensures { result ≡ self }
    {
        self.held
    }
}

impl<T, A: Allocator> Ring<T, A> {
    pub fn len(&self) -> usize
        ensures value { result ≡ length self.now.items }
        ensures fits { length self.now.items ≤ self.now.capacity }
    {
        self.held.len()
    }
}

/// A look at the one at the front.
pub fn look<'a, T, A: Allocator, L: Ledger>(
    ring: &'a Ring<T, A>,
    steps: &mut Steps<L>,
) -> Option<&'a IdleConnection<T>>
    ensures value { option_copied result ≡ slice_get ring.now.items 0 }
    ensures cost { steps.new ≡ steps.old + 1 }
{
    steps.tick();
    ring.held.front()
}

/// The one at the front is moved out.
pub fn move_out<T, A: Allocator, L: Ledger>(
    ring: &mut Ring<T, A>,
    steps: &mut Steps<L>,
) -> Option<IdleConnection<T>>
    ensures value { result ≡ slice_get ring.old.items 0 }
    ensures rest { ring.new ≡ buffer (drop 1 ring.old.items) ring.old.capacity }
    ensures cost { steps.new ≡ steps.old + 1 }
{
    steps.tick();
    ring.pop_front()
}

/// One is moved in at the back.
pub fn move_in<T, A: Allocator, L: Ledger>(
    ring: &mut Ring<T, A>,
    entry: IdleConnection<T>,
    steps: &mut Steps<L>,
)
    requires { length ring.old.items < ring.old.capacity }
    ensures items { ring.new ≡ buffer (ring.old.items ++ entry ∷ []) ring.old.capacity }
    ensures cost { steps.new ≡ steps.old + 1 }
{
    steps.tick();
    ring.push_back(entry);
}

#[tactic(auto, unfolding(crate::specs::Connections::is_expired))]
pub fn is_expired<T>(entry: &IdleConnection<T>, limits: &Limits, now: Duration) -> bool
    ensures { result ≡ is_expired (seen_limits limits.now) (as_nanos now) entry.now }
{
    limits.is_idle_too_long(now.saturating_sub(entry.since))
        || limits.is_too_old(now.saturating_sub(entry.birth))
}

#[tactic(auto, unfolding(crate::specs::Connections::released_at))]
pub fn released<T>(entry: IdleConnection<T>, now: Duration) -> Released<T>
    ensures { seen_released result ≡ released_at (as_nanos now) entry }
{
    Released {
        id: entry.id,
        age: now.saturating_sub(entry.birth),
        value: entry.value,
    }
}
