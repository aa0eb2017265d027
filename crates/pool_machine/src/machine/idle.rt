// The connections that are idle.
ghost use Rattle.std.specs.Prelude.{◌≡◌, ◌+◌, ◌*◌, ◌≤◌, ◌<◌, ◌++◌, ◌∷◌, [], None, length, map};
ghost use Rattle.std.specs.Prelude.{filter, IfOk, IfNone, vec_capacity, vec_len, option_map};
ghost use Rattle.std.specs.Prelude.{option_copied, slice_get};
ghost use Rattle.std.specs.Duration.{as_nanos};
ghost use Rattle.std.specs.List.Sorted.{IsNonDecreasingBy};
ghost use Rattle.circular_buffer.specs.Buffer.{buffer};
ghost use Rattle.pool_machine.specs.Limits.{seen_limits};
ghost use Rattle.pool_machine.specs.Lending.{next_to_lend, still_idle};
ghost use Rattle.pool_machine.specs.Connections.{id_of_idle, since_of, is_expired, is_kept, closed_of};
ghost use Rattle.pool_machine.specs.Connections.{pair_of};
ghost use Rattle.pool_machine.specs.Seen.{seen_released};

use super::answers::Released;
use super::leftover::Leftover;
use super::reaping::{reap_each, reap_front};
use crate::schedule::{LendingOrder, Limits};
use crate::steps::Steps;
pub use counted::IdleConnection;
use counted::Ring;
use shedding::{shed_each, shed_front};
use std::alloc::{AllocError, Allocator, Global};
use std::marker::Model;
use std::sync::ledger::Ledger;
use std::time::Duration;

pub mod counted;
mod shedding;

/// The connections in a ring, the newest at its back, until it is closed.
#[derive(Drop)]
pub struct Idle<T, A: Allocator = Global> {
    ring: Option<Ring<T, A>>,
}

impl<T, A: Allocator> Model for Idle<T, A> {
    ghost use Rattle.pool_machine.specs.Connections.{SeenIdleConnection};
    ghost use Rattle.circular_buffer.specs.Buffer.{Buffer};
    ghost use Rattle.pool_machine.specs.Roster.{roster_of};

    ghost Value = { Buffer (SeenIdleConnection T) };

    ghost view = { λ a. roster_of a.ring };
}

impl<T, A: Allocator> Idle<T, A> {
    pub fn new(alloc: A, room: usize) -> Result<Idle<T, A>, AllocError>
    where
        T: Drop,
        ensures { IfOk result (λ idle. idle ≡ buffer [] room) }
    {
        let ring = Ring::with_capacity(alloc, room)?;
        Ok(Idle { ring: Some(ring) })
    }

    pub fn len(&self) -> usize
        ensures { result ≡ length self.now.items }
    {
        match &self.ring {
            Some(ring) => ring.len(),
            None => 0,
        }
    }

    /// The id of the one at a place, from the oldest.
    pub fn id_at(&self, place: u32) -> Option<u64>
        ensures { result ≡ option_map id_of_idle (slice_get self.now.items place) }
    {
        match &self.ring {
            Some(ring) => ring.get(place as usize).map(|entry| entry.id()),
            None => None,
        }
    }

    /// The one at a place, from the oldest.
    pub fn get(&self, place: usize) -> Option<&IdleConnection<T>>
        ensures { option_copied result ≡ slice_get self.now.items place }
    {
        match &self.ring {
            Some(ring) => ring.get(place),
            None => None,
        }
    }

    /// The one that is lent next.
    pub fn next(&self, order: LendingOrder) -> Option<&IdleConnection<T>>
        ensures { option_copied result ≡ next_to_lend order self.now.items }
    {
        match &self.ring {
            Some(ring) => ring.next(order),
            None => None,
        }
    }

    /// The same, which is idle no more.
    pub fn take(&mut self, order: LendingOrder) -> Option<IdleConnection<T>>
        ensures next { result ≡ next_to_lend order self.old.items }
        ensures others { self.new ≡ buffer (still_idle order self.old.items) self.old.capacity }
        ensures same { IfNone result (self.new ≡ self.old) }
    {
        match &mut self.ring {
            Some(ring) => ring.pop_next(order),
            None => None,
        }
    }

    /// Adds the newest one.
    pub fn add(&mut self, entry: IdleConnection<T>)
        requires { length self.old.items < self.old.capacity }
        ensures { self.new ≡ buffer (self.old.items ++ entry ∷ []) self.old.capacity }
    {
        match &mut self.ring {
            Some(ring) => ring.push_back(entry),
            None => unreachable!(),
        }
    }

    /// Moves the expired ones into a list, oldest first. Looks and moves are counted: if the idle
    /// time alone is limited, it stops at the first that is kept; if neither is, it looks at none.
    pub fn reap<L: Ledger>(
        &mut self,
        limits: &Limits,
        now: Duration,
        out: &mut Vec<Released<T>>,
        steps: &mut Steps<L>,
    )
        requires in_order { IsNonDecreasingBy since_of self.old.items }
        requires empty { vec_len out.old ≡ 0 }
        requires room { length self.old.items ≤ vec_capacity out.old }
        ensures released { map seen_released out.new.items
            ≡ closed_of (seen_limits limits.now) (as_nanos now) self.old.items }
        ensures kept { self.new
            ≡ buffer (filter (is_kept (seen_limits limits.now)
            (as_nanos now)) self.old.items) self.old.capacity }
        ensures count { length self.new.items
            + length (filter (is_expired (seen_limits limits.now) (as_nanos now)) self.old.items)
            ≡ length self.old.items }
        ensures capacity { vec_capacity out.new ≡ vec_capacity out.old }
        ensures few { (seen_limits limits.now).max_lifetime ≡ None
            → steps.new ≤ steps.old + (2 * vec_len out.new + 1) }
        ensures each { steps.new ≤ steps.old + 2 * length self.old.items }
        ensures none { (seen_limits limits.now).max_lifetime ≡ None
            → (seen_limits limits.now).idle_timeout ≡ None → steps.new ≡ steps.old }
    {
        if let Some(ring) = &mut self.ring {
            if limits.max_lifetime().is_some() {
                reap_each(ring, limits, now, out, steps);
            } else {
                reap_front(ring, limits, now, out, steps);
            }
        }
    }

    /// Lets the expired ones go. If the idle time alone is limited, it stops at the first that is
    /// kept; if neither is, it looks at none.
    pub fn shed(&mut self, limits: &Limits, now: Duration)
    where
        T: Drop,
        requires in_order { IsNonDecreasingBy since_of self.old.items }
        ensures kept { self.new
            ≡ buffer (filter (is_kept (seen_limits limits.now)
            (as_nanos now)) self.old.items) self.old.capacity }
        ensures count { length self.new.items
            + length (filter (is_expired (seen_limits limits.now) (as_nanos now)) self.old.items)
            ≡ length self.old.items }
    {
        if let Some(ring) = &mut self.ring {
            if limits.max_lifetime().is_some() {
                shed_each(ring, limits, now);
            } else {
                shed_front(ring, limits, now);
            }
        }
    }

    /// Lets all of them go; their room stays.
    pub fn clear(&mut self)
    where
        T: Drop,
        ensures { self.new ≡ buffer [] self.old.capacity }
    {
        if let Some(ring) = &mut self.ring {
            ring.clear();
        }
    }

    /// Hands all of them out; there is no room from then on.
    pub fn close(&mut self) -> Leftover<T, A>
        ensures handed { result ≡ map pair_of self.old.items }
        ensures closed { self.new ≡ buffer [] 0 }
    {
        match self.ring.take() {
            Some(ring) => Leftover::of(Some(ring.into_held())),
            None => Leftover::of(None),
        }
    }
}
