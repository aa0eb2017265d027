// What a close hands out.
ghost use Rattle.std.specs.Prelude.{◌≡◌, map, length};
ghost use Rattle.std.specs.Iterator.{at_most};
ghost use Rattle.std.specs.Map.Iter.{TakesFirst};
ghost use Rattle.pool_machine.specs.Connections.{pair_of};
ghost use Rattle.pool_machine.specs.Roster.{roster_of};

use super::idle::IdleConnection;
use circular_buffer::HeapCircularBuffer;
use std::alloc::{Allocator, Global};
use std::marker::Model;

/// The idle values that a close hands out, oldest first, each with its id. It takes no memory: it
/// is the ring that held them, and each costs one move out of it.
#[derive(Drop)]
pub struct Leftover<T, A: Allocator = Global> {
    rest: Option<HeapCircularBuffer<IdleConnection<T>, A>>,
}

impl<T, A: Allocator> Model for Leftover<T, A> {
    ghost use Rattle.std.specs.Prelude.{ℕ, List, map};

    ghost Value = { List (ℕ × T) };

    ghost use Rattle.pool_machine.specs.Connections.{pair_of};
    ghost use Rattle.pool_machine.specs.Roster.{roster_of};

    ghost view = { λ a. map pair_of (roster_of a.rest).items };
}

impl<T, A: Allocator> Leftover<T, A> {
    /// The ring, or none if an earlier close has it.
    pub fn of(rest: Option<HeapCircularBuffer<IdleConnection<T>, A>>) -> Leftover<T, A>
        ensures { result ≡ map pair_of (roster_of rest).items }
    {
        Leftover { rest }
    }
}

impl<T: Drop, A: Allocator> Iterator for Leftover<T, A> {
    type Item = (u64, T);

    ghost next_gives = { TakesFirst (λ x. x) };

    ghost remaining = { λ s. at_most (length s) };

    fn next(&mut self) -> Option<(u64, T)> {
        match &mut self.rest {
            Some(rest) => {
                let entry = rest.pop_front()?;
                Some((entry.id(), entry.into_value()))
            }
            None => None,
        }
    }
}
