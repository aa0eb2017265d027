// Which idle connections of a ring stay after a reap, where none is handed out.
ghost use Rattle.std.specs.Prelude.{◌≡◌, None, filter};
ghost use Rattle.std.specs.Duration.{as_nanos};
ghost use Rattle.std.specs.List.Sorted.{IsNonDecreasingBy};
ghost use Rattle.circular_buffer.specs.Buffer.{buffer};
ghost use Rattle.pool_machine.specs.Limits.{seen_limits};
ghost use Rattle.pool_machine.specs.Connections.{is_kept, since_of};

use super::counted::{Ring, is_expired};
use crate::schedule::Limits;
use std::alloc::Allocator;
use std::time::Duration;

/// Lets connections at the front go as long as they are expired. Those behind the first that is not
/// came to be idle no earlier, so none of them is, if births don't matter. If the idle time doesn't
/// either, it looks at none.
pub(super) fn shed_front<T: Drop, A: Allocator>(
    ring: &mut Ring<T, A>,
    limits: &Limits,
    now: Duration,
)
    requires births_alike { (seen_limits limits.now).max_lifetime ≡ None }
    requires in_order { IsNonDecreasingBy since_of ring.old.items }
    ensures { ring.new
        ≡ buffer (filter (is_kept (seen_limits limits.now) (as_nanos now)) ring.old.items)
        ring.old.capacity }
{
    if limits.idle_timeout().is_none() {
        return;
    }
    for _ in 0..ring.len() {
        let Some(oldest) = ring.get(0) else {
            return;
        };
        if !is_expired(oldest, limits, now) {
            return;
        }
        ring.pop_front();
    }
}

/// Takes each connection from the front once, and puts those that are kept at the back.
pub(super) fn shed_each<T: Drop, A: Allocator>(
    ring: &mut Ring<T, A>,
    limits: &Limits,
    now: Duration,
)
    ensures { ring.new
        ≡ buffer (filter (is_kept (seen_limits limits.now) (as_nanos now)) ring.old.items)
        ring.old.capacity }
{
    let all = ring.len();
    for _ in 0..all {
        if let Some(entry) = ring.pop_front() {
            if !is_expired(&entry, limits, now) {
                ring.push_back(entry);
            }
        }
    }
}
