// What a reap does with the ring of idle connections.
ghost use Rattle.std.specs.Prelude.{◌≡◌, ◌+◌, ◌*◌, ◌≤◌, None, length, map, filter, vec_len};
ghost use Rattle.std.specs.Prelude.{vec_capacity};
ghost use Rattle.std.specs.Duration.{as_nanos};
ghost use Rattle.std.specs.List.Sorted.{IsNonDecreasingBy};
ghost use Rattle.circular_buffer.specs.Buffer.{buffer};
ghost use Rattle.pool_machine.specs.Limits.{seen_limits};
ghost use Rattle.pool_machine.specs.Connections.{is_expired, is_kept, since_of, released_at};
ghost use Rattle.pool_machine.specs.Connections.{closed_of};
ghost use Rattle.pool_machine.specs.Seen.{seen_released};

use super::answers::Released;
use super::idle::counted::{Ring, is_expired, look, move_in, move_out, released};
use crate::schedule::Limits;
use crate::steps::Steps;
use std::alloc::Allocator;
use std::sync::ledger::Ledger;
use std::time::Duration;

/// Takes connections from the front as long as they are expired. Those behind the first that is not
/// came to be idle no earlier, so none of them is, if births don't matter. If the idle time doesn't
/// either, it looks at none.
pub(super) fn reap_front<T, A: Allocator, L: Ledger>(
    ring: &mut Ring<T, A>,
    limits: &Limits,
    now: Duration,
    out: &mut Vec<Released<T>>,
    steps: &mut Steps<L>,
)
    requires births_alike { (seen_limits limits.now).max_lifetime ≡ None }
    requires in_order { IsNonDecreasingBy since_of ring.old.items }
    requires empty { vec_len out.old ≡ 0 }
    requires room { length ring.old.items ≤ vec_capacity out.old }
    ensures released { map seen_released out.new.items
        ≡ closed_of (seen_limits limits.now) (as_nanos now) ring.old.items }
    ensures kept { ring.new
        ≡ buffer (filter (is_kept (seen_limits limits.now) (as_nanos now)) ring.old.items)
        ring.old.capacity }
    ensures capacity { vec_capacity out.new ≡ vec_capacity out.old }
    ensures few { steps.new ≤ steps.old + (2 * vec_len out.new + 1) }
    ensures each { steps.new ≤ steps.old + 2 * length ring.old.items }
    ensures none { (seen_limits limits.now).idle_timeout ≡ None → steps.new ≡ steps.old }
{
    if limits.idle_timeout().is_none() {
        return;
    }
    for _ in 0..ring.len() {
        let Some(oldest) = look(ring, steps) else {
            return;
        };
        if !is_expired(oldest, limits, now) {
            return;
        }
        if let Some(closed) = move_out(ring, steps) {
            out.push_reserved(released(closed, now));
        }
    }
}

/// Takes each connection from the front once, and puts those that are kept at the back.
pub(super) fn reap_each<T, A: Allocator, L: Ledger>(
    ring: &mut Ring<T, A>,
    limits: &Limits,
    now: Duration,
    out: &mut Vec<Released<T>>,
    steps: &mut Steps<L>,
)
    requires empty { vec_len out.old ≡ 0 }
    requires room { length ring.old.items ≤ vec_capacity out.old }
    ensures released { map seen_released out.new.items
        ≡ closed_of (seen_limits limits.now) (as_nanos now) ring.old.items }
    ensures kept { ring.new
        ≡ buffer (filter (is_kept (seen_limits limits.now) (as_nanos now)) ring.old.items)
        ring.old.capacity }
    ensures capacity { vec_capacity out.new ≡ vec_capacity out.old }
    ensures each { steps.new ≤ steps.old + 2 * length ring.old.items }
{
    let all = ring.len();
    for _ in 0..all {
        if let Some(entry) = move_out(ring, steps) {
            if is_expired(&entry, limits, now) {
                out.push_reserved(released(entry, now));
            } else {
                move_in(ring, entry, steps);
            }
        }
    }
}
