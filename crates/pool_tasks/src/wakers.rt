// What wakes those who wait for a pool: the wakers of the callers in line, each at its slot, and the
// lists of those who wait beside the line.
ghost use Rattle.std.specs.Prelude.{◌≡◌, ◌≢◌, ℕ, length, true, false, None, Some, IsSome};
ghost use Rattle.std.specs.Prelude.{IfSome, IfNone, IfOk, IsTrue};
ghost use Rattle.futures.specs.Task.{Covers, Keeps};
ghost use Rattle.futures.specs.WaitList.{IsParkedAt, IsQueued, Sets, value_of};
ghost use Rattle.pool_tasks.specs.Wakers.{waker_at, SleepsAt, KeepsOthers, HasPlace};
ghost use Rattle.pool_tasks.specs.Wakers.{NobodySleeps, AreDrained};

use futures::task::{Context, Poll, Source, Waker};
use futures::util::wait_list::WaitList;
use pool_state::ToWake;
use r2d2_core::Book;
use std::alloc::{AllocError, Global};
use std::time::Duration;

/// So many slots, at which nobody sleeps.
pub(crate) fn no_wakers(alloc: Global, room: u32) -> Result<Vec<Option<Waker>>, AllocError>
    ensures none { IfOk result (λ wakers. (slot : ℕ) → waker_at wakers slot ≡ None) }
    ensures slots { IfOk result (λ wakers. length wakers.items ≡ room) }
{
    let mut wakers = Vec::with_capacity(alloc, room as usize)?;
    for _ in 0..room {
        wakers.push(None)?;
    }
    Ok(wakers)
}

/// The slot of a caller in line, if it sleeps there.
pub(crate) fn asleep_at(wakers: &Vec<Option<Waker>>, place: Option<u32>) -> Option<u32>
    ensures asleep { IfSome result
        (λ slot. (place ≡ Some slot) × IsSome (waker_at wakers.now slot)) }
    ensures awake { IfNone result (IfSome place (λ slot. waker_at wakers.now slot ≡ None)) }
{
    let slot = place?;
    match wakers.get(slot as usize) {
        Some(Some(_)) => Some(slot),
        _ => None,
    }
}

/// The caller at this slot sleeps there.
pub(crate) fn register<U>(
    wakers: &mut Vec<Option<Waker>>,
    cx: &mut Context<'_>,
    source: &Source,
    slot: u32,
) -> Poll<U>
    ensures pending { result ≡ Poll.Pending }
    ensures registered { Covers cx.new (λ s. s ≡ source.now.id) }
    ensures kept { Keeps cx.old cx.new }
    ensures left { SleepsAt cx.old cx.new wakers.new slot }
    ensures slots { length wakers.new.items ≡ length wakers.old.items }
    ensures others { (other : ℕ) → other ≢ slot
        → waker_at wakers.new other ≡ waker_at wakers.old other }
{
    let index = slot as usize;
    if index >= wakers.len() {
        // Each slot has one.
        return cx.yield_now();
    }
    cx.register(source, &mut wakers[index])
}

// Wakes the caller at this slot, if it sleeps.
fn clear(wakers: &mut Vec<Option<Waker>>, slot: u32)
    ensures cleared { waker_at wakers.new slot ≡ None }
    ensures slots { length wakers.new.items ≡ length wakers.old.items }
    ensures others { (other : ℕ) → other ≢ slot
        → waker_at wakers.new other ≡ waker_at wakers.old other }
{
    let index = slot as usize;
    if index < wakers.len() {
        wakers[index] = None;
    }
}

/// The same, if it stands in line.
#[inline(always)]
pub(crate) fn clear_at(wakers: &mut Vec<Option<Waker>>, place: Option<u32>)
    ensures cleared { IfSome place (λ slot. waker_at wakers.new slot ≡ None) }
    ensures slots { length wakers.new.items ≡ length wakers.old.items }
    ensures alone { KeepsOthers place wakers.old wakers.new }
    ensures others { (other : ℕ) → waker_at wakers.old other ≡ None
        → waker_at wakers.new other ≡ None }
{
    if let Some(slot) = place {
        clear(wakers, slot);
    }
}

// Wakes each who sleeps in line.
#[cold]
fn clear_all(wakers: &mut Vec<Option<Waker>>)
    ensures cleared { (slot : ℕ) → waker_at wakers.new slot ≡ None }
    ensures slots { length wakers.new.items ≡ length wakers.old.items }
{
    for slot in 0..wakers.len() {
        wakers[slot] = None;
    }
}

/// Wakes those for whom a step left something.
#[inline(always)]
pub(crate) fn wake(
    wakers: &mut Vec<Option<Waker>>,
    workers: &mut WaitList<Option<Duration>>,
    to_wake: ToWake,
)
    ensures told { IfSome to_wake.told (λ slot. waker_at wakers.new slot ≡ None) }
    ensures line { IsTrue to_wake.all_in_line → (slot : ℕ) → waker_at wakers.new slot ≡ None }
    ensures slots { length wakers.new.items ≡ length wakers.old.items }
    ensures alone { to_wake.all_in_line ≡ false → KeepsOthers to_wake.told wakers.old wakers.new }
    ensures workers { IsTrue to_wake.workers → NobodySleeps workers.new }
    ensures rest { to_wake.workers ≡ false → workers.new ≡ workers.old }
    ensures fewer { (key : ℕ) → IsQueued workers.new key → IsQueued workers.old key }
    ensures others { (other : ℕ) → waker_at wakers.old other ≡ None
        → waker_at wakers.new other ≡ None }
{
    let ToWake {
        // Nobody waits where this would wake one: see the type of `TaskBook`.
        callers: _,
        workers: are_due,
        told,
        all_in_line,
    } = to_wake;
    clear_at(wakers, told);
    if all_in_line {
        clear_all(wakers);
    }
    wake_workers(workers, are_due);
}

/// Wakes the workers, if they are to be woken.
#[inline(always)]
pub(crate) fn wake_workers(workers: &mut WaitList<Option<Duration>>, is_to_wake: bool)
    ensures workers { IsTrue is_to_wake → NobodySleeps workers.new }
    ensures rest { is_to_wake ≡ false → workers.new ≡ workers.old }
    ensures fewer { (key : ℕ) → IsQueued workers.new key → IsQueued workers.old key }
{
    if is_to_wake {
        workers.wake_all();
    }
}

/// How many are lent.
pub(crate) fn lent_in<P>(book: &Book<P>) -> u32
    ensures { result ≡ length book.now.picture.lent }
{
    book.connections() - book.idle()
}

/// Wakes those who wait until nothing is lent, if nothing is. (A method would owe that none of them
/// sleeps then, which it brings about.)
#[inline(always)]
pub(crate) fn wake_drains<P>(drains: &mut WaitList<()>, book: &Book<P>)
    ensures { AreDrained book.now.picture.lent drains.new }
{
    if lent_in(book) == 0 {
        drains.wake_all();
    }
}

/// One who waits beside the line sleeps until the list is woken, with this value.
pub(crate) fn park<T: Copy, U>(
    list: &mut WaitList<T>,
    cx: &mut Context<'_>,
    source: &Source,
    key: usize,
    value: T,
) -> Poll<U>
    ensures pending { result ≡ Poll.Pending }
    ensures registered { Covers cx.new (λ s. s ≡ source.now.id) }
    ensures kept { Keeps cx.old cx.new }
    ensures parked { HasPlace list.old key → IsParkedAt cx.old cx.new list.new key }
    ensures value { HasPlace list.old key → Sets list.old list.new key (Some value) }
    ensures others { (other : ℕ) → IsQueued list.old other → IsQueued list.new other }
    ensures alone { (other : ℕ) → other ≢ key → IsQueued list.new other
        → IsQueued list.old other }
    ensures absent { value_of list.old key ≡ None → list.new ≡ list.old }
{
    if list.get(key).is_none() {
        // Its ticket keeps its place.
        return cx.yield_now();
    }
    list.set(key, value);
    if !list.is_queued(key) {
        list.enqueue(key);
    }
    list.register(cx, source, key)
}
