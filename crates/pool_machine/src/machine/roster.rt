// A list of things with ids, which has its room from the start. One that leaves is found by a hint
// and leaves a hole, so no other is moved, and holes are taken out many at a time. Nothing is
// promised of hints: a wrong one is seen, and costs a search.
ghost use Rattle.std.specs.Prelude.{◌≡◌, ◌↔◌, ℕ, ◌+◌, ◌<◌, ◌≤◌, ◌++◌, ◌∷◌, [], length, map, IfOk};
ghost use Rattle.std.specs.Prelude.{IfNone, IsSome, IsTrue, MatchOption, Option, None, slice_set};
ghost use Rattle.std.specs.Prelude.{slice_index_or, vec_capacity, vec_len, option_copied};
ghost use Rattle.std.specs.Iterator.{item_count, YieldsFirstRef};
ghost use Rattle.circular_buffer.specs.Buffer.{buffer};
ghost use Rattle.pool_machine.specs.Ids.{found, without, copies_of};
ghost use Rattle.pool_machine.specs.Slots.{held, holds, NoneHeldFrom, HeldAt};

use std::alloc::{AllocError, Allocator, Global};
use std::marker::Model;

/// What is known by an id.
pub trait HasId: Drop {
    ghost id_of: { Self → ℕ };

    fn id(&self) -> u64
        ensures { result ≡ id_of self.now };
}

impl HasId for u64 {
    ghost use Rattle.pool_machine.specs.Ids.{same_id};

    ghost id_of = { same_id };

    fn id(&self) -> u64 {
        *self
    }
}

/// A list that never grows past the room it was made with.
#[derive(Drop)]
pub struct Roster<X, A: Allocator = Global> {
    // In the order of coming, with a hole where one left.
    slots: Vec<Option<X>, A>,
    // Where an id was put, by its lowest bits.
    hints: Vec<u32, A>,
    count: usize,
    room: usize,
}

impl<X, A: Allocator> Model for Roster<X, A> {
    ghost use Rattle.std.specs.Prelude.{◌≡◌, ◌≤◌, length, vec_capacity};
    ghost use Rattle.circular_buffer.specs.Buffer.{Buffer, buffer};

    ghost Value = { Buffer X };

    ghost use Rattle.pool_machine.specs.Slots.{held};

    ghost view = { λ a. buffer (held a.slots.items) a.room };

    ghost invariant = { λ a. (a.count ≡ length (held a.slots.items))
        × (a.room ≤ vec_capacity a.slots) };
}

impl<X: HasId, A: Allocator> Roster<X, A> {
    pub fn new(alloc: A, room: usize) -> Result<Roster<X, A>, AllocError>
    where
        A: Copy,
        ensures { IfOk result (λ made. made ≡ buffer [] room) }
    {
        let places = room.checked_add(room / 4).ok_or(AllocError)?;
        // The next power of two is to be a number too.
        if places > usize::MAX / 2 {
            return Err(AllocError);
        }
        let slots = Vec::with_capacity(alloc, places)?;
        let hints = vec![in alloc; 0u32; places.next_power_of_two()]?;
        Ok(Roster {
            slots,
            hints,
            count: 0,
            room,
        })
    }

    /// The same, with no memory but for the room itself: there are no hints, so each removal
    /// searches.
    pub fn tight(alloc: A, room: usize) -> Result<Roster<X, A>, AllocError>
    where
        A: Copy,
        ensures { IfOk result (λ made. made ≡ buffer [] room) }
    {
        let slots = Vec::with_capacity(alloc, room)?;
        Ok(Roster {
            slots,
            hints: Vec::new(alloc),
            count: 0,
            room,
        })
    }

    pub fn len(&self) -> usize
        ensures { result ≡ length self.now.items }
    {
        self.count
    }

    /// All of them, in order.
    pub fn items(&self) -> Items<'_, X>
        ensures { held result.slots.now ≡ self.now.items }
    {
        Items { slots: &self.slots }
    }

    /// The ids, in order.
    pub fn ids<B: Allocator>(&self, alloc: B) -> Result<Vec<u64, B>, AllocError>
        ensures { IfOk result (λ ids. ids.items ≡ map X.id_of self.now.items) }
    {
        let mut ids = Vec::with_capacity(alloc, self.count)?;
        for x in self.items() {
            ids.push_reserved(x.id());
        }
        Ok(ids)
    }

    /// Whether these are the ids, in order.
    pub fn has_ids(&self, ids: &[u64]) -> bool
        ensures { IsTrue result ↔ (map X.id_of self.now.items ≡ ids.now) }
    {
        let mut left = ids;
        for x in self.items() {
            let Some((id, later)) = left.split_first() else {
                return false;
            };
            if *id != x.id() {
                return false;
            }
            left = later;
        }
        left.is_empty()
    }

    /// The one with the id; None if there is none.
    pub fn get(&self, id: u64) -> Option<&X>
        requires { copies_of id (map X.id_of self.now.items) ≤ 1 }
        ensures { option_copied result ≡ found X.id_of id self.now.items }
    {
        match place_of(&self.slots, hint_of(&self.hints, id), id) {
            Some(place) => self.slots[place].as_ref(),
            None => None,
        }
    }

    /// Adds one at the end.
    #[inline(always)]
    pub fn add(&mut self, x: X)
        requires { length self.old.items < self.old.capacity }
        ensures { self.new ≡ buffer (self.old.items ++ x ∷ []) self.old.capacity }
    {
        make_room(&mut self.slots, &mut self.hints, self.count);
        note(&mut self.hints, x.id(), self.slots.len());
        self.slots.push_reserved(Some(x));
        self.count += 1;
    }

    /// The one with the id, which leaves the list; None if there is none. The others keep their
    /// order.
    #[inline(always)]
    pub fn remove(&mut self, id: u64) -> Option<X>
        requires { copies_of id (map X.id_of self.old.items) ≤ 1 }
        ensures gone { result ≡ found X.id_of id self.old.items }
        ensures rest { self.new ≡ buffer (without X.id_of id self.old.items) self.old.capacity }
        ensures same { IfNone result (self.new ≡ self.old) }
        ensures len { IsSome result → length self.new.items + 1 ≡ length self.old.items }
    {
        match place_of(&self.slots, hint_of(&self.hints, id), id) {
            Some(place) => {
                let gone = take_at(&mut self.slots, place);
                shorten(&mut self.slots);
                self.count -= 1;
                gone
            }
            None => None,
        }
    }

    pub fn clear(&mut self)
        ensures { self.new ≡ buffer [] self.old.capacity }
    {
        self.slots.clear();
        self.count = 0;
    }
}

/// What stands in slots, in order.
#[derive(Drop)]
pub struct Items<'a, X> {
    slots: &'a [Option<X>],
}

impl<'a, X> Iterator for Items<'a, X> {
    type Item = &'a X;

    ghost next_gives = { YieldsFirstRef (λ s. held s.slots.now) };

    ghost remaining = { item_count (λ s. held s.slots.now) };

    fn next(&mut self) -> Option<&'a X> {
        'holes: while let Some((slot, later)) = self.slots.split_first() {
            self.slots = later;
            if let Some(x) = slot {
                return Some(x);
            }
        }
        None
    }
}

// Makes room for one more: where the slots are full or mostly holes, takes the holes out and sets
// the hints anew. There are more slots than the room by a quarter, so many left the list since the
// last time, and each of them pays for a few moves.
fn make_room<X: HasId, A: Allocator>(slots: &mut Vec<Option<X>, A>, hints: &mut [u32], count: usize)
    requires counted { count ≡ length (held slots.old.items) }
    requires fits { count < vec_capacity slots.old }
    ensures held { held slots.new.items ≡ held slots.old.items }
    ensures room { vec_len slots.new < vec_capacity slots.new }
    ensures capacity { vec_capacity slots.new ≡ vec_capacity slots.old }
{
    if slots.len() >= slots.capacity() || slots.len() / 2 > count {
        squeeze(slots);
        note_all(hints, slots);
    }
}

// Takes the holes out.
fn squeeze<X: Drop, A: Allocator>(slots: &mut Vec<Option<X>, A>)
    ensures held { held slots.new.items ≡ held slots.old.items }
    ensures len { length slots.new.items ≡ length (held slots.old.items) }
    ensures capacity { vec_capacity slots.new ≡ vec_capacity slots.old }
{
    slots.retain(|slot| slot.is_some());
}

// Takes the holes off the end.
fn shorten<X: Drop, A: Allocator>(slots: &mut Vec<Option<X>, A>)
    ensures held { held slots.new.items ≡ held slots.old.items }
    ensures capacity { vec_capacity slots.new ≡ vec_capacity slots.old }
{
    let mut len = slots.len();
    'holes: while len > 0 && slots[len - 1].is_none() {
        len -= 1;
    }
    slots.truncate(len);
}

// What a slot holds, which leaves it.
fn take_at<X, A: Allocator>(slots: &mut Vec<Option<X>, A>, place: usize) -> Option<X>
    requires { place < length slots.old.items }
    ensures gone { (d : Option X) → result ≡ slice_index_or slots.old.items place d }
    ensures rest { slots.new.items ≡ slice_set slots.old.items place None }
    ensures capacity { vec_capacity slots.new ≡ vec_capacity slots.old }
{
    slots[place].take()
}

// Whether a slot holds the one with the id.
fn has_id<X: HasId>(slot: &Option<X>, id: u64) -> bool
    ensures { result ≡ holds X.id_of id slot.now }
{
    match slot {
        Some(x) => x.id() == id,
        None => false,
    }
}

// The slot that holds the one with an id, which is looked for first where the hint says, and then
// from the end.
fn place_of<X: HasId>(slots: &[Option<X>], hint: usize, id: u64) -> Option<usize>
    ensures { MatchOption result (NoneHeldFrom X.id_of id slots.now 0)
        (λ p. HeldAt X.id_of id slots.now p) }
{
    if hint < slots.len() && has_id(&slots[hint], id) {
        return Some(hint);
    }
    let mut place = slots.len();
    'back: while place > 0 {
        place -= 1;
        if has_id(&slots[place], id) {
            return Some(place);
        }
    }
    None
}

// Where the one with an id was put last, or another one whose id ends in the same bits.
fn hint_of(hints: &[u32], id: u64) -> usize {
    let mask = hints.len().wrapping_sub(1);
    match hints.get(id as usize & mask) {
        Some(hint) => *hint as usize,
        None => 0,
    }
}

fn note(hints: &mut [u32], id: u64, place: usize) {
    let mask = hints.len().wrapping_sub(1);
    let at = id as usize & mask;
    if at < hints.len()
        && let Ok(hint) = u32::try_from(place)
    {
        hints[at] = hint;
    }
}

fn note_all<X: HasId>(hints: &mut [u32], slots: &[Option<X>]) {
    for (place, slot) in slots.iter().enumerate() {
        if let Some(x) = slot {
            note(hints, x.id(), place);
        }
    }
}
