// A line of at most so many, whose memory is taken at its making. To join, to leave and to be
// marked takes no longer where more stand in line. Who looks for the first that was not notified
// goes by those before it, who were notified and did not look yet, or have a connection.
ghost use Rattle.std.specs.Prelude.{◌≡◌, ◌≢◌, ℕ, ◌+◌, ◌^◌, ◌<◌, ◌≤◌, ◌++◌, ◌∷◌, ◌↔◌, [], length, IfOk, IfSome};
ghost use Rattle.std.specs.Prelude.{IfNone, IsSome, vec_capacity, min, slice_get};
ghost use Rattle.std.specs.Prelude.{List, Some};
ghost use Rattle.std.specs.Duration.{as_nanos};
ghost use Rattle.pool_state.specs.declared.line.place.Standing.TheVariants.{Quiet, Told, Aside};
ghost use Rattle.pool_state.specs.Waiting.{weight as weight_of, is_told, is_quiet as is_quiet_of, place};
ghost use Rattle.pool_state.specs.Waiting.{waiting_in, ahead, told_at, without, with_standing};
ghost use Rattle.pool_state.specs.Waiting.{first_quiet, told_first, told_if, slot_if};
ghost use Rattle.pool_state.specs.Waiting.{copies_in, copies_of, is_over, is_late, first_late};
ghost use Rattle.pool_state.specs.Ring.{next_of, prev_of, AreInverse, reach, order, places_in};
ghost use Rattle.pool_state.specs.Ring.{standing_of, one_if, or_quiet};
ghost use Rattle.pool_state.specs.Order.{Event, Came, WaitsOn, Took, Left, Passed, IsUntold, StandsIn};
ghost use Rattle.pool_state.specs.Order.{standing_in};
ghost use Rattle.pool_state.specs.Order.{IsHistoryOf, with_told};
ghost use Rattle.pool_state.specs.Search.{StandsAt, StopsAt, IsSearch, IsLateSearch};

use super::links::{Link, skip, splice};
use super::place::{Place, Standing};
use super::ring::Ring;
use super::search::Search;
use std::alloc::{AllocError, Global};
use std::time::Duration;

/// Who stands in line, in the order in which they came. It never grows past the room that it was
/// made with.
#[derive(Drop)]
pub struct Line {
    ring: Ring,
    // The slots at which nobody stands.
    free: Vec<u32>,
    // How many wait.
    waiting: usize,
    ghost inverse: { AreInverse (next_of ring.links.items) (prev_of ring.links.items) },
    ghost closed: { reach (next_of ring.links.items) ring.len (next_of ring.links.items ring.end)
        ≡ ring.end },
    ghost stand: { (s : ℕ) → copies_of s (order ring.links.items ring.end ring.len)
        ≡ one_if (standing_of ring.standings.items s) },
    ghost apart: { (s : ℕ) → one_if (standing_of ring.standings.items s) + copies_of s free.items
        ≤ 1 },
    ghost low: { (s : ℕ) → ring.end ≤ s → copies_of s free.items ≡ 0 },
    ghost alone: { (s : ℕ) → one_if (standing_of ring.standings.items s) ≡ 0 → s ≢ ring.end
        → next_of ring.links.items s ≡ s },
    ghost counted: { waiting ≡ waiting_in (places_in ring) },
    ghost nodes: { length ring.links.items ≡ ring.end + 1 },
    ghost slots: { length ring.standings.items ≡ ring.end },
    ghost room: { ring.len + length free.items ≡ ring.end },
    ghost room_for_free: { ring.end ≤ vec_capacity free },
    ghost small: { ring.end < 2 ^ 32 },
}

impl Line {
    /// A line of so many slots, at which nobody stands. The error is lack of memory.
    pub fn new(alloc: Global, room: u32) -> Result<Line, AllocError>
        ensures { IfOk result
            (λ line. (places_in line.ring ≡ []) × (length line.free.items ≡ room)
            × IsHistoryOf [] (places_in line.ring)) }
    {
        let ring = Ring {
            links: alone(alloc, room)?,
            standings: nobody(alloc, room)?,
            end: room,
            len: 0,
        };
        let free = slots(alloc, room)?;
        Ok(Line {
            ring,
            free,
            waiting: 0,
        })
    }

    /// How many wait.
    pub fn waiting(&self) -> usize
        ensures { result ≡ waiting_in (places_in self.now.ring) }
    {
        self.waiting
    }

    /// How many wait before the one with this slot, or all who wait if nobody has it; but at most
    /// so many. It goes through no more than so many who wait.
    pub fn ahead(&self, slot: u32, most: usize) -> usize
        ensures { result ≡ min (ahead slot (places_in self.now.ring)) most }
    {
        let mut count = 0;
        let mut at = self.after(self.ring.end);
        for _ in 0..self.ring.len {
            if count >= most {
                return most;
            }
            if at == slot {
                return count;
            }
            count += weight(self.place(at).standing);
            at = self.after(at);
        }
        count
    }

    /// One more waits, at the end. Returns its slot, which nobody else has; None if all slots are
    /// taken, and then nothing changes.
    pub fn join(&mut self) -> Option<u32>
        ensures joined { IfSome result
            (λ s. places_in self.new.ring ≡ places_in self.old.ring ++ place s Quiet ∷ []) }
        ensures fresh { IfSome result (λ s. copies_in s (places_in self.old.ring) ≡ 0) }
        ensures history { (h : List Event) → IsHistoryOf h (places_in self.old.ring)
            → IfSome result (λ s. IsHistoryOf (Came s ∷ h) (places_in self.new.ring)) }
        ensures full { IfNone result (places_in self.new.ring ≡ places_in self.old.ring) }
        ensures refused { IsSome result ↔ (0 < length self.old.free.items) }
        ensures room { self.new.ring.end ≡ self.old.ring.end }
    {
        let slot = self.free.pop()?;
        splice(&mut self.ring.links, slot, self.ring.end);
        self.ring.standings[slot as usize] = Some(Standing::Quiet);
        self.ring.len += 1;
        self.waiting += 1;
        Some(slot)
    }

    /// The one with this slot leaves; the others keep their order. Returns whether it was notified,
    /// and so has to pass that on.
    pub fn leave(&mut self, slot: u32) -> bool
        ensures places { places_in self.new.ring ≡ without slot (places_in self.old.ring) }
        ensures told { result ≡ told_at slot (places_in self.old.ring) }
        ensures history { (h : List Event) → IsHistoryOf h (places_in self.old.ring)
            → IsHistoryOf (Left slot ∷ h) (places_in self.new.ring) }
        ensures room { self.new.ring.end ≡ self.old.ring.end }
    {
        let Some(standing) = self.standing(slot) else {
            return false;
        };
        skip(&mut self.ring.links, slot);
        self.ring.standings[slot as usize] = None;
        self.ring.len -= 1;
        self.waiting -= weight(standing);
        self.free.push_reserved(slot);
        was_told(standing)
    }

    /// The one with this slot has a connection: it waits no more, and keeps its place until it
    /// leaves.
    pub fn serve(&mut self, slot: u32)
        ensures places { places_in self.new.ring
            ≡ with_standing slot Aside (places_in self.old.ring) }
        ensures history { (h : List Event) (idle : ℕ) → IsHistoryOf h (places_in self.old.ring)
            → StandsIn h slot → ¬ IsUntold h slot → ahead slot (places_in self.old.ring) < idle
            → IsHistoryOf (Took slot idle ∷ h) (places_in self.new.ring) }
        ensures free { self.new.free.items ≡ self.old.free.items }
    {
        self.mark(slot, Standing::Aside);
    }

    /// The one with this slot, which was notified, is passed: it waits no more, and keeps its place
    /// until it looks or leaves.
    pub fn pass(&mut self, slot: u32)
        ensures places { places_in self.new.ring
            ≡ with_standing slot Aside (places_in self.old.ring) }
        ensures history { (h : List Event) → IsHistoryOf h (places_in self.old.ring)
            → standing_in h slot ≡ Some Told
            → IsHistoryOf (Passed slot ∷ h) (places_in self.new.ring) }
        ensures free { self.new.free.items ≡ self.old.free.items }
    {
        self.mark(slot, Standing::Aside);
    }

    /// A search from the front on.
    pub fn search(&self) -> Search
        ensures search { IsSearch result (places_in self.now.ring) }
        ensures front { result.gone ≡ 0 }
    {
        Search {
            at: self.after(self.ring.end),
            gone: 0,
        }
    }

    /// The first one that was notified and whose time is over, before all that were not notified:
    /// there the search stops. Each one's end stands at its slot.
    #[inline(always)]
    pub fn first_late(&self, search: &mut Search, now: Duration, ends: &[Duration]) -> Option<u32>
        requires { IsLateSearch (as_nanos now) ends.now search.old (places_in self.now.ring) }
        ensures late { result ≡ first_late (as_nanos now) ends.now (places_in self.now.ring) }
        ensures search { IsLateSearch (as_nanos now) ends.now search.new
            (places_in self.now.ring) }
        ensures stops { IfSome result (λ slot. search.new.at ≡ slot) }
    {
        let mut here = *search;
        let mut found = None;
        for _ in here.gone..self.ring.len {
            let place = self.look(here);
            if is_quiet(place.standing) {
                break;
            }
            if is_late(place, now, ends) {
                found = Some(here.at);
                break;
            }
            here = self.behind(here);
        }
        *search = here;
        found
    }

    /// The one with this slot waits on, and waits to be notified.
    pub fn wait_on(&mut self, slot: u32)
        ensures places { places_in self.new.ring
            ≡ with_standing slot Quiet (places_in self.old.ring) }
        ensures history { (h : List Event) → IsHistoryOf h (places_in self.old.ring)
            → StandsIn h slot → IsHistoryOf (WaitsOn slot ∷ h) (places_in self.new.ring) }
        ensures free { self.new.free.items ≡ self.old.free.items }
    {
        self.mark(slot, Standing::Quiet);
    }

    /// Notifies the first who was not notified yet, where the search stops. It returns its slot.
    #[cold]
    pub fn tell_next(&mut self, search: &mut Search) -> Option<u32>
        requires { IsSearch search.old (places_in self.old.ring) }
        ensures places { places_in self.new.ring ≡ told_first (places_in self.old.ring) }
        ensures who { result ≡ first_quiet (places_in self.old.ring) }
        ensures history { (h : List Event) → IsHistoryOf h (places_in self.old.ring)
            → IsHistoryOf (with_told result h) (places_in self.new.ring) }
        ensures nobody { (h : List Event) → IsHistoryOf h (places_in self.old.ring)
            → IfNone result ((s : ℕ) → ¬ IsUntold h s) }
        ensures free { self.new.free.items ≡ self.old.free.items }
        ensures search { IsSearch search.new (places_in self.new.ring) }
        ensures stops { StopsAt result search.new (places_in self.new.ring) }
    {
        let Some(slot) = self.first_quiet(search) else {
            return None;
        };
        self.mark(slot, Standing::Told);
        Some(slot)
    }

    /// The same, if a caller is to be woken.
    #[inline(always)]
    pub fn tell_if(&mut self, is_to_wake: bool) -> Option<u32>
        ensures places { places_in self.new.ring ≡ told_if is_to_wake (places_in self.old.ring) }
        ensures who { result ≡ slot_if is_to_wake (places_in self.old.ring) }
        ensures history { (h : List Event) → IsHistoryOf h (places_in self.old.ring)
            → IsHistoryOf (with_told result h) (places_in self.new.ring) }
        ensures free { self.new.free.items ≡ self.old.free.items }
    {
        if is_to_wake && self.ring.len > 0 {
            self.tell_next(&mut self.search())
        } else {
            None
        }
    }

    // The slot of the first who was not notified. Those who stand before it were notified, or have
    // a connection.
    fn first_quiet(&self, search: &mut Search) -> Option<u32>
        requires { IsSearch search.old (places_in self.now.ring) }
        ensures quiet { result ≡ first_quiet (places_in self.now.ring) }
        ensures search { IsSearch search.new (places_in self.now.ring) }
        ensures stops { StopsAt result search.new (places_in self.now.ring) }
    {
        let mut here = *search;
        let mut found = None;
        for _ in here.gone..self.ring.len {
            let place = self.look(here);
            if is_quiet(place.standing) {
                found = Some(here.at);
                break;
            }
            here = self.behind(here);
        }
        *search = here;
        found
    }

    // The one at whom a search stands.
    fn look(&self, search: Search) -> Place
        requires here { StandsAt search (places_in self.now.ring) }
        requires inside { search.gone < self.now.ring.len }
        ensures there { slice_get (places_in self.now.ring) search.gone ≡ Some result }
        ensures slot { result.slot ≡ search.at }
    {
        self.place(search.at)
    }

    // The search, gone on to the one behind.
    fn behind(&self, search: Search) -> Search
        requires here { StandsAt search (places_in self.now.ring) }
        requires inside { search.gone < self.now.ring.len }
        ensures here { StandsAt result (places_in self.now.ring) }
        ensures gone { result.gone ≡ search.gone + 1 }
    {
        Search {
            at: self.after(search.at),
            gone: search.gone + 1,
        }
    }

    // How the one with this slot stands from now on.
    fn mark(&mut self, slot: u32, standing: Standing)
        ensures places { places_in self.new.ring
            ≡ with_standing slot standing (places_in self.old.ring) }
        ensures free { self.new.free.items ≡ self.old.free.items }
    {
        let Some(before) = self.standing(slot) else {
            return;
        };
        self.ring.standings[slot as usize] = Some(standing);
        self.waiting = self.waiting - weight(before) + weight(standing);
    }

    // How the one with this slot stands; None where nobody does.
    fn standing(&self, slot: u32) -> Option<Standing>
        ensures { result ≡ standing_of self.now.ring.standings.items slot }
    {
        match self.ring.standings.get(slot as usize) {
            Some(standing) => *standing,
            None => None,
        }
    }

    // Who stands at a slot. (Where nobody does, the answer is of no account.)
    fn place(&self, slot: u32) -> Place
        ensures { result ≡ place slot (or_quiet (standing_of self.now.ring.standings.items slot)) }
    {
        match self.standing(slot) {
            Some(standing) => Place { slot, standing },
            None => Place {
                slot,
                standing: Standing::Quiet,
            },
        }
    }

    // The slot behind this one in line, or the end.
    fn after(&self, at: u32) -> u32
        requires { at < length self.now.ring.links.items }
        ensures next { result ≡ next_of self.now.ring.links.items at }
        ensures inside { result < length self.now.ring.links.items }
    {
        self.ring.links[at as usize].next
    }
}

// Nodes, each a ring of its own, and the end.
fn alone(alloc: Global, room: u32) -> Result<Vec<Link>, AllocError>
    ensures len { IfOk result (λ links. length links.items ≡ room + 1) }
    ensures nexts { IfOk result (λ links. (x : ℕ) → next_of links.items x ≡ x) }
    ensures prevs { IfOk result (λ links. (x : ℕ) → prev_of links.items x ≡ x) }
{
    let mut links = Vec::with_capacity(alloc, room as usize + 1)?;
    for slot in 0..room {
        links.push_reserved(Link {
            prev: slot,
            next: slot,
        });
    }
    links.push_reserved(Link {
        prev: room,
        next: room,
    });
    Ok(links)
}

// So many slots, at which nobody stands.
fn nobody(alloc: Global, room: u32) -> Result<Vec<Option<Standing>>, AllocError>
    ensures len { IfOk result (λ standings. length standings.items ≡ room) }
    ensures nobody { IfOk result
        (λ standings. (s : ℕ) → one_if (standing_of standings.items s) ≡ 0) }
{
    let mut standings = Vec::with_capacity(alloc, room as usize)?;
    for _ in 0..room {
        standings.push_reserved(None);
    }
    Ok(standings)
}

// So many slots.
fn slots(alloc: Global, room: u32) -> Result<Vec<u32>, AllocError>
    ensures len { IfOk result (λ free. length free.items ≡ room) }
    ensures apart { IfOk result (λ free. (s : ℕ) → copies_of s free.items ≤ 1) }
    ensures low { IfOk result (λ free. (s : ℕ) → room ≤ s → copies_of s free.items ≡ 0) }
    ensures capacity { IfOk result (λ free. room ≤ vec_capacity free) }
{
    let mut free = Vec::with_capacity(alloc, room as usize)?;
    for slot in 0..room {
        free.push_reserved(slot);
    }
    Ok(free)
}

// 1 for one who waits.
fn weight(standing: Standing) -> usize
    ensures { result ≡ weight_of standing }
{
    match standing {
        Standing::Quiet | Standing::Told => 1,
        Standing::Aside => 0,
    }
}

// Whether it waits and was not notified.
fn is_quiet(standing: Standing) -> bool
    ensures { result ≡ is_quiet_of standing }
{
    match standing {
        Standing::Quiet => true,
        Standing::Told | Standing::Aside => false,
    }
}

// Whether it waits and was notified.
fn was_told(standing: Standing) -> bool
    ensures { result ≡ is_told standing }
{
    match standing {
        Standing::Told => true,
        Standing::Quiet | Standing::Aside => false,
    }
}

// Whether one was notified, and its time is over.
fn is_late(place: Place, now: Duration, ends: &[Duration]) -> bool
    ensures { result ≡ is_late (as_nanos now) ends.now place }
{
    was_told(place.standing) && is_over(now, ends.get(place.slot as usize).copied())
}

// Whether the time of a call is over, of which this is the end, if any is known.
fn is_over(now: Duration, end: Option<Duration>) -> bool
    ensures { result ≡ is_over (as_nanos now) end }
{
    match end {
        Some(end) => now.checked_sub(end).is_some(),
        None => false,
    }
}
