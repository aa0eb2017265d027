// Those who stand in line: who has its turn takes, what is idle is kept for the first of them, and
// each of them has one opening ordered, as soon as nothing is idle.
ghost use Rattle.std.specs.Prelude.{◌≡◌, ◌≤◌, ◌<◌, ◌+◌, ◌*◌, ◌↔◌, ℕ, length, min};
ghost use Rattle.std.specs.Prelude.{IfSome, IsTrue, None, true, false, List, option_map, is_some};
ghost use Rattle.std.specs.Duration.{as_nanos};
ghost use Rattle.r2d2_core.specs.BookSteps.{IsTake};
ghost use Rattle.pool_machine.specs.Seen.{seen_take};
ghost use Rattle.pool_state.specs.Order.{Event, IsHistoryOf, IsPlaceIn, with_told, with_take};
ghost use Rattle.pool_state.specs.Order.{with_wait, with_leave, with_pass, with_look};
ghost use Rattle.pool_state.specs.Search.{StopsAt, AreSearches};
ghost use Rattle.pool_state.specs.Waiting.{waiting_in, before, stood_by, served, left_by, told_by};
ghost use Rattle.pool_state.specs.Waiting.{is_kept, told_at, first_late, pass_first};
ghost use Rattle.pool_state.specs.Waiting.{told_instead};

use super::{MOST_AHEAD, PoolState};
use crate::engine::{TakeCounter, TakeTotal};
use crate::line::search::LateSearch;
use crate::waiters::{ToWake, Wake};
use r2d2_core::Take;
use std::time::Duration;

/// What a caller that may wait comes to.
pub enum Look<P> {
    /// It was its turn.
    Found { id: u64, value: P },
    /// It stands in line, and waits at this slot.
    Stands(u32),
    /// There is no room in line.
    Full,
}

impl<P, C: TakeTotal> PoolState<P, C> {
    ghost use Rattle.std.specs.Prelude.{if◌then◌else◌};
    ghost use Rattle.pool_state.specs.Lined.{one_more_owed};

    /// How many wait in line.
    pub fn in_line(&self) -> usize
        ensures { result ≡ waiting_in self.now.places }
    {
        self.line.waiting()
    }

    /// How many wait before this caller, or all who wait, if it does not stand in line; but at most
    /// `MOST_AHEAD`, so that who gives up holds the lock no longer if more wait.
    pub fn ahead_of(&self, place: Option<u32>) -> usize
        ensures { result ≡ min (before place self.now.places) 1000 }
    {
        self.ahead(place, MOST_AHEAD)
    }

    // How many wait before a caller, but at most so many.
    fn ahead(&self, place: Option<u32>, most: usize) -> usize
        ensures { result ≡ min (before place self.now.places) most }
    {
        match place {
            Some(slot) => self.line.ahead(slot, most),
            None => self.line.waiting().min(most),
        }
    }

    // Whether more are idle than callers wait before this one.
    fn has_turn(&self, place: Option<u32>) -> bool
        ensures { IsTrue result
            ↔ (before place self.now.places < length self.now.book.picture.idle) }
    {
        let idle = self.book.book().idle() as usize;
        self.ahead(place, idle) < idle
    }

    // Whether all that is idle is kept for those in line.
    #[inline(always)]
    pub(super) fn is_kept(&self) -> bool
        ensures { result ≡ is_kept self.now.book.picture self.now.places }
    {
        let idle = self.book.book().idle() as usize;
        0 < idle && idle <= self.line.waiting()
    }

    /// A caller stands in line, and somebody waits since this moment.
    pub fn wait_in_line(&mut self, since: Duration)
        ensures same { self.new
            ≡ record self.old { waiting = record self.old.waiting { since = since } } }
    {
        self.waiting.since = since;
    }

    // The caller, whose turn it is not, waits: at the end of the line, or on in its place. It is
    // owed an opening. The answer is its slot; None where there is no room.
    fn stand(&mut self, place: &mut Option<u32>) -> Option<u32>
        requires { length self.old.book.picture.idle ≤ before place.old self.old.places }
        ensures place { result ≡ place.new }
        ensures line { self.new.places ≡ stood_by place.old place.new self.old.places }
        ensures history { (h : List Event) → IsHistoryOf h self.old.places
            → IsPlaceIn h place.old
            → IsHistoryOf (with_wait place.old place.new h) self.new.places }
        ensures quiet { IfSome result (λ slot. told_at slot self.new.places ≡ false) }
        ensures owed { self.new.owed
            ≡ (if is_some result then one_more_owed self.old.owed else self.old.owed) }
        ensures same { self.new
            ≡ record self.old { places = self.new.places; owed = self.new.owed } }
    {
        let Some(slot) = *place else {
            let slot = self.line.join()?;
            self.owed = self.owed.saturating_add(1);
            *place = Some(slot);
            return Some(slot);
        };
        self.line.wait_on(slot);
        self.owed = self.owed.saturating_add(1);
        Some(slot)
    }

    /// Searches for those whose time is over, from the front of the line on.
    pub fn late_search(&self) -> LateSearch
        ensures { (t : ℕ) (ends : List Duration) → AreSearches t ends result self.now.places }
    {
        let front = self.line.search();
        LateSearch {
            late: front,
            quiet: front,
        }
    }

    /// Passes the first in line that was notified and whose time is over: it waits no more, and the
    /// first that was not notified is notified. It keeps its place until it looks or leaves. Each
    /// one's end stands at its slot. None if nobody is late. The next call with the same search,
    /// moment and ends goes on from there.
    #[inline(always)]
    pub fn pass_late(
        &mut self,
        search: &mut LateSearch,
        now: Duration,
        ends: &[Duration],
    ) -> Option<ToWake>
        requires { AreSearches (as_nanos now) ends.now search.old self.old.places }
        ensures search { AreSearches (as_nanos now) ends.now search.new self.new.places }
        ensures late { IfSome (first_late (as_nanos now) ends.now self.old.places)
            (λ slot. search.new.late.at ≡ slot) }
        ensures quiet { IfSome result
            (λ to_wake. StopsAt to_wake.told search.new.quiet self.new.places) }
        ensures whether { is_some result
            ≡ is_some (first_late (as_nanos now) ends.now self.old.places) }
        ensures line { self.new.places ≡ pass_first (as_nanos now) ends.now self.old.places }
        ensures told { IfSome result (λ to_wake. to_wake.told
            ≡ told_instead (first_late (as_nanos now) ends.now self.old.places) self.old.places) }
        ensures nobody_else { IfSome result
            (λ to_wake. (to_wake.callers ≡ Wake.Nobody) × (to_wake.workers ≡ false)
            × (to_wake.all_in_line ≡ false)) }
        ensures history { (h : List Event) → IsHistoryOf h self.old.places
            → IsHistoryOf (with_told
            (told_instead (first_late (as_nanos now) ends.now self.old.places) self.old.places)
            (with_pass (first_late (as_nanos now) ends.now self.old.places) h)) self.new.places }
        ensures same { self.new ≡ record self.old { places = self.new.places } }
    {
        let slot = self.line.first_late(&mut search.late, now, ends)?;
        self.line.pass(slot);
        // A copy, so that what is searched for those who are late stays in registers.
        let mut quiet = search.quiet;
        let told = self.line.tell_next(&mut quiet);
        search.quiet = quiet;
        Some(ToWake::told(told))
    }

    /// The caller leaves the line. If it was notified, the next one is.
    pub fn leave(&mut self, place: &mut Option<u32>) -> ToWake
        ensures line { self.new.places ≡ left_by place.old self.old.places }
        ensures told { result.told ≡ told_by place.old self.old.places }
        ensures nobody_else { (result.callers ≡ Wake.Nobody) × (result.workers ≡ false)
            × (result.all_in_line ≡ false) }
        ensures history { (h : List Event) → IsHistoryOf h self.old.places
            → IsHistoryOf (with_told result.told (with_leave place.old h)) self.new.places }
        ensures gone { place.new ≡ None }
        ensures same { self.new ≡ record self.old { places = self.new.places } }
    {
        let Some(slot) = place.take() else {
            return ToWake::nobody();
        };
        let was_told = self.line.leave(slot);
        ToWake::told(self.line.tell_if(was_told))
    }
}

impl<P, C: TakeCounter> PoolState<P, C> {
    ghost use Rattle.pool_state.specs.Counted.{found_by, counted_where};
    ghost use Rattle.pool_state.specs.Wakes.{wakes_of_take};

    // The caller whose turn it is takes. It waits no more, and keeps its place. Whether the workers
    // are to be woken.
    fn take(&mut self, now: Duration, place: Option<u32>, tally: &mut C::Tally) -> (Take<P>, bool)
        requires parts { 0 < C.parts tally.old }
        requires turn { before place self.old.places < length self.old.book.picture.idle }
        ensures step { IsTake now false result.0 self.old.book self.new.book }
        ensures workers { result.1 ≡ (wakes_of_take (seen_take result.0)).workers }
        ensures parts { C.parts tally.new ≡ C.parts tally.old }
        ensures amount { C.amount tally.new
            ≡ C.amount tally.old + found_by (seen_take result.0) * C.per_take }
        ensures line { self.new.places ≡ served place self.old.places }
        ensures history { (h : List Event) → IsHistoryOf h self.old.places → IsPlaceIn h place
            → IsHistoryOf (with_take place (length self.old.book.picture.idle) h) self.new.places }
        ensures total { counted_where C.counts (seen_take result.0) self.old.total self.new.total }
        ensures same { self.new ≡ record self.old {
          book = self.new.book;
          total = self.new.total;
          places = self.new.places;
        } }
    {
        let (taken, wakes) = self.book.lend(now, false, tally);
        let Some(slot) = place else {
            return (taken, wakes.workers);
        };
        self.line.serve(slot);
        (taken, wakes.workers)
    }
}

impl<P: Drop, C: TakeCounter> PoolState<P, C> {
    ghost use Rattle.pool_machine.specs.Connections.{pair_of};
    ghost use Rattle.pool_machine.specs.Table.{next_of};
    ghost use Rattle.pool_state.specs.Evicted.{book_taken};
    ghost use Rattle.pool_state.specs.Lined.{is_found, found_in, pair_found, looked_by, told_looked};
    ghost use Rattle.pool_state.specs.Lined.{book_looked, owed_looked, book_paid, still_owed};
    ghost use Rattle.pool_state.specs.Lined.{has_ordered};
    ghost use Rattle.pool_state.specs.Standing.{StandsUntold};

    /// A caller that may wait looks: it takes if it has its turn, and keeps its place then if it
    /// asks for that. Else it stands in line and orders one, unless there is no room.
    pub fn look_in_line(
        &mut self,
        now: Duration,
        place: &mut Option<u32>,
        keeps_place: bool,
        tally: &mut C::Tally,
    ) -> (Look<P>, ToWake)
        requires { 0 < C.parts tally.old }
        ensures turn { IsTrue (is_found result.0)
            ↔ (before place.old self.old.places < length self.old.book.picture.idle) }
        ensures parts { C.parts tally.new ≡ C.parts tally.old }
        ensures amount { C.amount tally.new
            ≡ C.amount tally.old + found_in result.0 * C.per_take }
        ensures next { IsTrue (is_found result.0)
            → pair_found result.0 ≡ option_map pair_of (next_of self.old.book.picture) }
        ensures book { self.new.book ≡ book_looked (as_nanos now) result.0
            (waiting_in self.new.places) self.old.owed self.old.book }
        ensures owed { self.new.owed
            ≡ owed_looked (as_nanos now) result.0 self.old.owed self.old.book }
        ensures workers { result.1.workers ≡ has_ordered self.old.book self.new.book }
        ensures nobody_else { (result.1.callers ≡ Wake.Nobody)
            × (result.1.all_in_line ≡ false) }
        ensures told { result.1.told
            ≡ told_looked (is_found result.0) keeps_place place.old self.old.places }
        ensures line { self.new.places ≡ looked_by (is_found result.0) keeps_place place.old
            place.new self.old.places }
        ensures history { (h : List Event) → IsHistoryOf h self.old.places
            → IsPlaceIn h place.old → IsHistoryOf (with_told result.1.told
            (with_look (is_found result.0) keeps_place place.old place.new
            (length self.old.book.picture.idle) h)) self.new.places }
        ensures untold { StandsUntold result.0 place.new self.new.places }
        ensures same { self.new ≡ record self.old {
          book = self.new.book;
          total = self.new.total;
          places = self.new.places;
          owed = self.new.owed;
        } }
    {
        if !self.has_turn(*place) {
            return match self.stand(place) {
                Some(slot) => {
                    let ordered = self.pay(now, tally);
                    (Look::Stands(slot), ToWake::workers_if(ordered))
                }
                None => (Look::Full, ToWake::nobody()),
            };
        }
        let (taken, ordered) = self.take(now, *place, tally);
        let mut to_wake = if keeps_place {
            ToWake::nobody()
        } else {
            self.leave(place)
        };
        let paid = self.pay(now, tally);
        to_wake.workers = ordered || paid;
        match taken {
            Take::Found { id, value, .. } => (Look::Found { id, value }, to_wake),
            Take::Empty { .. } => unreachable!(),
        }
    }

    // Where nothing is idle, orders what is owed, for as many as wait. Whether something was ordered.
    fn pay(&mut self, now: Duration, tally: &mut C::Tally) -> bool
        requires { 0 < C.parts tally.old }
        ensures book { self.new.book ≡ book_paid (as_nanos now) (waiting_in self.old.places)
            self.old.owed self.old.book }
        ensures owed { self.new.owed ≡ still_owed self.old.owed self.old.book }
        ensures ordered { result ≡ has_ordered self.old.book self.new.book }
        ensures more { self.old.book.picture.on_order.pending
            ≤ self.new.book.picture.on_order.pending }
        ensures parts { C.parts tally.new ≡ C.parts tally.old }
        ensures amount { C.amount tally.new ≡ C.amount tally.old }
        ensures same { self.new ≡ record self.old { book = self.new.book; owed = self.new.owed } }
    {
        if self.book.book().idle() > 0 {
            return false;
        }
        let owed = self.in_line().min(self.owed as usize);
        let mut ordered = false;
        for _ in 0..owed {
            let one = self.order_one(now, tally);
            ordered = ordered || one;
        }
        self.owed = 0;
        ordered
    }

    // Orders one, where nothing is idle.
    fn order_one(&mut self, now: Duration, tally: &mut C::Tally) -> bool
        requires parts { 0 < C.parts tally.old }
        requires none { length self.old.book.picture.idle ≡ 0 }
        ensures none { length self.new.book.picture.idle ≡ 0 }
        ensures book { self.new.book ≡ book_taken (as_nanos now) true self.old.book }
        ensures ordered { result ≡ has_ordered self.old.book self.new.book }
        ensures more { self.old.book.picture.on_order.pending
            ≤ self.new.book.picture.on_order.pending }
        ensures parts { C.parts tally.new ≡ C.parts tally.old }
        ensures amount { C.amount tally.new ≡ C.amount tally.old }
        ensures same { self.new ≡ record self.old { book = self.new.book } }
    {
        let (_empty, wakes) = self.book.lend(now, true, tally);
        wakes.workers
    }
}
