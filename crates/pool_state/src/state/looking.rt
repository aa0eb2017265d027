// A caller looks that takes at once, or may wait at the callers' variable.
ghost use Rattle.std.specs.Prelude.{◌≡◌, ◌+◌, ◌*◌, ◌<◌, length, IsTrue, false, List, ◌∷◌};
ghost use Rattle.std.specs.Duration.{as_nanos};
ghost use Rattle.r2d2_core.specs.BookSteps.{IsTake};
ghost use Rattle.pool_machine.specs.Seen.{seen_take, Empty};
ghost use Rattle.pool_state.specs.Order.{Event, TookAtOnce, IsHistoryOf};
ghost use Rattle.pool_state.specs.Waits.{count_of};

use super::PoolState;
use crate::engine::TakeCounter;
use crate::waiters::Waiting;
use r2d2_core::Take;
use std::time::Duration;

/// What a caller comes to who may wait at the callers' variable.
pub enum Turn<P> {
    Found { id: u64, value: P },
    /// It ordered one, if there is room, and is counted among those who wait.
    Waits(Waiting),
    Closed,
}

impl<P> Turn<P> {
    ghost use Rattle.pool_state.specs.Waits.{turn_after, waits_in, IsTokenOf};

    // By the answer of a take that may order, of a pool that is closed or not.
    fn of(taken: Take<P>, closed: bool, since: Duration) -> Turn<P>
        ensures turn { turn_after (seen_take taken) closed result }
        ensures token { IsTokenOf result since }
    {
        match taken {
            Take::Found { id, value, .. } => Turn::Found { id, value },
            Take::Empty { .. } => {
                if closed {
                    Turn::Closed
                } else {
                    Turn::Waits(Waiting {
                        since,
                        of_a_look: (),
                    })
                }
            }
        }
    }

    // Whether the caller is to wait.
    fn waits(&self) -> bool
        ensures { result ≡ waits_in self.now }
    {
        matches!(self, Turn::Waits(_))
    }
}

impl<P, C: TakeCounter> PoolState<P, C> {
    ghost use Rattle.pool_state.specs.Counted.{found_by, counted_where};
    ghost use Rattle.pool_state.specs.Waiting.{is_kept};
    ghost use Rattle.pool_state.specs.Wakes.{wakes_of_take};
    ghost use Rattle.pool_state.specs.Since.{since_with};
    ghost use Rattle.pool_state.specs.Status.{all_who_wait};
    ghost use Rattle.pool_state.specs.Waits.{IsLook, IsTokenOf, found_in_turn, waits_in, waiting_if};
    ghost use Rattle.pool_state.specs.Waits.{after_wait};

    /// A caller looks that never waits: what is idle is kept for those in line. Whether the workers
    /// are to be woken.
    #[inline(always)]
    pub fn look_once(&mut self, now: Duration, tally: &mut C::Tally) -> (Take<P>, bool)
        requires { 0 < C.parts tally.old }
        ensures parts { C.parts tally.new ≡ C.parts tally.old }
        ensures amount { C.amount tally.new
            ≡ C.amount tally.old + found_by (seen_take result.0) * C.per_take }
        ensures step { is_kept self.old.book.picture self.old.places ≡ false
            → IsTake now false result.0 self.old.book self.new.book }
        ensures kept { IsTrue (is_kept self.old.book.picture self.old.places)
            → (seen_take result.0 ≡ Empty 0) × (self.new.book ≡ self.old.book) }
        ensures workers { result.1 ≡ (wakes_of_take (seen_take result.0)).workers }
        ensures history { (h : List Event) → IsHistoryOf h self.old.places
            → 0 < found_by (seen_take result.0)
            → IsHistoryOf (TookAtOnce (length self.old.book.picture.idle) ∷ h) self.new.places }
        ensures total { counted_where C.counts (seen_take result.0) self.old.total
            self.new.total }
        ensures same { self.new
            ≡ record self.old { book = self.new.book; total = self.new.total } }
    {
        if self.is_kept() {
            return (Take::Empty { ordered: 0 }, false);
        }
        let (taken, wakes) = self.book.lend(now, false, tally);
        (taken, wakes.workers)
    }

    /// A caller looks whose call began at this moment, and who does not wait yet. It takes, or
    /// orders one and is counted as waiting; in a closed pool neither. Whether the workers are to be
    /// woken.
    #[inline(always)]
    pub fn look(&mut self, now: Duration, start: Duration, tally: &mut C::Tally) -> (Turn<P>, bool)
        requires { 0 < C.parts tally.old }
        ensures step { IsLook now result.0 result.1 self.old.book self.new.book }
        ensures parts { C.parts tally.new ≡ C.parts tally.old }
        ensures amount { C.amount tally.new
            ≡ C.amount tally.old + found_in_turn result.0 * C.per_take }
        ensures waits { self.new.waiting
            ≡ waiting_if (waits_in result.0) self.new.waiting.since self.old.waiting }
        ensures since { IsTrue (waits_in result.0) → as_nanos self.new.waiting.since
            ≡ since_with (all_who_wait (count_of self.old.waiting) self.old.places)
            (as_nanos start) (as_nanos self.old.waiting.since) }
        ensures token { IsTokenOf result.0 self.new.waiting.since }
        // (where not all that is idle is kept for those in line, as where nobody stands there)
        ensures history { (h : List Event) → IsHistoryOf h self.old.places
            → is_kept self.old.book.picture self.old.places ≡ false
            → 0 < found_in_turn result.0
            → IsHistoryOf (TookAtOnce (length self.old.book.picture.idle) ∷ h) self.new.places }
        ensures same { self.new ≡ record self.old {
          book = self.new.book;
          total = self.new.total;
          waiting = self.new.waiting;
        } }
    {
        let since = self.since_with(start);
        let closed = self.book.book().is_closed();
        let (taken, wakes) = self.book.lend(now, true, tally);
        let turn = Turn::of(taken, closed, since);
        self.waiting.begin_if(turn.waits(), since);
        (turn, wakes.workers)
    }

    /// The same of a caller that waited and has the lock again, if it was woken: it takes that
    /// wake.
    pub fn look_again(
        &mut self,
        now: Duration,
        waiting: Waiting,
        tally: &mut C::Tally,
    ) -> (Turn<P>, bool)
        requires { 0 < C.parts tally.old }
        ensures step { IsLook now result.0 result.1 self.old.book self.new.book }
        ensures parts { C.parts tally.new ≡ C.parts tally.old }
        ensures amount { C.amount tally.new
            ≡ C.amount tally.old + found_in_turn result.0 * C.per_take }
        ensures waits { self.new.waiting
            ≡ waiting_if (waits_in result.0) waiting.since (after_wait self.old.waiting) }
        ensures token { IsTokenOf result.0 waiting.since }
        // (where not all that is idle is kept for those in line, as where nobody stands there)
        ensures history { (h : List Event) → IsHistoryOf h self.old.places
            → is_kept self.old.book.picture self.old.places ≡ false
            → 0 < found_in_turn result.0
            → IsHistoryOf (TookAtOnce (length self.old.book.picture.idle) ∷ h) self.new.places }
        ensures same { self.new ≡ record self.old {
          book = self.new.book;
          total = self.new.total;
          waiting = self.new.waiting;
        } }
    {
        let Waiting {
            since,
            of_a_look: (),
        } = waiting;
        let closed = self.book.book().is_closed();
        let (taken, wakes) = self.book.lend(now, true, tally);
        let turn = Turn::of(taken, closed, since);
        self.waiting.end();
        self.waiting.begin_if(turn.waits(), since);
        (turn, wakes.workers)
    }
}
