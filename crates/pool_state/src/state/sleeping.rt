// Those who wait, and are no callers in line: who gives up, who builds, who drains.
ghost use Rattle.std.specs.Prelude.{◌≡◌, ◌≤◌, ◌-◌, length, IsTrue, true, false, None};
ghost use Rattle.std.specs.Duration.{as_nanos};
ghost use Rattle.pool_state.specs.Waits.{IsSent, WaitAsBefore, count_of};

use super::PoolState;
use crate::engine::TakeTotal;
use crate::waiters::{ToWake, Waiting};
use std::time::Duration;

impl<P, C: TakeTotal> PoolState<P, C> {
    ghost use Rattle.std.specs.Prelude.{IsFalse};
    ghost use Rattle.pool_machine.specs.Limits.{wanted_of};
    ghost use Rattle.pool_state.specs.Failed.{IsOneTimeoutMore, one_more};
    ghost use Rattle.pool_state.specs.Since.{since_with};
    ghost use Rattle.pool_state.specs.Status.{all_who_wait};
    ghost use Rattle.pool_state.specs.Waits.{IsPassedOn};

    /// A caller that waited gives up: it may have had a wake, which is another's now.
    pub fn give_up_wait(&mut self, waiting: Waiting, now: Duration) -> ToWake
        ensures failures { IsOneTimeoutMore self.old.failures self.new.failures }
        ensures passed_on { IsPassedOn result.callers self.old.waiting self.new.waiting }
        ensures nobody_else { (result.told ≡ None) × (result.workers ≡ false)
            × (result.all_in_line ≡ false) }
        ensures same { self.new
            ≡ record self.old { waiting = self.new.waiting; failures = self.new.failures } }
    {
        let Waiting {
            since: _since,
            of_a_look: (),
        } = waiting;
        self.failures.add_timeout();
        self.waiting.end();
        let mut to_wake = ToWake::nobody();
        to_wake.callers = self.waiting.wake_if(true, now);
        to_wake
    }

    /// A caller whose time ran out in a check gives up, which is not counted among those who wait.
    /// It wakes one of them, as each that gives up does.
    pub fn give_up_late(&mut self, now: Duration) -> ToWake
        ensures failures { IsOneTimeoutMore self.old.failures self.new.failures }
        ensures sent { IsSent true result.callers self.old.waiting self.new.waiting }
        ensures waits { WaitAsBefore self.old.waiting self.new.waiting }
        ensures nobody_else { (result.told ≡ None) × (result.workers ≡ false)
            × (result.all_in_line ≡ false) }
        ensures same { self.new
            ≡ record self.old { waiting = self.new.waiting; failures = self.new.failures } }
    {
        self.failures.add_timeout();
        let mut to_wake = ToWake::nobody();
        to_wake.callers = self.waiting.wake_if(true, now);
        to_wake
    }

    /// Whether the maker of the pool has to sleep, which it does then: until as many connections
    /// are there as are wanted.
    pub fn has_to_build(&mut self) -> bool
        ensures made { IsFalse result → wanted_of self.old.book.picture.on_order.limits
            ≤ self.old.book.picture.connections }
        ensures sleeps { IsTrue result → self.new.waiting.maker_sleeps ≡ true }
        ensures same { self.new ≡ record self.old {
          waiting = record self.old.waiting { maker_sleeps = self.new.waiting.maker_sleeps };
        } }
    {
        let book = self.book.book();
        if book.limits().wanted() <= book.connections() {
            return false;
        }
        self.waiting.maker_sleeps = true;
        true
    }

    /// One more drains, whose call began at this moment.
    pub fn begin_drain(&mut self, start: Duration)
        ensures count { self.new.waiting.drains ≡ one_more self.old.waiting.drains }
        ensures since { as_nanos self.new.waiting.since
            ≡ since_with (all_who_wait (count_of self.old.waiting) self.old.places)
            (as_nanos start) (as_nanos self.old.waiting.since) }
        ensures same { self.new ≡ record self.old {
          waiting = record self.old.waiting {
            drains = self.new.waiting.drains;
            since = self.new.waiting.since;
          };
        } }
    {
        self.waiting.since = self.since_with(start);
        self.waiting.drains = self.waiting.drains.saturating_add(1);
    }

    /// Whether who drains has to sleep, which it does then: until nothing is lent.
    pub fn has_to_drain(&mut self) -> bool
        ensures drained { IsFalse result → length self.old.book.picture.lent ≡ 0 }
        ensures sleeps { IsTrue result → self.new.waiting.drain_sleeps ≡ true }
        ensures same { self.new ≡ record self.old {
          waiting = record self.old.waiting { drain_sleeps = self.new.waiting.drain_sleeps };
        } }
    {
        let book = self.book.book();
        if book.connections() <= book.idle() {
            return false;
        }
        self.waiting.drain_sleeps = true;
        true
    }

    /// One less drains.
    pub fn end_drain(&mut self)
        ensures same { self.new ≡ record self.old {
          waiting = record self.old.waiting { drains = self.old.waiting.drains - 1 };
        } }
    {
        self.waiting.drains = self.waiting.drains.saturating_sub(1);
    }
}
