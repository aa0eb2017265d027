// The openings that are ordered and not admitted.
ghost use Rattle.std.specs.Prelude.{◌≡◌, ◌+◌, ◌≤◌, IfOk, OnOk, true};
ghost use Rattle.pool_machine.specs.Ids.{copies_of};
ghost use Rattle.std.specs.Duration.{as_nanos};

use super::answers::Refusal;
use super::roster::Roster;
use crate::schedule::{Job, Limits, Schedule, delay};
use in_work::InWork;
use std::alloc::{AllocError, Allocator, Global};
use std::marker::Model;
use std::time::Duration;

mod in_work;

/// Each pending opening is scheduled, in work or numbered.
#[derive(Drop)]
pub struct OnOrder<A: Allocator = Global> {
    // What each step asks stands first, beside what each step writes.
    pending: u32,
    closed: bool,
    next_id: u64,
    limits: Limits,
    schedule: Schedule<A>,
    numbered: Roster<u64, A>,
    in_work: InWork,
}

impl<A: Allocator> Model for OnOrder<A> {
    ghost use Rattle.pool_machine.specs.OnOrder.{SeenOnOrder};

    ghost Value = { SeenOnOrder };

    ghost use Rattle.pool_machine.specs.OnOrderParts.{seen_on_order, IsKeeping};

    ghost view = { seen_on_order };

    ghost invariant = { IsKeeping };
}

impl<A: Allocator> OnOrder<A> {
    ghost use Rattle.pool_machine.specs.Limits.{seen_limits};
    ghost use Rattle.pool_machine.specs.Refusals.{ok_unless, unless_refused};
    ghost use Rattle.pool_machine.specs.Jobs.{seen_job};
    ghost use Rattle.pool_machine.specs.Seen.{map_ok};
    ghost use Rattle.pool_machine.specs.OnOrder as on_order;

    /// What is wanted, due at `now`.
    pub fn new(
        alloc: A,
        limits: Limits,
        now: Duration,
        first_id: u64,
    ) -> Result<OnOrder<A>, AllocError>
    where
        A: Copy,
        ensures { IfOk result
            (λ openings. openings
            ≡ on_order.first_on_order (seen_limits limits) (as_nanos now) first_id) }
    {
        let numbered = Roster::new(alloc, limits.max_size() as usize)?;
        let mut schedule = Schedule::new(alloc, limits, now)?;
        let pending = limits.wanted();
        schedule.order_many(pending, now);
        Ok(OnOrder {
            limits,
            schedule,
            in_work: InWork::new(),
            numbered,
            next_id: first_id,
            pending,
            closed: false,
        })
    }

    pub fn limits(&self) -> Limits
        ensures { seen_limits result ≡ self.now.limits }
    {
        self.limits
    }

    /// How many openings are pending.
    pub fn pending(&self) -> u32
        ensures { result ≡ self.now.pending }
    {
        self.pending
    }

    pub fn is_closed(&self) -> bool
        ensures { result ≡ self.now.closed }
    {
        self.closed
    }

    pub fn next_id(&self) -> u64
        ensures { result ≡ self.now.next_id }
    {
        self.next_id
    }

    /// Orders what is wanted beside so many idle connections, as far as there is room beside them
    /// and the lent ones.
    #[inline(always)]
    pub fn top_up(&mut self, idle: usize, lent: usize, due: Duration) -> u32
        requires { idle + lent + self.old.pending ≤ self.old.limits.max_size }
        ensures answer { result ≡ on_order.top_up_beside idle (idle + lent) self.old }
        ensures after { self.new ≡ on_order.with_orders result (as_nanos due) self.old }
    {
        let ordered = self
            .limits
            .top_up(self.closed, idle, idle + lent, self.pending);
        self.order(ordered, due);
        ordered
    }

    /// Orders one if it is asked for, as far as there is room beside the connections.
    pub fn order_missed(&mut self, or_order: bool, connections: usize, due: Duration) -> u32
        requires { connections + self.old.pending ≤ self.old.limits.max_size }
        ensures answer { result ≡ on_order.miss_order or_order connections self.old }
        ensures after { self.new ≡ on_order.with_orders result (as_nanos due) self.old }
    {
        let room = self.room_beside(connections);
        let ordered = if self.closed || !or_order {
            0
        } else {
            room.min(1)
        };
        self.order(ordered, due);
        ordered
    }

    // How many more there may be.
    fn room_beside(&self, connections: usize) -> u32
        requires { connections + self.now.pending ≤ self.now.limits.max_size }
        ensures { result + (connections + self.now.pending) ≡ self.now.limits.max_size }
    {
        let max_size = self.limits.max_size();
        max_size - connections as u32 - self.pending
    }

    // Orders so many that never failed.
    fn order(&mut self, count: u32, due: Duration)
        requires room { self.old.pending + count ≤ self.old.limits.max_size }
        requires still_open { self.old.closed ≡ true → count ≡ 0 }
        ensures { self.new ≡ on_order.with_orders count (as_nanos due) self.old }
    {
        self.schedule.order_many(count, due);
        self.pending += count;
    }

    /// What a worker is to do at the moment `now`.
    pub fn begin(&mut self, now: Duration) -> Job
        ensures answer { seen_job result ≡ on_order.job_at (as_nanos now) self.old }
        ensures after { self.new ≡ on_order.begun (as_nanos now) self.old }
    {
        if self.closed {
            return Job::Closed;
        }
        let job = self.schedule.next_uncounted(now);
        if let Job::Open { tries } = job {
            self.in_work.add(tries);
        }
        job
    }

    /// Gives an id to an opening in work.
    pub fn number(&mut self, tries: u32) -> Result<u64, Refusal>
        ensures answer { result
            ≡ ok_unless (on_order.number_refusal tries self.old) self.old.next_id }
        ensures after { self.new ≡ on_order.after_numbering tries self.old }
    {
        if self.closed {
            return Err(Refusal::Closed);
        }
        if !self.in_work.holds(tries) {
            return Err(Refusal::NoOpening);
        }
        if self.next_id == u64::MAX {
            return Err(Refusal::IdsUsedUp);
        }
        let id = self.next_id;
        self.in_work.remove(tries);
        self.numbered.add(id);
        self.next_id += 1;
        Ok(id)
    }

    /// Takes out a numbered one, which is pending no more.
    pub fn admit(&mut self, id: u64) -> Result<(), Refusal>
        requires { copies_of id self.old.numbered ≤ 1 }
        ensures answer { result ≡ ok_unless (on_order.admit_refusal id self.old) tt }
        ensures after { self.new
            ≡ unless_refused (on_order.admit_refusal id self.old)
            (on_order.admitted_one id self.old) self.old }
        ensures less { OnOk result (self.new.pending + 1 ≡ self.old.pending) }
    {
        if self.closed {
            return Err(Refusal::Closed);
        }
        match self.numbered.remove(id) {
            Some(_) => {
                self.pending -= 1;
                Ok(())
            }
            None => Err(Refusal::NotNumbered),
        }
    }

    /// Puts off an opening in work that failed at the moment `now`, and says when it is due again.
    pub fn fail(&mut self, now: Duration, tries: u32) -> Result<Duration, Refusal>
        ensures answer { map_ok as_nanos result
            ≡ ok_unless (on_order.fail_refusal tries self.old)
            (on_order.due_again (as_nanos now) tries self.old) }
        ensures after { self.new
            ≡ unless_refused (on_order.fail_refusal tries self.old)
            (on_order.failed_one (as_nanos now) tries self.old) self.old }
    {
        if self.closed {
            return Err(Refusal::Closed);
        }
        if !self.in_work.remove(tries) {
            return Err(Refusal::NoOpening);
        }
        let pause = delay(self.limits.connection_timeout(), tries + 1);
        let due = now.saturating_add(pause);
        self.schedule.order_uncounted(due, (tries + 1).min(99));
        Ok(due)
    }

    /// Forgets them all, and orders none from then on.
    pub fn close(&mut self)
        ensures { self.new ≡ on_order.emptied self.old }
    {
        self.schedule.clear();
        self.in_work.clear();
        self.numbered.clear();
        self.pending = 0;
        self.closed = true;
    }
}
