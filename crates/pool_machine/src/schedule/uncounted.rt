// The calls of a schedule for those who count no steps.
ghost use Rattle.std.specs.Prelude.{◌≡◌, ◌+◌, ◌<◌, ◌≤◌, length};
ghost use Rattle.std.specs.Duration.{as_nanos};
ghost use Rattle.pool_machine.specs.Openings.{opening, with_many};
ghost use Rattle.pool_machine.specs.Schedule.{joined, with_openings, after_job};
ghost use Rattle.pool_machine.specs.Jobs.{seen_job, first_job};

use super::{Job, Schedule};
use crate::steps::Steps;
use std::alloc::Allocator;
use std::marker::Brand;
use std::sync::ledger::{Blank, Ledger};
use std::time::Duration;

impl<A: Allocator> Schedule<A> {
    /// `order`, for a caller that counts no steps.
    pub fn order_uncounted(&mut self, due: Duration, tries: u32)
        requires { length self.old.openings < self.old.max_size }
        ensures { self.new ≡ joined (opening (as_nanos due) tries) self.old }
    {
        self.order_from::<Brand>(due, tries, Blank::new(1));
    }

    /// Adds so many openings that never failed.
    pub fn order_many(&mut self, count: u32, due: Duration)
        requires { length self.old.openings + count ≤ self.old.max_size }
        ensures { self.new
            ≡ with_openings (with_many count (opening (as_nanos due) 0) self.old.openings) self.old }
    {
        for _ in 0..count {
            self.order_uncounted(due, 0);
        }
    }

    /// `next`, for a caller that counts no steps.
    pub fn next_uncounted(&mut self, now: Duration) -> Job
        ensures answer { seen_job result
            ≡ first_job (as_nanos now) self.old.openings self.old.next_reap }
        ensures after { self.new ≡ after_job (seen_job result) self.old }
    {
        self.next_from::<Brand>(now, Blank::new(1))
    }

    // Each with a count of its own, in the ledger that the blank stands for.

    fn order_from<L: Ledger>(&mut self, due: Duration, tries: u32, blank: Blank)
        requires name { blank.name ≡ L.name }
        requires parts { blank.parts ≡ L.parts }
        requires some { 0 < L.parts }
        requires room { length self.old.openings < self.old.max_size }
        ensures { self.new ≡ joined (opening (as_nanos due) tries) self.old }
    {
        let mut steps: Steps<L> = Steps::new(blank);
        self.order(due, tries, &mut steps);
    }

    fn next_from<L: Ledger>(&mut self, now: Duration, blank: Blank) -> Job
        requires name { blank.name ≡ L.name }
        requires parts { blank.parts ≡ L.parts }
        requires some { 0 < L.parts }
        ensures answer { seen_job result
            ≡ first_job (as_nanos now) self.old.openings self.old.next_reap }
        ensures after { self.new ≡ after_job (seen_job result) self.old }
    {
        let mut steps: Steps<L> = Steps::new(blank);
        self.next(now, &mut steps)
    }
}
