// What a summary says of a report, from record to record.

use crate::walk::{Reader, Walk};
use r2d2_core::{Load, Record};
use std::alloc::AllocError;
use std::time::Duration;

/// What records come to, one after another.
#[derive(Clone, Copy)]
pub(super) struct Figures {
    pub(super) most_lent: usize,
    /// Since when it is exhausted, if it is.
    pub(super) exhausted_since: Option<Duration>,
    // The longest while in which it was.
    longest: Duration,
    /// Since when openings are pending and none succeeded, if some are pending.
    pub(super) opening_since: Option<Duration>,
    pub(super) returned: u64,
    pub(super) closed_early: u64,
}

impl Reader for Figures {
    fn read(&mut self, walk: &Walk, record: Option<&Record>) -> Result<(), AllocError> {
        self.most_lent = self.most_lent.max(walk.load.lent);
        self.follow_exhaustion(&walk.load);
        self.follow_openings(&walk.load, record);
        self.follow_returns(walk, record);
        Ok(())
    }
}

impl Figures {
    /// Nothing was read.
    pub(super) fn none() -> Figures {
        Figures {
            most_lent: 0,
            exhausted_since: None,
            longest: Duration::ZERO,
            opening_since: None,
            returned: 0,
            closed_early: 0,
        }
    }

    fn follow_exhaustion(&mut self, load: &Load) {
        self.longest = self.longest_until(load.at);
        self.exhausted_since = since(load.is_exhausted(), self.exhausted_since, load.at);
    }

    fn follow_openings(&mut self, load: &Load, record: Option<&Record>) {
        let so_far = match record {
            Some(Record::Admitted { .. }) => None,
            _ => self.opening_since,
        };
        self.opening_since = since(load.pending > 0, so_far, load.at);
    }

    fn follow_returns(&mut self, walk: &Walk, record: Option<&Record>) {
        if let Some(Record::Kept { .. } | Record::Closed { .. }) = record {
            self.returned = self.returned.saturating_add(1);
        }
        if let Some(Record::Closed { .. }) = record
            && let Some(one) = walk.moved.first()
        {
            let Load {
                limits,
                at,
                closed,
                ..
            } = walk.load;
            let age = at.saturating_sub(one.birth);
            // (Some reach an age of their own before the greatest one.)
            if !closed && !limits.is_too_old(age.saturating_add(age)) {
                self.closed_early = self.closed_early.saturating_add(1);
            }
        }
    }

    /// How long the longest while is in which it was exhausted, if nothing changes up to a time.
    pub(super) fn longest_until(&self, at: Duration) -> Duration {
        match self.exhausted_since {
            Some(since) => self.longest.max(at.saturating_sub(since)),
            None => self.longest,
        }
    }
}

// Since when something is so at a time, if it is, and was so since then so far.
fn since(is_so: bool, so_far: Option<Duration>, at: Duration) -> Option<Duration> {
    if is_so { so_far.or(Some(at)) } else { None }
}
