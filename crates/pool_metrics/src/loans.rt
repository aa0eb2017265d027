// The connections that are lent, and since when.
ghost use Rattle.std.specs.Prelude.{◌≡◌, ℕ, ◌+◌, ◌<◌, ◌≤◌, ◌-◌, ◌==◌, ◌++◌, ◌∷◌, [], ◌^◌, min, max};
ghost use Rattle.std.specs.Prelude.{nat_lt, All, IfOk, not, filter, map, vec_len, vec_capacity};
ghost use Rattle.std.specs.Duration.{as_nanos};
ghost use Rattle.std.specs.List.Sorted.{IsNonDecreasingBy};
ghost use Rattle.pool_metrics.specs.Longest.{IsLongestFirst, longer_than, longest, told_at};

use std::alloc::{AllocError, Global};
use std::time::Duration;

/// A connection that is lent for long.
#[derive(Clone, Copy, PartialEq, Eq, Debug)]
pub struct LongLoan {
    /// Its id.
    pub id: u64,
    nanos: u64,
}

impl LongLoan {
    /// For how long it is lent.
    pub fn lent_for(&self) -> Duration
        ensures { as_nanos result ≡ self.now.nanos }
    {
        Duration::from_nanos(self.nanos)
    }

    /// Since when it is lent, where it is for that long at this time.
    pub fn since(&self, moment: Duration) -> Duration
        ensures { as_nanos result ≡ as_nanos moment - self.now.nanos }
    {
        moment.saturating_sub(self.lent_for())
    }
}

/// A connection that is lent. Times are nanoseconds.
#[derive(Clone, Copy, PartialEq, Eq, Debug)]
pub(crate) struct Loan {
    id: u64,
    since: u64,
}

impl Loan {
    // For how long it is lent.
    fn told(&self, now: u64) -> LongLoan
        ensures { result ≡ record { id = self.now.id; nanos = now - self.now.since } }
    {
        LongLoan {
            id: self.id,
            nanos: now.saturating_sub(self.since),
        }
    }
}

/// Who is lent, in the order of lending. It asks for memory when it is made, and never again.
#[derive(Drop)]
pub(crate) struct Loans {
    entries: Vec<Loan>,
    latest: u64,
    unlisted: u64,
    ghost in_order: { IsNonDecreasingBy (λ e. e.since) entries.items },
    ghost until_now: { All (λ e. e.since ≤ latest) entries.items },
}

impl Loans {
    /// With room for so many.
    pub(crate) fn new(alloc: Global, room: usize) -> Result<Loans, AllocError>
        ensures none { IfOk result (λ loans. loans.entries.items ≡ []) }
        ensures room { IfOk result (λ loans. vec_capacity loans.entries ≡ room) }
        ensures latest { IfOk result (λ loans. loans.latest ≡ 0) }
        ensures all_listed { IfOk result (λ loans. loans.unlisted ≡ 0) }
    {
        Ok(Loans {
            entries: Vec::with_capacity(alloc, room)?,
            latest: 0,
            unlisted: 0,
        })
    }

    /// One is lent now. Where there is no more room, it is counted, and not listed.
    pub(crate) fn add(&mut self, id: u64, now: u64)
        ensures listed { vec_len self.old.entries < vec_capacity self.old.entries
            → (self.new.entries.items
            ≡ self.old.entries.items ++ record { id = id; since = max self.old.latest now } ∷ [])
            × (self.new.unlisted ≡ self.old.unlisted) }
        ensures room { vec_capacity self.new.entries ≡ vec_capacity self.old.entries }
        ensures latest { self.new.latest ≡ max self.old.latest now }
        ensures full { vec_capacity self.old.entries ≤ vec_len self.old.entries
            → (self.new.entries.items ≡ self.old.entries.items)
            × (self.new.unlisted ≡ min (self.old.unlisted + 1) (2 ^ 64 - 1)) }
    {
        self.latest = self.latest.max(now);
        if self.entries.len() < self.entries.capacity() {
            let since = self.latest;
            self.entries.push_reserved(Loan { id, since });
        } else {
            self.unlisted = self.unlisted.saturating_add(1);
        }
    }

    /// One is not lent any more.
    pub(crate) fn remove(&mut self, id: u64)
        ensures removed { self.new.entries.items
            ≡ filter (λ e. not (e.id == id)) self.old.entries.items }
        ensures room { vec_capacity self.new.entries ≡ vec_capacity self.old.entries }
        ensures latest { self.new.latest ≡ self.old.latest }
        ensures unlisted { self.new.unlisted ≡ self.old.unlisted }
    {
        self.entries.retain(|entry| entry.id != id);
    }

    /// How many could not be listed.
    pub(crate) fn unlisted(&self) -> u64
        ensures { result ≡ self.now.unlisted }
    {
        self.unlisted
    }

    /// For how many nanoseconds that one is lent that is lent for longest; zero where none is
    /// listed.
    pub(crate) fn longest(&self, now: u64) -> u64
        ensures first { result ≡ longest (max self.now.latest now) self.now.entries.items }
        ensures none_longer { All (λ e. max self.now.latest now - e.since ≤ result)
            self.now.entries.items }
    {
        self.since_the_first_lending(self.latest.max(now))
    }

    // The same. That none is lent for longer follows from the order of the list.
    fn since_the_first_lending(&self, now: u64) -> u64
        ensures { result ≡ longest now self.now.entries.items }
    {
        match self.entries.first() {
            Some(first) => now.saturating_sub(first.since),
            None => 0,
        }
    }

    /// All that are lent, the longest first. The error is lack of memory.
    pub(crate) fn all(&self, alloc: Global, now: u64) -> Result<Vec<LongLoan>, AllocError>
        ensures all { IfOk result
            (λ v. v.items ≡ told_at (max self.now.latest now) self.now.entries.items) }
        ensures longest_first { IfOk result (λ v. IsLongestFirst v.items) }
    {
        self.all_in_order(alloc, self.latest.max(now))
    }

    // The same. That the longest come first follows from the order of the list.
    fn all_in_order(&self, alloc: Global, now: u64) -> Result<Vec<LongLoan>, AllocError>
        ensures { IfOk result (λ v. v.items ≡ told_at now self.now.entries.items) }
    {
        self.entries
            .iter()
            .map(|entry| entry.told(now))
            .collect(alloc)
    }

    /// Those that are lent for longer than so many nanoseconds, the longest first. The error is
    /// lack of memory.
    pub(crate) fn longer_than(
        &self,
        alloc: Global,
        nanos: u64,
        now: u64,
    ) -> Result<Vec<LongLoan>, AllocError>
        ensures all { IfOk result
            (λ v. v.items ≡ longer_than nanos (max self.now.latest now) self.now.entries.items) }
        ensures longest_first { IfOk result (λ v. IsLongestFirst v.items) }
    {
        let now = self.latest.max(now);
        self.in_order_of_lending(alloc, nanos, now)
    }

    // The same. That the longest come first follows from the order of the list.
    fn in_order_of_lending(
        &self,
        alloc: Global,
        nanos: u64,
        now: u64,
    ) -> Result<Vec<LongLoan>, AllocError>
        ensures { IfOk result (λ v. v.items ≡ longer_than nanos now self.now.entries.items) }
    {
        self.entries
            .iter()
            .filter(|entry| now.saturating_sub(entry.since) > nanos)
            .map(|entry| entry.told(now))
            .collect(alloc)
    }
}
