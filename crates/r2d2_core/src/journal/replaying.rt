// Whether a report's records replay to its counts, by the definitions alone.
ghost use Rattle.std.specs.Prelude.{◌≡◌, ◌≤◌, ◌↔◌, ◌++◌, ℕ, map, length, IsTrue, OnOk, IfOk};
ghost use Rattle.std.specs.Prelude.{MatchOption};
ghost use Rattle.pool_machine.specs.Limits.{seen_limits};
ghost use Rattle.pool_machine.specs.Ids.{copies_of};
ghost use Rattle.pool_machine.specs.Connections.{id_of_idle, id_of_lent};
ghost use Rattle.r2d2_core.specs.Records.{seen_record};
ghost use Rattle.r2d2_core.specs.Bases.{seen_bare, seen_lent, ids_in_base, IsLegalBase};
ghost use Rattle.std.specs.Prelude.{flat_map};
ghost use Rattle.r2d2_core.specs.Folding.{known_in, admitted_by};
ghost use Rattle.r2d2_core.specs.Reports.{seen_base, DoesReplay};
ghost use Rattle.r2d2_core.specs.Auditing.{counts_fit, ShowsCounts};
ghost use Rattle.r2d2_core.specs.RunningBase.{running_base, rooms_for};
ghost use Rattle.r2d2_core.specs.Faults.{HasWrongBase, IsWrong, AreApartUpTo};

use super::base::Base;
use super::record::Record;
use super::report::Report;
use super::running_base::{Rooms, RunningBase};
use pool_machine::schedule::Limits;
use std::alloc::{AllocError, Allocator};
use std::time::Duration;

/// What is wrong first in a report that does not replay.
#[derive(Clone, Copy)]
pub(crate) enum Wrong {
    /// Its base.
    Base,
    /// The record at this place.
    Record(usize),
    /// Its ids or counts.
    Counts,
}

impl<A: Allocator> Report<A> {
    /// Whether the report is in itself as each report of a book is: its base is one that a pool
    /// with its limits may come to, each of its records may follow what those before it come to,
    /// and what they come to in the end are its ids and counts.
    ///
    /// A report that a book made always replays; this finds out whether one is still as it was
    /// made. It takes the time of a sort of the ids, and beyond that in proportion to its length,
    /// with a search among the lent ones for each return; and never more memory at a time than the
    /// lists of the report take. The error comes only if that is refused. `first_fault` says what
    /// is wrong.
    pub fn replays(&self) -> Result<bool, AllocError>
    where
        A: Copy,
        ensures { IfOk result (λ answer. IsTrue answer ↔ DoesReplay self.now) }
    {
        Ok(self.first_wrong()?.is_none())
    }

    /// What is wrong first in the report; None if it replays.
    pub(crate) fn first_wrong(&self) -> Result<Option<Wrong>, AllocError>
    where
        A: Copy,
        ensures { IfOk result
            (λ found. MatchOption found (DoesReplay self.now) (λ wrong. IsWrong wrong self.now)) }
    {
        Ok(self.replayed()?.wrong(self))
    }

    /// How many records admit no id that was there before. None if ids of the base are the same.
    pub(super) fn count_apart(&self) -> Result<Option<usize>, AllocError>
    where
        A: Copy,
        ensures { IfOk result
            (λ found. MatchOption found (HasWrongBase self.now)
            (λ count. AreApartUpTo self.now count)) }
    {
        let records = self.records.as_slice();
        if self.are_apart(records)? {
            return Ok(Some(records.len()));
        }
        if !self.are_apart(&records[..0])? {
            return Ok(None);
        }
        let mut apart = 0;
        let mut twice = records.len();
        'halving: while twice - apart > 1 {
            let middle = apart + (twice - apart) / 2;
            if self.are_apart(&records[..middle])? {
                apart = middle;
            } else {
                twice = middle;
            }
        }
        Ok(Some(apart))
    }

    // Whether the ids of the base, and those that the records admit, are apart.
    fn are_apart(&self, records: &[Record]) -> Result<bool, AllocError>
    where
        A: Copy,
        ensures { IfOk result
            (λ answer. IsTrue answer
            ↔ ((i : ℕ) → copies_of i (known_in (seen_base self.now.base)
            (map seen_record records.now)) ≤ 1)) }
    {
        let mut ids = known_ids(*self.records.allocator(), &self.base, records)?;
        Ok(are_apart(&mut ids))
    }

    /// What stands at the base, with room for what the records bring. None if the base is not
    /// legal.
    pub(crate) fn start(&self, records: &[Record]) -> Result<Option<RunningBase<A>>, AllocError>
    where
        A: Copy,
        requires apart { (i : ℕ) → copies_of i (ids_in_base (seen_base self.now.base)) ≤ 1 }
        ensures { IfOk result
            (λ made. MatchOption made (HasWrongBase self.now)
            (λ there. IsLegalBase (seen_limits self.now.limits) (seen_base self.now.base)
            × (there ≡ running_base (seen_base self.now.base)
            (rooms_for (seen_base self.now.base) (map seen_record records.now))))) }
    {
        if !has_fitting_counts(&self.base, &self.limits) {
            return Ok(None);
        }
        let room = Rooms::of(&self.base, records);
        RunningBase::of(*self.records.allocator(), &self.base, room)
    }

    /// Whether the ids and counts are those of what stands.
    pub(super) fn shows(&self, running_base: &RunningBase<A>) -> bool
        ensures { IsTrue result ↔ ShowsCounts running_base.now.base self.now }
    {
        running_base.has_ids(self.idle.as_slice(), self.lent.as_slice())
            && running_base.has_counts(self.connections, self.pending, self.closed)
    }
}

// Whether the counts of a base fit one another and the limits.
fn has_fitting_counts<A: Allocator>(base: &Base<A>, limits: &Limits) -> bool
    ensures { result ≡ counts_fit (seen_limits limits.now) (seen_base base.now) }
{
    let idle = base.idle.len();
    let there = idle + base.lent.len();
    let all = base.connections as u64 + base.pending as u64;
    base.connections as usize == there
        && all <= limits.max_size() as u64
        && (!base.closed || (idle == 0 && base.pending == 0))
}

// The ids in a base, and those that the records admit.
fn known_ids<A: Allocator + Copy>(
    alloc: A,
    base: &Base<A>,
    records: &[Record],
) -> Result<Vec<u64, A>, AllocError>
    ensures { IfOk result
        (λ ids. ids.items ≡ known_in (seen_base base.now) (map seen_record records.now)) }
{
    let mut ids = Vec::with_capacity(alloc, most_ids(base, records))?;
    add_idle(&mut ids, base.idle.as_slice())?;
    add_lent(&mut ids, base.lent.as_slice())?;
    add_admitted(&mut ids, records)?;
    Ok(ids)
}

// As many as there can be.
fn most_ids<A: Allocator>(base: &Base<A>, records: &[Record]) -> usize {
    let there = base.idle.len().saturating_add(base.lent.len());
    let admitted = records
        .iter()
        .filter(|record| record.admitted().is_some())
        .count();
    there.saturating_add(admitted)
}

fn add_idle<A: Allocator>(
    ids: &mut Vec<u64, A>,
    idle: &[(u64, Duration, Duration)],
) -> Result<(), AllocError>
    ensures { OnOk result (ids.new.items
        ≡ ids.old.items ++ map id_of_idle (map seen_bare idle.now)) }
{
    for entry in idle {
        ids.push(entry.0)?;
    }
    Ok(())
}

fn add_lent<A: Allocator>(ids: &mut Vec<u64, A>, lent: &[(u64, Duration)]) -> Result<(), AllocError>
    ensures { OnOk result (ids.new.items
        ≡ ids.old.items ++ map id_of_lent (map seen_lent lent.now)) }
{
    for entry in lent {
        ids.push(entry.0)?;
    }
    Ok(())
}

fn add_admitted<A: Allocator>(ids: &mut Vec<u64, A>, records: &[Record]) -> Result<(), AllocError>
    ensures { OnOk result (ids.new.items
        ≡ ids.old.items ++ flat_map admitted_by (map seen_record records.now)) }
{
    for record in records {
        if let Some(id) = record.admitted() {
            ids.push(id)?;
        }
    }
    Ok(())
}

// Whether no id stands twice. It puts them in order.
fn are_apart<A: Allocator>(ids: &mut Vec<u64, A>) -> bool
    ensures apart { IsTrue result ↔ ((i : ℕ) → copies_of i ids.old.items ≤ 1) }
    ensures len { length ids.new.items ≡ length ids.old.items }
{
    ids.sort_unstable();
    for place in 1..ids.len() {
        if ids[place - 1] == ids[place] {
            return false;
        }
    }
    true
}
