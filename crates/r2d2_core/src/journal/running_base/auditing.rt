// An audit of a report: its base is put in place, follows the records, and is compared with the
// counts.
ghost use Rattle.std.specs.Prelude.{◌≡◌, ◌↔◌, ◌+◌, ◌<◌, ◌≤◌, ◌&&◌, nat_le, ℕ, [], true, false, map};
ghost use Rattle.std.specs.Prelude.{length, take, IsTrue, IfOk, MatchOption};
ghost use Rattle.std.specs.Duration.{as_nanos};
ghost use Rattle.pool_machine.specs.Limits.{seen_limits};
ghost use Rattle.pool_machine.specs.Ids.{copies_of};
ghost use Rattle.pool_machine.specs.Connections.{id_of_idle, id_of_lent};
ghost use Rattle.r2d2_core.specs.Records.{seen_record};
ghost use Rattle.r2d2_core.specs.Bases.{seen_bare, seen_lent, IsLegalBase};
ghost use Rattle.r2d2_core.specs.Folding.{replay, all_follow, known_in};
ghost use Rattle.r2d2_core.specs.Reports.{seen_base};
ghost use Rattle.r2d2_core.specs.RunningBase.{running_base, rooms_for, empty_base, with_idle};
ghost use Rattle.r2d2_core.specs.RunningBase.{with_lent};
ghost use Rattle.r2d2_core.specs.Auditing.{are_in_order, are_born};

use super::{Rooms, RunningBase};
use crate::journal::base::Base;
use crate::journal::record::Record;
use pool_machine::machine::idle::{Idle, IdleConnection};
use pool_machine::machine::lent::LentConnection;
use pool_machine::machine::roster::Roster;
use pool_machine::schedule::Limits;
use std::alloc::{AllocError, Allocator};
use std::time::Duration;

// Whether neither of the first two moments is after the third, nor that after the last.
fn are_in_a_row(birth: Duration, last: Duration, since: Duration, at: Duration) -> bool
    ensures { result
        ≡ (nat_le (as_nanos birth) (as_nanos since)
        && (nat_le (as_nanos last) (as_nanos since) && nat_le (as_nanos since) (as_nanos at))) }
{
    birth.as_nanos() <= since.as_nanos()
        && last.as_nanos() <= since.as_nanos()
        && since.as_nanos() <= at.as_nanos()
}

impl<A: Allocator> RunningBase<A> {
    /// What a base says, with room for so many. None if the moments of its connections are in no
    /// order.
    pub(crate) fn of(
        alloc: A,
        base: &Base<A>,
        room: Rooms,
    ) -> Result<Option<RunningBase<A>>, AllocError>
    where
        A: Copy,
        requires counted { base.now.connections
            ≡ length base.now.idle.items + length base.now.lent.items }
        requires idle_room { length base.now.idle.items ≤ room.idle }
        requires lent_room { length base.now.lent.items ≤ room.lent }
        ensures { IfOk result (λ made. MatchOption made
            ((are_in_order (as_nanos base.now.at) 0 (map seen_bare base.now.idle.items)
            && are_born (as_nanos base.now.at) (map seen_lent base.now.lent.items)) ≡ false)
            (λ there. ((are_in_order (as_nanos base.now.at) 0 (map seen_bare base.now.idle.items)
            && are_born (as_nanos base.now.at) (map seen_lent base.now.lent.items)) ≡ true)
            × (there ≡ running_base (seen_base base.now) room))) }
    {
        let mut running_base = RunningBase::tight(alloc, base.at, base.pending, room)?;
        if !running_base.put_idle(base.idle.as_slice())
            || !running_base.put_lent(base.lent.as_slice())
        {
            return Ok(None);
        }
        running_base.closed = base.closed;
        Ok(Some(running_base))
    }

    // What stands where nothing is idle or lent, with no memory but for so many.
    fn tight(
        alloc: A,
        at: Duration,
        pending: u32,
        room: Rooms,
    ) -> Result<RunningBase<A>, AllocError>
    where
        A: Copy,
        ensures { IfOk result
            (λ made. made ≡ running_base (empty_base (as_nanos at) pending) room) }
    {
        let idle = Idle::new(alloc, room.idle)?;
        let lent = Roster::tight(alloc, room.lent)?;
        Ok(RunningBase {
            at,
            idle,
            lent,
            pending,
            closed: false,
        })
    }

    // Puts idle ones in place, where their moments are in order.
    fn put_idle(&mut self, idle: &[(u64, Duration, Duration)]) -> bool
        requires empty { self.old.base.idle ≡ [] }
        requires room { length idle.now ≤ self.old.room.idle }
        ensures is { result ≡ are_in_order self.old.base.at 0 (map seen_bare idle.now) }
        ensures put { IsTrue result
            → self.new ≡ running_base (with_idle (map seen_bare idle.now) self.old.base)
            self.old.room }
    {
        let mut last = Duration::ZERO;
        for entry in idle {
            let (id, birth, since) = *entry;
            if !are_in_a_row(birth, last, since, self.at) {
                return false;
            }
            last = since;
            self.idle.add(IdleConnection::new(id, birth, since, ()));
        }
        true
    }

    // Puts lent ones in place, where their moments are in order.
    fn put_lent(&mut self, lent: &[(u64, Duration)]) -> bool
        requires empty { self.old.base.lent ≡ [] }
        requires room { length lent.now ≤ self.old.room.lent }
        ensures is { result ≡ are_born self.old.base.at (map seen_lent lent.now) }
        ensures put { IsTrue result
            → self.new ≡ running_base (with_lent (map seen_lent lent.now) self.old.base)
            self.old.room }
    {
        for entry in lent {
            let (id, birth) = *entry;
            if birth.as_nanos() > self.at.as_nanos() {
                return false;
            }
            self.lent.add(LentConnection::new(id, birth));
        }
        true
    }

    /// How many records follow one another from what stands; if that is all of them, they are
    /// folded in.
    pub(crate) fn follow_all(&mut self, limits: &Limits, records: &[Record]) -> usize
        requires legal { IsLegalBase (seen_limits limits.now) self.old.base }
        requires apart { (i : ℕ)
            → copies_of i (known_in self.old.base (map seen_record records.now)) ≤ 1 }
        requires room { self.old.room ≡ rooms_for self.old.base (map seen_record records.now) }
        ensures within { result ≤ length records.now }
        ensures may { all_follow (seen_limits limits.now)
            (take result (map seen_record records.now)) self.old.base ≡ true }
        ensures stops { result < length records.now
            → all_follow (seen_limits limits.now)
            (take (result + 1) (map seen_record records.now)) self.old.base ≡ false }
        ensures folded { result ≡ length records.now
            → self.new ≡ running_base (replay (seen_limits limits.now)
            (map seen_record records.now) self.old.base) self.old.room }
    {
        let mut followed = 0;
        for made in records {
            if !self.follow(limits, made) {
                return followed;
            }
            followed += 1;
        }
        followed
    }

    /// Whether the idle ones and the lent ones have these ids, in their order.
    pub(crate) fn has_ids(&self, idle: &[u64], lent: &[u64]) -> bool
        ensures { IsTrue result
            ↔ ((map id_of_idle self.now.base.idle ≡ idle.now)
            × (map id_of_lent self.now.base.lent ≡ lent.now)) }
    {
        self.has_idle(idle) && self.lent.has_ids(lent)
    }

    fn has_idle(&self, ids: &[u64]) -> bool
        ensures { IsTrue result ↔ (map id_of_idle self.now.base.idle ≡ ids.now) }
    {
        if self.idle.len() != ids.len() {
            return false;
        }
        for place in 0..ids.len() {
            if let Some(entry) = self.idle.get(place)
                && entry.id() != ids[place]
            {
                return false;
            }
        }
        true
    }

    /// Whether these are its counts.
    pub(crate) fn has_counts(&self, connections: u32, pending: u32, closed: bool) -> bool
        ensures { IsTrue result
            ↔ ((self.now.base.connections ≡ connections)
            × ((self.now.base.pending ≡ pending) × (self.now.base.closed ≡ closed))) }
    {
        let idle = self.idle.len();
        idle <= connections as usize
            && connections as usize - idle == self.lent.len()
            && self.pending == pending
            && self.closed == closed
    }
}
