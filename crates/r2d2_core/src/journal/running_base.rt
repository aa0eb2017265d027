// What stood before the oldest of the records that are kept.
ghost use Rattle.std.specs.Prelude.{◌≡◌, ℕ, ◌+◌, ◌-◌, ◌^◌, ◌==◌, ◌<◌, ◌≤◌, ◌&&◌, not, nat_lt};
ghost use Rattle.std.specs.Prelude.{is_some, length, map, IsTrue, IfOk};
ghost use Rattle.std.specs.Duration.{as_nanos};
ghost use Rattle.std.specs.List.Sorted.{IsNonDecreasingBy};
ghost use Rattle.pool_machine.specs.Limits.{seen_limits, has_reached};
ghost use Rattle.pool_machine.specs.Ids.{copies_of};
ghost use Rattle.pool_machine.specs.Connections.{idle_connection, birth_in, id_of_idle, id_of_lent};
ghost use Rattle.pool_machine.specs.Connections.{since_of};
ghost use Rattle.r2d2_core.specs.Records.{seen_record};
ghost use Rattle.r2d2_core.specs.Bases.{seen_bare, seen_lent, IsLegalBase};
ghost use Rattle.r2d2_core.specs.Folding.{birth_of_lent, is_next, expired_in, may_follow, folded};
ghost use Rattle.r2d2_core.specs.Folding.{with_more, lent_in, admitted_to, kept_in, parted_from};
ghost use Rattle.r2d2_core.specs.Folding.{swept_of, closed_all_in, top_up_in};
ghost use Rattle.r2d2_core.specs.Reports.{seen_base};
ghost use Rattle.r2d2_core.specs.RunningBase.{running_base, rooms_for, made_idle_by, made_lent_by};
ghost use Rattle.r2d2_core.specs.RunningBase.{empty_base, with_one_idle};

use super::base::{Base, copied_idle, copied_lent};
use super::record::Record;
use pool_machine::machine::idle::{Idle, IdleConnection};
use pool_machine::machine::is_before;
use pool_machine::machine::lent::LentConnection;
use pool_machine::machine::roster::{HasId, Roster};
use pool_machine::schedule::Limits;
use std::alloc::{AllocError, Allocator, Global};
use std::marker::Model;
use std::time::Duration;

mod auditing;

/// How many connections there is room for.
#[derive(Clone, Copy)]
pub(crate) struct Rooms {
    pub(crate) idle: usize,
    pub(crate) lent: usize,
}

impl Rooms {
    /// Room for what a base has, and for what the records bring.
    pub(crate) fn of<A: Allocator>(base: &Base<A>, records: &[Record]) -> Rooms
        ensures { result ≡ rooms_for (seen_base base.now) (map seen_record records.now) }
    {
        let mut idle = base.idle.len();
        let mut lent = base.lent.len();
        for record in records {
            idle += record.made_idle();
            lent += record.made_lent();
        }
        Rooms { idle, lent }
    }
}

/// A base that is kept in place: records are folded into it without taking memory.
#[derive(Drop)]
pub(crate) struct RunningBase<A: Allocator = Global> {
    at: Duration,
    idle: Idle<(), A>,
    lent: Roster<LentConnection, A>,
    pending: u32,
    closed: bool,
}

impl<A: Allocator> Model for RunningBase<A> {
    ghost use Rattle.r2d2_core.specs.RunningBase.{SeenRunningBase, running_base, base_in, rooms};

    ghost Value = { SeenRunningBase };

    ghost view = { λ s. running_base (base_in s) (rooms s.idle.capacity s.lent.capacity) };
}

impl<A: Allocator> RunningBase<A> {
    /// What stands when nothing is idle or lent, with room for so many.
    pub(crate) fn new(
        alloc: A,
        at: Duration,
        pending: u32,
        room: Rooms,
    ) -> Result<RunningBase<A>, AllocError>
    where
        A: Copy,
        ensures { IfOk result
            (λ made. made ≡ running_base (empty_base (as_nanos at) pending) room) }
    {
        let idle = Idle::new(alloc, room.idle)?;
        let lent = Roster::new(alloc, room.lent)?;
        Ok(RunningBase {
            at,
            idle,
            lent,
            pending,
            closed: false,
        })
    }

    /// Whether the record may follow what stands; then it is folded in. If it may not, what stands
    /// is of no use any more.
    pub(crate) fn follow(&mut self, limits: &Limits, made: &Record) -> bool
        requires legal { IsLegalBase (seen_limits limits.now) self.old.base }
        requires idle_room { length self.old.base.idle + made_idle_by (seen_record made.now)
            ≤ self.old.room.idle }
        requires lent_room { length self.old.base.lent + made_lent_by (seen_record made.now)
            ≤ self.old.room.lent }
        ensures may { result
            ≡ may_follow (seen_limits limits.now) (seen_record made.now) self.old.base }
        ensures folded { IsTrue result
            → self.new ≡ running_base (folded (seen_limits limits.now)
            (seen_record made.now) self.old.base) self.old.room }
    {
        let at = made.at();
        if is_before(at, self.at) {
            return false;
        }
        self.at = at;
        match made {
            Record::Taken { id, ordered, .. } => {
                self.lend(limits, *id) && self.order(limits, *ordered)
            }
            Record::Ordered { ordered, .. } => self.miss(limits, *ordered),
            Record::Admitted { id, .. } => self.admit(*id),
            Record::Kept { id, .. } => self.keep(limits, *id),
            Record::Closed { id, ordered, .. } => self.part(*id) && self.order(limits, *ordered),
            Record::Reaped { ordered, .. } => {
                let closed = self.sweep(limits);
                self.order(limits, *ordered) && (*ordered > 0 || closed > 0)
            }
            Record::ClosedAll { .. } => self.close(),
        }
    }

    /// A copy of what stands.
    pub(crate) fn copied<B: Allocator>(&self, alloc: B) -> Result<Base<B>, AllocError>
    where
        B: Copy,
        requires { self.now.base.connections < 2 ^ 32 }
        ensures { IfOk result (λ base. seen_base base ≡ self.now.base) }
    {
        let idle = copied_idle(alloc, &self.idle)?;
        let lent = copied_lent(alloc, &self.lent)?;
        Ok(Base {
            at: self.at,
            idle,
            lent,
            connections: (self.idle.len() + self.lent.len()) as u32,
            pending: self.pending,
            closed: self.closed,
        })
    }

    // Orders so many, where that is what is wanted beside the idle ones, as far as there is room.
    fn order(&mut self, limits: &Limits, ordered: u32) -> bool
        requires fits { self.old.base.connections + self.old.base.pending
            ≤ (seen_limits limits.now).max_size }
        ensures is { result
            ≡ (ordered == top_up_in (seen_limits limits.now) self.old.base) }
        ensures more { IsTrue result
            → self.new ≡ running_base (with_more ordered self.old.base) self.old.room }
    {
        let _max_size = limits.max_size();
        let idle = self.idle.len();
        let connections = idle + self.lent.len();
        if ordered != limits.top_up(self.closed, idle, connections, self.pending) {
            return false;
        }
        self.pending += ordered;
        true
    }

    // Orders one, where none is idle and there is room.
    fn miss(&mut self, limits: &Limits, ordered: u32) -> bool
        requires fits { self.old.base.connections + self.old.base.pending
            ≤ (seen_limits limits.now).max_size }
        ensures is { result
            ≡ ((length self.old.base.idle == 0)
            && ((ordered == 1)
            && (not self.old.base.closed
            && nat_lt (self.old.base.connections
            + self.old.base.pending) (seen_limits limits.now).max_size))) }
        ensures more { IsTrue result
            → self.new ≡ running_base (with_more ordered self.old.base) self.old.room }
    {
        let max_size = limits.max_size();
        let connections = (self.idle.len() + self.lent.len()) as u32;
        let is_missed = self.idle.len() == 0 && !self.closed;
        if !is_missed || ordered != 1 || connections + self.pending >= max_size {
            return false;
        }
        self.pending += 1;
        true
    }

    // Lends the one that is next, where it has the id.
    fn lend(&mut self, limits: &Limits, id: u64) -> bool
        requires apart { (i : ℕ) → copies_of i (map id_of_idle self.old.base.idle) ≤ 1 }
        requires room { length self.old.base.lent < self.old.room.lent }
        ensures is { result ≡ is_next (seen_limits limits.now) id self.old.base }
        ensures less { IsTrue result → length self.new.base.idle ≡ length self.old.base.idle - 1 }
        ensures lent { IsTrue result
            → self.new ≡ running_base (lent_in id self.old.base) self.old.room }
    {
        match self.idle.take(limits.order()) {
            Some(entry) => {
                if entry.id() != id {
                    return false;
                }
                self.lent.add(LentConnection::new(id, entry.birth()));
                true
            }
            None => false,
        }
    }

    // Makes the newest idle one of an opening that was pending.
    fn admit(&mut self, id: u64) -> bool
        requires room { length self.old.base.idle < self.old.room.idle }
        ensures is { result ≡ nat_lt 0 self.old.base.pending }
        ensures admitted { IsTrue result
            → self.new ≡ running_base (admitted_to id self.old.base) self.old.room }
    {
        if self.pending == 0 {
            return false;
        }
        self.pending -= 1;
        self.rest(id, self.at);
        true
    }

    // Makes the lent one with the id the newest idle one, where it is not to be closed.
    fn keep(&mut self, limits: &Limits, id: u64) -> bool
        requires apart { copies_of id (map id_of_lent self.old.base.lent) ≤ 1 }
        requires room { length self.old.base.idle < self.old.room.idle }
        ensures is { result
            ≡ (is_some (birth_in id self.old.base.lent)
            && (not self.old.base.closed
            && not (has_reached (seen_limits limits.now).max_lifetime (self.old.base.at
            - birth_of_lent id self.old.base.lent)))) }
        ensures kept { IsTrue result
            → self.new ≡ running_base (kept_in id self.old.base) self.old.room }
    {
        match self.lent.remove(id) {
            Some(loan) => {
                let birth = loan.birth();
                let age = self.at.saturating_sub(birth);
                if self.closed || limits.is_too_old(age) {
                    return false;
                }
                self.rest(id, birth);
                true
            }
            None => false,
        }
    }

    // Adds the newest idle one.
    fn rest(&mut self, id: u64, birth: Duration)
        requires room { length self.old.base.idle < self.old.room.idle }
        ensures { self.new
            ≡ running_base (with_one_idle (idle_connection id
            (as_nanos birth) self.old.base.at tt) self.old.base) self.old.room }
    {
        self.idle.add(IdleConnection::new(id, birth, self.at, ()));
    }

    // The lent one with the id is gone, if there is one.
    fn part(&mut self, id: u64) -> bool
        requires { copies_of id (map id_of_lent self.old.base.lent) ≤ 1 }
        ensures is { result ≡ is_some (birth_in id self.old.base.lent) }
        ensures gone { IsTrue result
            → self.new ≡ running_base (parted_from id self.old.base) self.old.room }
    {
        self.lent.remove(id).is_some()
    }

    // The expired ones are gone; answers how many they were.
    fn sweep(&mut self, limits: &Limits) -> usize
        requires in_order { IsNonDecreasingBy since_of self.old.base.idle }
        ensures closed { result
            ≡ expired_in (seen_limits limits.now) self.old.base }
        ensures swept { self.new
            ≡ running_base (swept_of (seen_limits limits.now) self.old.base) self.old.room }
    {
        let before = self.idle.len();
        self.idle.shed(limits, self.at);
        before - self.idle.len()
    }

    // Nothing is idle or pending any more, where it was not closed before.
    fn close(&mut self) -> bool
        ensures is { result ≡ not self.old.base.closed }
        ensures closed { IsTrue result
            → self.new ≡ running_base (closed_all_in self.old.base) self.old.room }
    {
        if self.closed {
            return false;
        }
        self.idle.clear();
        self.pending = 0;
        self.closed = true;
        true
    }
}
