// The newest records, and what stood before them.
ghost use Rattle.std.specs.Prelude.{◌≡◌, ◌<◌, map, option_map, IfOk};
ghost use Rattle.std.specs.Duration.{as_nanos};
ghost use Rattle.pool_machine.specs.Limits.{seen_limits};
ghost use Rattle.r2d2_core.specs.Records.{seen_record};
ghost use Rattle.r2d2_core.specs.Journal.{first_journal, takes_with, CountsTakes};
ghost use Rattle.r2d2_core.specs.JournalParts.{IsBefore, MayNote, kept_alone};

use super::record::Record;
use super::running_base::{Rooms, RunningBase};
use circular_buffer::HeapCircularBuffer;
use pool_machine::schedule::Limits;
use std::alloc::{AllocError, Allocator, Global};
use std::marker::Model;
use std::time::Duration;

/// What stood before the oldest of the records.
#[derive(Drop)]
pub(crate) enum Before<A: Allocator = Global> {
    /// Without room for a record: what the machine shows now. The moment is that of the latest
    /// record, or of the creation.
    Shown(Duration),
    /// What the records come to that were kept once.
    Folded(RunningBase<A>),
}

/// The moment of the creation, as many records as it has room for, what stood before the oldest of
/// them, how many were folded into that, and how many takes were noted.
#[derive(Drop)]
pub(crate) struct Journal<A: Allocator = Global> {
    limits: Limits,
    made: Duration,
    before: Before<A>,
    records: HeapCircularBuffer<Record, A>,
    lost: u64,
    takes: u64,
}

impl<A: Allocator> Model for Journal<A> {
    ghost use Rattle.r2d2_core.specs.Journal.{SeenJournal};
    ghost use Rattle.r2d2_core.specs.JournalParts.{journal_in, IsKeptUp};

    ghost Value = { SeenJournal };

    ghost view = { journal_in };

    ghost invariant = { IsKeptUp };
}

impl<A: Allocator> Journal<A> {
    /// The journal of a pool made at the moment `now`, with room for so many records, and for a
    /// base of up to `max_size` connections.
    pub(crate) fn new(
        alloc: A,
        limits: Limits,
        now: Duration,
        room: usize,
    ) -> Result<Journal<A>, AllocError>
    where
        A: Copy,
        ensures { IfOk result
            (λ journal. journal ≡ first_journal (seen_limits limits) (as_nanos now) room) }
    {
        let most = limits.max_size() as usize;
        let both = Rooms {
            idle: most,
            lent: most,
        };
        let before = if room == 0 {
            Before::Shown(now)
        } else {
            Before::Folded(RunningBase::new(alloc, now, limits.wanted(), both)?)
        };
        let records = HeapCircularBuffer::with_capacity(alloc, room)?;
        Ok(Journal {
            limits,
            made: now,
            before,
            records,
            lost: 0,
            takes: 0,
        })
    }

    /// How many records were folded into the base.
    pub(crate) fn lost(&self) -> u64
        ensures { result ≡ self.now.lost }
    {
        self.lost
    }

    /// How many takes that found were noted, whatever was folded in.
    pub(crate) fn takes(&self) -> u64
        ensures value { result ≡ self.now.takes }
        ensures counted { CountsTakes self.now }
    {
        self.takes
    }

    /// Notes the record that a step made, if it made one. If there is no room left the oldest is
    /// folded into the base; without any room the moment alone is kept.
    #[inline(always)]
    pub(crate) fn note(&mut self, made: Option<Record>)
        requires { 0 < self.old.room → MayNote (option_map seen_record made) self.old }
        ensures { self.new ≡ kept_alone (option_map seen_record made) self.old }
    {
        if let Some(made) = made {
            self.takes = with_take(self.takes, &made);
            match &mut self.before {
                Before::Shown(at) => {
                    *at = made.at();
                    self.lost = self.lost.saturating_add(1);
                }
                Before::Folded(running_base) => {
                    if let Some(oldest) = self.records.push_back(made) {
                        running_base.follow(&self.limits, &oldest);
                        self.lost = self.lost.saturating_add(1);
                    }
                }
            }
        }
    }

    /// A copy of the records, oldest first.
    pub(crate) fn copied<B: Allocator>(&self, alloc: B) -> Result<Vec<Record, B>, AllocError>
        ensures { IfOk result (λ list. map seen_record list.items ≡ self.now.records) }
    {
        self.records.to_vec(alloc)
    }

    /// What stood before the oldest record.
    pub(crate) fn before(&self) -> &Before<A>
        ensures { IsBefore self.now result.now }
    {
        &self.before
    }
}

// The takes that were noted, with a record more.
fn with_take(takes: u64, made: &Record) -> u64
    ensures { result ≡ takes_with (seen_record made.now) takes }
{
    match made {
        Record::Taken { .. } => takes.saturating_add(1),
        _ => takes,
    }
}
