// What a step did to a pool.
ghost use Rattle.std.specs.Prelude.{◌≡◌, ◌≤◌, ◌∷◌, [], option_map, IfSome, IfNone};
ghost use Rattle.std.specs.Duration.{as_nanos};

use pool_machine::machine::{Gone, Refusal, Returned, Take};
use std::time::Duration;

/// A step that changed what is idle, lent, connected or pending, or that closed the pool.
///
/// `at` is the moment of the step, or the latest one before it if that is later. `ordered` is how
/// many openings the step ordered.
#[derive(Clone, Copy, PartialEq, Eq, Debug)]
pub enum Record {
    /// An idle connection was lent.
    Taken { at: Duration, id: u64, ordered: u32 },
    /// None was idle, and an opening was ordered.
    Ordered { at: Duration, ordered: u32 },
    /// A connection came in, and is the newest idle one.
    Admitted { at: Duration, id: u64 },
    /// A lent connection came back, and is the newest idle one.
    Kept { at: Duration, id: u64 },
    /// A lent connection came back and was closed, or its check failed.
    Closed { at: Duration, id: u64, ordered: u32 },
    /// The idle connections that were expired were closed.
    Reaped { at: Duration, ordered: u32 },
    /// The pool was closed, and with it all idle connections.
    ClosedAll { at: Duration },
}

impl Record {
    ghost use Rattle.pool_machine.specs.Seen.{seen_take, seen_returned, seen_gone, map_ok};
    ghost use Rattle.r2d2_core.specs.Records.{seen_record};
    ghost use Rattle.r2d2_core.specs.Records.{moment_of_record};
    ghost use Rattle.r2d2_core.specs.Folding.{admitted_by};
    ghost use Rattle.r2d2_core.specs.RunningBase.{made_idle_by, made_lent_by};
    ghost use Rattle.r2d2_core.specs.Recorded.{record_of_take, record_of_admission};
    ghost use Rattle.r2d2_core.specs.Recorded.{record_of_return, record_of_check, record_of_reap};
    ghost use Rattle.r2d2_core.specs.Recorded.{record_of_close};

    /// The moment of the record: that of its step, or the latest one before it if that is later.
    pub fn at(&self) -> Duration
        ensures { as_nanos result ≡ moment_of_record (seen_record self.now) }
    {
        match self {
            Record::Taken { at, .. }
            | Record::Ordered { at, .. }
            | Record::Admitted { at, .. }
            | Record::Kept { at, .. }
            | Record::Closed { at, .. }
            | Record::Reaped { at, .. }
            | Record::ClosedAll { at } => *at,
        }
    }

    /// The id that the record admits.
    pub(crate) fn admitted(&self) -> Option<u64>
        ensures some { IfSome result (λ id. admitted_by (seen_record self.now) ≡ id ∷ []) }
        ensures none { IfNone result (admitted_by (seen_record self.now) ≡ []) }
    {
        match self {
            Record::Admitted { id, .. } => Some(*id),
            _ => None,
        }
    }

    /// How many come to be idle by the record.
    pub(crate) fn made_idle(&self) -> usize
        ensures is { result ≡ made_idle_by (seen_record self.now) }
        ensures few { result ≤ 1 }
    {
        match self {
            Record::Admitted { .. } | Record::Kept { .. } => 1,
            _ => 0,
        }
    }

    /// How many come to be lent by the record.
    pub(crate) fn made_lent(&self) -> usize
        ensures is { result ≡ made_lent_by (seen_record self.now) }
        ensures few { result ≤ 1 }
    {
        match self {
            Record::Taken { .. } => 1,
            _ => 0,
        }
    }

    /// The record of a take, by its answer.
    pub(crate) fn of_take<T>(at: Duration, taken: &Take<T>) -> Option<Record>
        ensures { option_map seen_record result
            ≡ record_of_take (as_nanos at) (seen_take taken.now) }
    {
        match taken {
            Take::Found { id, ordered, .. } => Some(Record::Taken {
                at,
                id: *id,
                ordered: *ordered,
            }),
            Take::Empty { ordered } => {
                if *ordered == 0 {
                    return None;
                }
                Some(Record::Ordered {
                    at,
                    ordered: *ordered,
                })
            }
        }
    }

    /// The record of an admission of the id.
    pub(crate) fn of_admission<T>(
        at: Duration,
        id: u64,
        answer: &Result<(), (Refusal, T)>,
    ) -> Option<Record>
        ensures { option_map seen_record result ≡ record_of_admission (as_nanos at) id answer.now }
    {
        match answer {
            Ok(()) => Some(Record::Admitted { at, id }),
            Err(_) => None,
        }
    }

    /// The record of a return of the id.
    pub(crate) fn of_return<T>(
        at: Duration,
        id: u64,
        answer: &Result<Returned<T>, (Refusal, T)>,
    ) -> Option<Record>
        ensures { option_map seen_record result
            ≡ record_of_return (as_nanos at) id (map_ok seen_returned answer.now) }
    {
        match answer {
            Ok(Returned::Kept) => Some(Record::Kept { at, id }),
            Ok(Returned::Closed { ordered, .. }) => Some(Record::Closed {
                at,
                id,
                ordered: *ordered,
            }),
            Err(_) => None,
        }
    }

    /// The record of a failed check of the id.
    pub(crate) fn of_check(at: Duration, id: u64, answer: &Result<Gone, Refusal>) -> Option<Record>
        ensures { option_map seen_record result
            ≡ record_of_check (as_nanos at) id (map_ok seen_gone answer.now) }
    {
        match answer {
            Ok(gone) => Some(Record::Closed {
                at,
                id,
                ordered: gone.ordered,
            }),
            Err(_) => None,
        }
    }

    /// The record of a reap that closed and ordered so many.
    pub(crate) fn of_reap(at: Duration, closed: usize, ordered: u32) -> Option<Record>
        ensures { option_map seen_record result ≡ record_of_reap (as_nanos at) closed ordered }
    {
        if closed == 0 && ordered == 0 {
            return None;
        }
        Some(Record::Reaped { at, ordered })
    }

    /// The record of a close of a pool that was closed before, or not.
    pub(crate) fn of_close(at: Duration, closed_before: bool) -> Option<Record>
        ensures { option_map seen_record result ≡ record_of_close (as_nanos at) closed_before }
    {
        if closed_before {
            return None;
        }
        Some(Record::ClosedAll { at })
    }
}
