// What is wrong with a report, in words.
ghost use Rattle.std.specs.Prelude.{◌≡◌, ◌↔◌, IfOk};
ghost use Rattle.pool_reports.specs.declared.verdict.Verdict.TheVariants.{Sound};
ghost use Rattle.r2d2_core.specs.Reports.{IsSoundReport};
ghost use Rattle.pool_reports.specs.Verdicts.{IsVerdictOn};

use crate::walk::{Reader, Walk};
pub use base::BaseReason;
pub use counts::CountsReason;
pub use kept::{MakingReason, StarvedReason};
use r2d2_core::{Fault, Record, Report};
pub use record::RecordReason;
use std::alloc::{AllocError, Global};
use std::fmt;

mod base;
mod counts;
mod kept;
mod record;

/// What an audit of a report found: that it is sound, or the first thing that is wrong.
///
/// Records are counted from 0, as in `records[17]` of the JSON.
#[derive(Clone, Copy, Debug, PartialEq, Eq)]
pub enum Verdict {
    /// The report is as each report of a pool is: it replays, none of the rest is wrong. Its text
    /// is `sound`.
    Sound,
    /// The base is none that a pool with the limits may come to.
    Base(BaseReason),
    /// The record at this place may not follow what stood before it.
    Record { place: usize, reason: RecordReason },
    /// The records are legal, but the report shows something else than they come to.
    Counts(CountsReason),
    /// It replays, but from a base that is not that of a pool just made, though `lost` is 0.
    Making(MakingReason),
    /// It replays, and `lost` is 0, but it shows other takes than its records have.
    Takes { shown: u64, due: u64 },
    /// It replays, but what is wanted is neither idle nor on its way.
    Starved(StarvedReason),
}

impl fmt::Display for Verdict {
    fn fmt<W: fmt::Write>(&self, f: &mut fmt::Formatter<W>) -> fmt::Result {
        match self {
            Verdict::Sound => write!(f, "sound"),
            Verdict::Base(reason) => write!(f, "the base: {reason}"),
            Verdict::Record { place, reason } => write!(f, "record {place}: {reason}"),
            Verdict::Counts(reason) => write!(f, "the counts: {reason}"),
            Verdict::Making(reason) => write!(f, "the base: {reason}"),
            Verdict::Takes { shown, due } => {
                write!(
                    f,
                    "the counts: takes is {shown}, but the records have {due}"
                )
            }
            Verdict::Starved(reason) => write!(f, "the counts: {reason}"),
        }
    }
}

// Who reads nothing, as where only the verdict is asked for.
#[derive(Clone, Copy)]
struct Nobody;

impl Reader for Nobody {
    fn read(&mut self, _: &Walk, _: Option<&Record>) -> Result<(), AllocError> {
        Ok(())
    }
}

/// Audits a report: whether it has all that a pool promises of each of its reports, and if it has
/// not, what is wrong first.
///
/// It takes about the time and the memory of `Report::first_fault` and of a summary. The error
/// comes only if memory is refused.
pub fn audit(alloc: Global, report: &Report) -> Result<Verdict, AllocError>
    ensures on { IfOk result (λ verdict. IsVerdictOn verdict report.now) }
    ensures sound { IfOk result (λ verdict. (verdict ≡ Sound) ↔ IsSoundReport report.now) }
{
    let mut walk = Walk::begun(alloc, report)?;
    audit_on(alloc, report, &mut walk, &mut Nobody)
}

/// The same on a walk from the base, which has a reader.
pub(crate) fn audit_on<R: Reader>(
    alloc: Global,
    report: &Report,
    walk: &mut Walk,
    reader: &mut R,
) -> Result<Verdict, AllocError>
    ensures on { IfOk result (λ verdict. IsVerdictOn verdict report.now) }
    ensures sound { IfOk result (λ verdict. (verdict ≡ Sound) ↔ IsSoundReport report.now) }
{
    let Some(fault) = walk.audit(report, reader)? else {
        return Ok(kept::verdict(report));
    };
    Ok(match fault {
        Fault::Base => Verdict::Base(base::reason(alloc, &report.limits, &report.base)?),
        Fault::Record { place, before } => {
            let record = &report.records.as_slice()[place];
            let reason = record::reason(&report.limits, &before, record, place == 0);
            Verdict::Record { place, reason }
        }
        Fault::Counts { end } => Verdict::Counts(counts::reason(report, &end)),
    })
}
