// Why the program stops before the end of its input.
ghost use Rattle.std.specs.Prelude.{◌≡◌};
ghost use Rattle.pool_audit.specs.Faults.{status_of};

use crate::spread;
use pool_reports::FromJsonError;
use std::alloc::AllocError;
use thiserror::Error;

/// Why the program stops before the end of its input. Lines are counted from 1.
#[derive(Debug, Drop, PartialEq, Eq, Error)]
pub enum Fault {
    /// The arguments are none that it takes.
    #[error("pool_audit [--find] [--pool NAME] [--json | --html]")]
    NotUnderstood,
    /// The line of this number reads like a report, and is none.
    #[error("line {line}: {why}")]
    NoReport { line: u64, why: FromJsonError },
    /// It is something else, as a line of a log is.
    #[error("line {line}: {why} (--find looks for reports within the lines of a log)")]
    NotOfReports { line: u64, why: FromJsonError },
    /// It begins an object that goes on behind it or breaks off.
    #[error("line {0}: an object that does not end there: \
        write each report on one line (jq -c . FILE)")]
    Open(u64),
    /// It is not UTF-8.
    #[error("line {0}: not UTF-8")]
    NotUtf8(u64),
    /// The input is compressed by gzip.
    #[error("the input is compressed: gzip -dc FILE | pool-audit")]
    Compressed,
    /// No report is of the pool that was asked for; those that reports are of.
    #[error("no report of pool {asked:?}; there are {others}")]
    OtherPools { asked: String, others: String },
    /// So many places of a log read like a report, and are none. All others were audited.
    #[error("damaged reports: {0}")]
    Damaged(u64),
    #[error("out of memory")]
    Memory(#[from(alloc)] AllocError),
    #[error("read failed")]
    Read,
    #[error("write failed")]
    Write,
}

impl Fault {
    /// That of a line which is no report, and why.
    pub(crate) fn of_line(line: u64, text: &str, why: FromJsonError) -> Fault {
        if spread::is_open(text.as_bytes()) {
            return Fault::Open(line);
        }
        match first_field(text) {
            // A report begins so as it is written, and with its fields in the order of their names.
            Some("version" | "base") => Fault::NoReport { line, why },
            _ => Fault::NotOfReports { line, why },
        }
    }

    /// The status that the program ends with.
    pub fn status(&self) -> u8
        ensures { result ≡ status_of self.now }
    {
        match self {
            Fault::Memory(_) => 2,
            Fault::Read | Fault::Write => 3,
            Fault::NotUnderstood => 5,
            Fault::NoReport { .. } | Fault::NotOfReports { .. } | Fault::Open(_) => 6,
            Fault::NotUtf8(_) | Fault::Compressed | Fault::OtherPools { .. } => 6,
            Fault::Damaged(_) => 6,
        }
    }
}

// The name of the first field of an object, where a text is one.
fn first_field(text: &str) -> Option<&str> {
    let object = text.trim_ascii_start().strip_prefix('{')?;
    let field = object.trim_ascii_start().strip_prefix('"')?;
    field.split_once('"').map(|(name, _)| name)
}
