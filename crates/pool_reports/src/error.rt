// Why a text is no report.
ghost use Rattle.std.specs.Prelude.{◌≡◌};
ghost use Rattle.pool_reports.specs.declared.error.FromJsonError.TheVariants.{Memory};

use std::alloc::{AllocError, AllocFailed};
use thiserror::Error;

/// Why a text could not be read as a report.
#[derive(Debug, Drop, PartialEq, Eq, Error)]
pub enum FromJsonError {
    /// Memory was refused.
    #[error("out of memory")]
    Memory,
    /// The text is of another version, which can't be read.
    #[error("version: {0} is not one that can be read")]
    Version(u64),
    /// The text is an object of JSON without a version.
    #[error("version: missing")]
    NoVersion,
    /// The text is no JSON, or nests deeper than 127, or says no report: what is wrong, and where,
    /// on one line, as ``missing field `lost` at column 407``. Columns count bytes, from 1.
    #[error("{0}")]
    Wrong(String),
}

impl From<AllocError> for FromJsonError {
    ghost from_gives = { λ _ error. error ≡ Memory };

    fn from(_: AllocError) -> FromJsonError {
        FromJsonError::Memory
    }
}

impl<T: Drop> From<AllocFailed<T>> for FromJsonError {
    ghost from_gives = { λ _ error. error ≡ Memory };

    fn from(_: AllocFailed<T>) -> FromJsonError {
        FromJsonError::Memory
    }
}
