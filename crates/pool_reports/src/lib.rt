//! Reports of a pool's journal as text, and what is wrong with one, in words.
//!
//! [`to_json`] writes a report as one line of JSON, and [`from_json`] reads it again, in another
//! program and at another time.
#![tactic(auto)]

pub mod calls;
mod counting;
pub mod error;
mod nanoseconds;
mod origin;
mod reading;
mod status;
pub mod story;
pub mod summary;
mod text;
pub mod verdict;
mod walk;
mod wall_clock;
mod writing;

pub use calls::Calls;
pub use error::FromJsonError;
pub use origin::{Origin, Written};
pub use reading::{from_json, from_json_of_pool};
pub use status::{PoolStatus, Waits};
pub use summary::{Concern, Loan, Reading, State, Summary, summarize};
pub use verdict::{
    BaseReason, CountsReason, MakingReason, RecordReason, StarvedReason, Verdict, audit,
};
pub use writing::{to_json, to_json_of_pool};

/// The version of the text that [`to_json`] writes, and the only one that [`from_json`] reads.
pub const VERSION: u64 = 1;
