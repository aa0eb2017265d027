//! The core of a generic connection pool: which connections are idle, lent or on order, and what
//! each step does to them. It uses no thread, lock or atomic, and takes memory only when it is
//! made.
//!
//! You report to a [`Core`] what happened, and when; it returns what to do. Opening, checking and
//! closing connections is yours.
//!
//! ```rust
//! // A worker asks what to do, opens a connection, and hands it in.
//! if let Job::Open { tries } = core.begin(Duration::ZERO) {
//!     if let Ok(id) = core.number(tries) {
//!         core.admit(Duration::ZERO, id, "a connection").ok();
//!     }
//! }
//! // A caller takes it. If none were idle, an opening would be ordered.
//! match core.take(second, true) {
//!     Take::Found { value, ordered, .. } => println!(rt; "lent {value}, and {ordered} ordered")?,
//!     Take::Empty { ordered } => println!(rt; "none idle, and {ordered} ordered")?,
//! }
//! ```
//!
//! A [`Book`] is a core with a journal, [`run`](run::run) takes a list of steps, as does
//! [`run_and_report`](run::run_and_report) by a book, and [`reuse`] compares lending the newest
//! connection first, lending the oldest first, and other choices.
#![tactic(auto)]

pub mod journal;
pub mod machine;
pub mod reuse;
pub mod run;
pub mod schedule;
pub mod steps;

pub use journal::{Base, Book, Fault, Load, Record, Replay, Report};
pub use machine::{Core, Gone, Leftover, Refusal, Released, Returned, Take};
pub use run::{Answer, Step};
pub use schedule::{Job, LendingOrder, LimitSettings, Limits, Schedule};
pub use steps::Steps;
