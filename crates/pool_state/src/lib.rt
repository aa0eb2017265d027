//! What the lock of a pool guards, and each step under it: the book, the line of those who wait,
//! who waits elsewhere and was woken, what failed. Nothing here waits or takes a lock: `r2d2` does
//! in threads, `r2d2_async` in tasks. A user needs none of it but `engine`, which `r2d2` gives out,
//! and the rest may change from one version to the next.
#![tactic(auto)]

pub mod engine;
mod failures;
mod line;
mod moments;
mod reason;
mod room;
mod state;
mod status;
mod text;
mod tuning;
pub mod waiters;

pub use failures::Failures;
pub use line::queue::Line;
pub use line::search::LateSearch;
pub use moments::has_passed;
pub use reason::{ReleaseReason, reason_of_reap};
pub use room::has_room;
pub use state::looking::Turn;
pub use state::serving::Look;
pub use state::{MOST_AHEAD, PoolState};
pub use status::{State, Status};
pub use text::text_of;
pub use tuning::Tuning;
pub use waiters::{ToWake, Waiters, Wake};
