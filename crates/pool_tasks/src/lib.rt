//! What the lock of a pool for tasks guards, and each step under it: the state of `pool_state`,
//! with a waker and an end for each slot of the line, and who waits beside the line. It neither
//! waits nor takes a lock: `r2d2_async` does. A user needs none of it, and it may change from one
//! version to the next.
#![tactic(auto)]

mod task_book;
mod wakers;

pub use task_book::leaving::GaveUp;
pub use task_book::{CallSpan, Looked, TaskBook};
