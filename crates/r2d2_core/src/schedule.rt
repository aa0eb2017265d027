// What a worker is to do and when, and the limits of a pool.

pub use pool_machine::schedule::{Job, LendingOrder, LimitSettings, Limits, Schedule, delay};
