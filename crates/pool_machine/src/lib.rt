//! The state machine of a pool's core, and the schedule of its openings and reaps: which
//! connections are idle, lent or on order, and what each step does to them. It uses no thread, lock
//! or atomic, and takes memory only when it is made.
//!
//! Users name it by `r2d2_core`, which gives out `machine`, `schedule`, `step` and `steps` under the
//! names that they have there. What else is public here is for the journal, and may change from one
//! version to the next.
#![tactic(auto)]

pub mod machine;
pub mod schedule;
pub mod step;
pub mod steps;
