//! What the tests of the core and its worked rows have in common: a proved caller, makers, and
//! steps.
#![tactic(auto)]

pub mod caller;
pub mod machine;
pub mod makers;
pub mod steps;
