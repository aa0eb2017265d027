//! The text of the program `pool-steps`: what each line says, how each answer is written, and a
//! whole script, served from a reader to a writer.
#![tactic(auto)]

pub mod program;
