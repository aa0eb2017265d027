//! The program `pool-audit`: it reads the report on each line of standard input, and writes what is
//! wrong with it on standard output.
#![tactic(auto)]

mod answers;
mod asked;
mod concerns;
mod fault;
mod finding;
mod judged;
mod lines;
mod moments;
mod outcome;
mod pools;
mod spread;
mod unescaping;

use asked::Asked;
use fault::Fault;
use outcome::Outcome;
use std::alloc::AllocError;
use std::env;
use std::io::{self, ErrorKind};
use std::process::ExitCode;
use std::rt::Env;

fn main(rt: HostRuntime) -> ExitCode {
    match run(rt) {
        Ok(outcome) => ExitCode::from(outcome.status()),
        Err(fault) => {
            // Standard error may be closed; the status still says it.
            let _ = eprintln!(rt; "{fault}");
            ExitCode::from(fault.status())
        }
    }
}

fn run(rt: HostRuntime) -> Result<Outcome, Fault> {
    let arguments = arguments(&rt)?;
    let words = arguments
        .iter()
        .map(|word| word.as_str())
        .collect::<Vec<_>>(rt.alloc())?;
    let asked = Asked::of(words.as_slice()).ok_or(Fault::NotUnderstood)?;
    lines::serve(rt.alloc(), asked, rt.reader(), io::writer(&rt))
}

// One that is not UTF-8 is not understood.
fn arguments<R: Env + AllocGlobal>(rt: &R) -> Result<Vec<String>, Fault> {
    match env::args(rt) {
        Ok(words) => Ok(words.skip(1).collect(rt.alloc())?),
        Err(error) if error.kind() == ErrorKind::OutOfMemory => Err(Fault::Memory(AllocError)),
        Err(_) => Err(Fault::NotUnderstood),
    }
}
