//! The program `pool-steps`: it reads the steps of a pool from standard input and writes each
//! answer on standard output, whatever its arguments.
#![tactic(auto)]

use pool_lines::program::{Fault, serve};
use std::io::{self, BufWriter};
use std::process::ExitCode;

fn main(rt: HostRuntime) -> ExitCode {
    match play(rt) {
        Ok(()) => ExitCode::SUCCESS,
        Err(fault) => {
            // Standard error may be closed; the status still tells.
            let _ = eprintln!(rt; "{fault}");
            ExitCode::from(fault.status())
        }
    }
}

fn play(rt: HostRuntime) -> Result<(), Fault> {
    let mut output = BufWriter::new(rt.alloc(), io::writer(&rt)).map_err(|_| Fault::Memory)?;
    serve(rt.alloc(), rt.reader(), &mut output)
}
