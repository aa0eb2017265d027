// A script of steps, as `pool-steps` reads them, that a book takes; and what the book reports then:
// in a few figures, or as the line of JSON that `pool-audit` reads.

use pool_lines::program::Fault;
use pool_lines::program::line::{Line, limits};
use pool_reports::{Origin, Summary, summarize, to_json};
use r2d2_core::{Book, Report};
use std::alloc::{AllocError, Global};
use std::io;
use std::process::ExitCode;
use std::time::Duration;

// Two connections; one is lent and kept.
const SCRIPT: &str = "limits 2 1 - 100 30000 30000
begin 0
number 0
admit 10 0 7
take 20
begin 20
number 0
admit 30 1 8
return 40 0 7
reap 130
close
";

// The lines of a script that say something: none that are empty or begin with `#`.
fn said(alloc: Global, script: &str) -> Result<Vec<&str>, AllocError> {
    let mut lines = Vec::new(alloc);
    for line in script.lines() {
        if !line.is_empty() && !line.starts_with('#') {
            lines.push(line)?;
        }
    }
    Ok(lines)
}

// What a book reports that took the steps of a script, with room for each of its records.
fn report(alloc: Global, script: &str) -> Result<Report, Fault> {
    let lines = said(alloc, script)?;
    report_of(alloc, lines.as_slice())
}

fn report_of(alloc: Global, lines: &[&str]) -> Result<Report, Fault> {
    let (first, steps) = lines.split_first().ok_or(Fault::NotAStep(1))?;
    let limits = limits(first.as_bytes())?;
    let mut book = Book::new(alloc, limits, Duration::ZERO, steps.len())?;
    report_after(alloc, &mut book, steps)
}

fn report_after(alloc: Global, book: &mut Book<u64>, steps: &[&str]) -> Result<Report, Fault> {
    take(alloc, book, steps)?;
    Ok(book.report()?)
}

// Has the book take the steps that these lines of a script say, from the second one on.
fn take(alloc: Global, book: &mut Book<u64>, lines: &[&str]) -> Result<(), Fault> {
    for (number, line) in (2..u64::MAX).zip(lines) {
        let line = Line::read(alloc, line.as_bytes())?;
        take_line(alloc, book, line.ok_or(Fault::NotAStep(number))?)?;
    }
    Ok(())
}

fn take_line(alloc: Global, book: &mut Book<u64>, line: Line) -> Result<(), AllocError> {
    if let Line::Step(step) = line {
        drop(book.answer(alloc, step)?);
    }
    Ok(())
}

// Tells a script that is there.
pub fn told<R: Print + AllocGlobal>(rt: &R) -> Result<(), anyhow::Error> {
    let Summary {
        opened,
        returned,
        reaped,
        exhausted,
        ..
    } = summary(rt.alloc(), SCRIPT)?;
    println!(rt; "{opened} opened, {returned} came back, {reaped} closed while idle")?;
    println!(rt; "exhausted for {exhausted:?}")?;
    Ok(())
}

fn summary(alloc: Global, script: &str) -> Result<Summary, Fault> {
    let report = report(alloc, script)?;
    Ok(summarize(alloc, &report, &Origin::unknown(), None)?)
}

// Writes what a book reports that took the script on standard input, and answers the status to end
// with.
pub fn reported<R: Input + Print + Eprint + AllocGlobal>(
    rt: &R,
) -> Result<ExitCode, anyhow::Error> {
    let script = io::read_to_string(rt.alloc(), rt.reader())?;
    match written(rt.alloc(), script.as_str()) {
        Ok(line) => {
            println!(rt; "{line}")?;
            Ok(ExitCode::SUCCESS)
        }
        Err(fault) => {
            eprintln!(rt; "{fault}")?;
            Ok(ExitCode::from(fault.status()))
        }
    }
}

fn written(alloc: Global, script: &str) -> Result<String, Fault> {
    let report = report(alloc, script)?;
    Ok(to_json(alloc, &report)?)
}
