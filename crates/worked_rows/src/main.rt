//! The worked rows, which lie in the folder `data`: scripts, `NAME.steps`, with the answers that
//! were worked out by hand, `NAME.answers`. The core, `run`, a book, and the text of `pool-steps`
//! are each to answer them so.
#![tactic(auto)]

mod rows;

use pool_lines::program::Fault;
use std::alloc::{AllocError, Global};
use std::process::ExitCode;
use std::rt::Files;
use std::{fs, io};

/// Says how many rows there are, and names each that is answered otherwise; then the status is 1.
fn main(rt: HostRuntime) -> Result<ExitCode, anyhow::Error> {
    let names = names(&rt)?;
    let mut status = ExitCode::SUCCESS;
    for name in &names {
        if let Some(fault) = fault_of(&rt, name.as_str())? {
            println!(rt; "{name}: {fault}")?;
            status = ExitCode::FAILURE;
        }
    }
    println!(rt; "{} rows", names.len())?;
    Ok(status)
}

// The names of the rows, in order.
fn names<R: Files + AllocGlobal + Clone + Drop>(rt: &R) -> io::Result<Vec<String>> {
    let mut names = Vec::new(rt.alloc());
    add_rows(rt, &mut names)?;
    names.sort()?;
    Ok(names)
}

fn add_rows<R: Files + AllocGlobal + Clone + Drop>(
    rt: &R,
    names: &mut Vec<String>,
) -> io::Result<()> {
    for entry in fs::read_dir(rt, ".")? {
        add_row(rt.alloc(), names, entry?.file_name())?;
    }
    Ok(())
}

// Adds the name of a row, where the file is a script.
fn add_row(alloc: Global, names: &mut Vec<String>, file: &str) -> Result<(), AllocError> {
    if let Some(name) = file.strip_suffix(".steps") {
        names.push(String::from_str(alloc, name)?)?;
    }
    Ok(())
}

// The lines of a script, without those that are empty or begin with `#`.
fn without_comments(alloc: Global, file: &str) -> Result<String, AllocError> {
    let mut script = String::new(alloc);
    for line in file.lines() {
        if !line.is_empty() && !line.starts_with('#') {
            script.push_str(line)?;
            script.push('\n')?;
        }
    }
    Ok(script)
}

// What is wrong with the row of this name, if anything is.
fn fault_of<R: Files + AllocGlobal>(rt: &R, name: &str) -> io::Result<Option<String>> {
    let script = script_of(rt, name)?;
    let answers = text_of(rt, name, "answers")?;
    let who = rows::who_differs(rt.alloc(), script.as_str(), answers.as_str());
    Ok(fault_text(rt.alloc(), who)?)
}

fn script_of<R: Files + AllocGlobal>(rt: &R, name: &str) -> io::Result<String> {
    let file = text_of(rt, name, "steps")?;
    Ok(without_comments(rt.alloc(), file.as_str())?)
}

// The text of a row's file with that ending.
fn text_of<R: Files + AllocGlobal>(rt: &R, name: &str, ending: &str) -> io::Result<String> {
    fs::read_to_string(rt, format!(in rt.alloc(); "{name}.{ending}")?)
}

fn fault_text(
    alloc: Global,
    who: Result<Option<&'static str>, Fault>,
) -> Result<Option<String>, AllocError> {
    Ok(match who {
        Ok(None) => None,
        Ok(Some(who)) => Some(format!(in alloc; "{who} answers otherwise")?),
        Err(fault) => Some(format!(in alloc; "{fault}")?),
    })
}
