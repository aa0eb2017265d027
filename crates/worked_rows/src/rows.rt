// A row: a script, and each of those who are to answer it.

use core_uses::machine::{Machine, lines_of};
use core_uses::makers::{book_in, core_in, report_in};
use linked_list_allocator::LocalHeap;
use pool_lines::program::answer::{id_of, write_answer, write_state};
use pool_lines::program::line::{Line, limits};
use pool_lines::program::{Fault, serve};
use r2d2_core::run::run;
use r2d2_core::{Answer, Book, Limits, Step};
use std::alloc::{AllocError, Global};
use std::io::BufWriter;
use std::time::Duration;

// Room for a core or a book of a few connections, with all the records of a row.
const HEAP: usize = 65_536;

const RECORDS: usize = 256;

// Who does not answer the script by those answers, if anyone does not. The fault is a line that is
// no step, or lack of memory.
pub(crate) fn who_differs(
    alloc: Global,
    script: &str,
    answers: &str,
) -> Result<Option<&'static str>, Fault> {
    let (by_a_book, is_replayed) = by_a_book(alloc, script)?;
    let answered = [
        ("the program", by_the_program(alloc, script)?),
        ("run", by_run(alloc, script)?),
        ("a core on a full heap", by_a_core(alloc, script)?),
        ("a book on a full heap", by_a_book),
    ];
    for (who, written) in &answered {
        if written.as_slice() != answers.as_bytes() {
            return Ok(Some(*who));
        }
    }
    Ok(if is_replayed {
        None
    } else {
        Some("the replay of a book")
    })
}

// The limits and the lines that a script says.
fn read(alloc: Global, script: &str) -> Result<(Limits, Vec<Line>), Fault> {
    let mut said = script.lines();
    let limits = limits(said.next().unwrap_or("").as_bytes())?;
    let mut lines = Vec::new(alloc);
    for (number, line) in (2..u64::MAX).zip(said) {
        let line = Line::read(alloc, line.as_bytes())?;
        let line = line.ok_or(Fault::NotAStep(number))?;
        lines.push(line).map_err(|_| Fault::Memory)?;
    }
    Ok((limits, lines))
}

fn by_the_program(alloc: Global, script: &str) -> Result<Vec<u8>, Fault> {
    let mut written = Vec::new(alloc);
    let mut output = BufWriter::new(alloc, &mut written).map_err(|_| Fault::Memory)?;
    serve(alloc, script.as_bytes(), &mut output)?;
    drop(output);
    Ok(written)
}

// All steps at once; where the script looks at the state, those before it.
fn by_run(alloc: Global, script: &str) -> Result<Vec<u8>, Fault> {
    let (limits, lines) = read(alloc, script)?;
    let mut at_once = AtOnce {
        limits,
        steps: Vec::new(alloc),
        answered: 0,
        written: Vec::new(alloc),
    };
    at_once.answer(alloc, lines)?;
    Ok(at_once.written)
}

/// Steps that are run all at once. Where the script looks at the state, those before it are.
#[derive(Drop)]
struct AtOnce {
    limits: Limits,
    steps: Vec<Step<u64>>,
    // To how many of them the answers are written.
    answered: usize,
    written: Vec<u8>,
}

impl AtOnce {
    fn answer(&mut self, alloc: Global, lines: Vec<Line>) -> Result<(), Fault> {
        for line in lines {
            match line {
                Line::Step(step) => self.steps.push(step).map_err(|_| Fault::Memory)?,
                Line::State => self.look(alloc)?,
            }
        }
        self.write_answers(alloc)?;
        Ok(())
    }

    fn look(&mut self, alloc: Global) -> Result<(), Fault> {
        let (connections, idle, pending) = self.write_answers(alloc)?;
        write_state(&mut self.written, connections, idle, pending)
    }

    // Runs the steps, and writes the answers that are not written yet. It says the state.
    fn write_answers(&mut self, alloc: Global) -> Result<(u32, u32, u32), Fault> {
        let (state, answers) = ran(alloc, self.limits, self.steps.clone()?)?;
        for (step, answer) in self.steps.iter().zip(answers).skip(self.answered) {
            write_answer(&mut self.written, id_of(step), answer)?;
        }
        self.answered = self.steps.len();
        Ok(state)
    }
}

// How many are connected, idle and pending after the steps, and what these are answered.
fn ran(
    alloc: Global,
    limits: Limits,
    steps: Vec<Step<u64>>,
) -> Result<((u32, u32, u32), Vec<Answer<u64>>), AllocError> {
    let (core, answers) = run(alloc, limits, Duration::ZERO, steps)?;
    Ok((core.state(), answers))
}

fn by_a_core(alloc: Global, script: &str) -> Result<Vec<u8>, Fault> {
    let heap = LocalHeap::new(alloc, HEAP)?;
    let (limits, lines) = read(alloc, script)?;
    by_a_core_on(alloc, &heap, limits, lines)
}

fn by_a_core_on(
    alloc: Global,
    heap: &LocalHeap,
    limits: Limits,
    lines: Vec<Line>,
) -> Result<Vec<u8>, Fault> {
    let mut core = core_in(heap, limits)?;
    let written = on_a_full_heap(alloc, heap, &mut core, lines);
    drop(core);
    written
}

// Says besides whether the book's records come to what it reports.
fn by_a_book(alloc: Global, script: &str) -> Result<(Vec<u8>, bool), Fault> {
    let heap = LocalHeap::new(alloc, HEAP)?;
    let (limits, lines) = read(alloc, script)?;
    by_a_book_on(alloc, &heap, limits, lines)
}

fn by_a_book_on(
    alloc: Global,
    heap: &LocalHeap,
    limits: Limits,
    lines: Vec<Line>,
) -> Result<(Vec<u8>, bool), Fault> {
    let mut book = book_in(heap, limits, Duration::ZERO, RECORDS)?;
    let answered = answers_and_replays(alloc, heap, &mut book, lines);
    drop(book);
    answered
}

fn answers_and_replays<'a>(
    alloc: Global,
    heap: &'a LocalHeap,
    book: &mut Book<u64, &'a LocalHeap>,
    lines: Vec<Line>,
) -> Result<(Vec<u8>, bool), Fault> {
    let written = on_a_full_heap(alloc, heap, book, lines)?;
    Ok((written, is_replayed(alloc, book)?))
}

// What the machine answers, which lies in the heap, where nothing more is left.
fn on_a_full_heap<M: Machine>(
    alloc: Global,
    heap: &LocalHeap,
    machine: &mut M,
    lines: Vec<Line>,
) -> Result<Vec<u8>, Fault> {
    let _rest: Vec<u8, &LocalHeap> = Vec::with_capacity(heap, heap.free())?;
    lines_of(alloc, machine, lines)
}

// By itself, so that it is proved without the script.
fn is_replayed(alloc: Global, book: &Book<u64, &LocalHeap>) -> Result<bool, AllocError> {
    let report = report_in(book, alloc)?;
    report.replays()
}
