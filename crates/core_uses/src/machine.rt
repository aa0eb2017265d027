// A core or a book, and the lines that it answers.

use pool_lines::program::Fault;
use pool_lines::program::answer::{id_of, write_answer, write_state};
use pool_lines::program::line::Line;
use r2d2_core::{Answer, Book, Core, Step};
use std::alloc::{AllocError, Allocator, Global};

pub trait Machine {
    type Heap: Allocator;

    // What it answers to a step.
    fn step(
        &mut self,
        alloc: Global,
        step: Step<u64>,
    ) -> Result<Answer<u64, Self::Heap>, AllocError>;

    // How many are connected, idle and pending.
    fn state(&self) -> (u32, u32, u32);
}

impl<A: Allocator> Machine for Core<u64, A> {
    type Heap = A;

    fn step(&mut self, alloc: Global, step: Step<u64>) -> Result<Answer<u64, A>, AllocError> {
        self.answer(alloc, step)
    }

    fn state(&self) -> (u32, u32, u32) {
        (self.connections(), self.idle(), self.pending())
    }
}

impl<A: Allocator> Machine for Book<u64, A> {
    type Heap = A;

    fn step(&mut self, alloc: Global, step: Step<u64>) -> Result<Answer<u64, A>, AllocError> {
        self.answer(alloc, step)
    }

    fn state(&self) -> (u32, u32, u32) {
        (self.connections(), self.idle(), self.pending())
    }
}

// The lines that it answers to lines of a script.
pub fn lines_of<M: Machine>(
    alloc: Global,
    machine: &mut M,
    lines: Vec<Line>,
) -> Result<Vec<u8>, Fault> {
    let mut written = Vec::new(alloc);
    for line in lines {
        match line {
            Line::Step(step) => {
                let id = id_of(&step);
                let answer = machine.step(alloc, step)?;
                write_answer(&mut written, id, answer)?;
            }
            Line::State => {
                let (connections, idle, pending) = machine.state();
                write_state(&mut written, connections, idle, pending)?;
            }
        }
    }
    Ok(written)
}
