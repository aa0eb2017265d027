// Cores, books and reports in any memory. None of it has a contract, so that a caller is proved
// without those of the core.

use r2d2_core::{Answer, Book, Core, Limits, Report, Step};
use std::alloc::{AllocError, Allocator, Global};
use std::time::Duration;

pub fn core_in<A: Allocator + Copy>(alloc: A, limits: Limits) -> Result<Core<u64, A>, AllocError> {
    Core::new(alloc, limits, Duration::ZERO)
}

pub fn core_from_id_in<A: Allocator + Copy>(
    alloc: A,
    limits: Limits,
    first_id: u64,
) -> Result<Core<u64, A>, AllocError> {
    Core::with_first_id(alloc, limits, Duration::ZERO, first_id)
}

// A book that was made at that moment, with room for so many records.
pub fn book_in<A: Allocator + Copy>(
    alloc: A,
    limits: Limits,
    made: Duration,
    room: usize,
) -> Result<Book<u64, A>, AllocError> {
    Book::new(alloc, limits, made, room)
}

pub fn book_from_id_in<A: Allocator + Copy>(
    alloc: A,
    limits: Limits,
    first_id: u64,
    room: usize,
) -> Result<Book<u64, A>, AllocError> {
    Book::with_first_id(alloc, limits, Duration::ZERO, first_id, room)
}

pub fn report_in<A: Allocator, B: Allocator + Copy>(
    book: &Book<u64, A>,
    alloc: B,
) -> Result<Report<B>, AllocError> {
    book.report_in(alloc)
}

// Takes a step by a book.
pub fn answered<A: Allocator>(
    alloc: Global,
    book: &mut Book<u64, A>,
    step: Step<u64>,
) -> Result<Answer<u64, A>, AllocError> {
    book.answer(alloc, step)
}
