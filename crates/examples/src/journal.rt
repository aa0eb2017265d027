// A book, which is a core with a journal.

use r2d2_core::{Book, Fault, Job, Limits, Report};
use std::time::Duration;

pub fn printed<R: Print + AllocGlobal>(rt: &R, limits: Limits) -> Result<(), anyhow::Error> {
    let mut book = Book::new(rt.alloc(), limits, Duration::ZERO, 1024)?;
    fill_and_say(rt, &mut book)
}

fn fill_and_say<R: Print>(rt: &R, book: &mut Book<&'static str>) -> Result<(), anyhow::Error> {
    open_one(book);
    say(rt, &book.report()?)
}

fn open_one(book: &mut Book<&'static str>) {
    if let Job::Open { tries } = book.begin(Duration::ZERO) {
        if let Ok(id) = book.number(tries) {
            book.admit(Duration::from_millis(20), id, "a connection")
                .ok();
        }
    }
}

fn say<R: Print>(rt: &R, report: &Report) -> Result<(), anyhow::Error> {
    for record in &report.records {
        println!(rt; "{record:?}")?;
    }
    println!(rt;
        "{} connections, {} pending, {} records lost",
        report.connections, report.pending, report.lost
    )?;
    if !report.replays()? {
        println!(rt; "this is no report as a book makes them")?;
    }
    say_what_is_wrong(rt, report)
}

fn say_what_is_wrong<R: Print>(rt: &R, report: &Report) -> Result<(), anyhow::Error> {
    match report.first_fault()? {
        None => println!(rt; "the report replays"),
        Some(Fault::Base) => println!(rt; "no pool comes to this base"),
        Some(Fault::Record { place, .. }) => println!(rt; "record {place} may not follow"),
        Some(Fault::Counts { .. }) => println!(rt; "the counts are others"),
    }?;
    Ok(())
}
