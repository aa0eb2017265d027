// Reports in, verdicts out.

use crate::asked::{Asked, Form, Lines};
use crate::fault::Fault;
use crate::finding::{Damage, Found, Reports, may_hold_one};
use crate::judged::{Judged, json_of};
use crate::outcome::Outcome;
use crate::pools::Pools;
use crate::spread;
use crate::unescaping::unescaped;
use pool_reports::{FromJsonError, Reading, Written, from_json_of_pool};
use serde::Serialize;
use std::alloc::{AllocError, Global};
use std::io::{BufRead, BufReader, BufWriter, ErrorKind, Read, Write};
use std::str;

/// Audits the report on each line of the input, or each one in the lines of a log, and writes what
/// it found on each; the outcome is the worst of that. Lines of white space alone are left out, and
/// counted.
/// An object that a line begins with its brace alone is read to its end, as one line with the
/// number of the first.
/// In the end it says if there was no report, and of a log how many lines hold none. What a page
/// draws is written in the end.
///
/// It stops at the first fault, but for what is damaged in a log, which is named there and counted
/// in the end. What it found on the lines before was written by then: where that failed, the fault
/// is the failed write.
pub fn serve<R: Read + Drop, W: Write + Drop>(
    alloc: Global,
    asked: Asked<'_>,
    input: R,
    output: W,
) -> Result<Outcome, Fault> {
    let mut input = BufReader::new(alloc, input).map_err(|_| AllocError)?;
    let output = BufWriter::new(alloc, output).map_err(|_| AllocError)?;
    let mut task = Task::new(alloc, asked, output);
    let outcome = task.audit_all(&mut input);
    task.flush().and(outcome)
}

// What is asked for, and what was found so far.
#[derive(Drop)]
struct Task<'a, W: Write + Drop> {
    alloc: Global,
    asked: Asked<'a>,
    output: BufWriter<W>,
    outcome: Outcome,
    tally: Tally,
    // The pools of reports that were left out, as they are named, each once.
    others: Vec<String>,
    pools: Pools,
}

// How many reports and lines there were.
#[derive(Clone, Copy, Default)]
struct Tally {
    reports: u64,
    // Those of other pools than the one that is asked for.
    others: u64,
    // Places that read like a report, and are none.
    damaged: u64,
    // Lines that hold neither.
    passed_over: u64,
}

// How a file begins that gzip wrote.
const GZIP: [u8; 2] = [0x1f, 0x8b];

// A service's line may stand in a string of JSON, and that in another one.
const MOST_LEVELS: usize = 3;

// So many pools that are left out are named.
const MOST_NAMES: usize = 20;

impl<'a, W: Write + Drop> Task<'a, W> {
    fn new(alloc: Global, asked: Asked<'a>, output: BufWriter<W>) -> Task<'a, W> {
        Task {
            alloc,
            asked,
            output,
            outcome: Outcome::Sound,
            tally: Tally::default(),
            others: Vec::new(alloc),
            pools: Pools::new(alloc),
        }
    }

    fn audit_all<R: Read + Drop>(&mut self, input: &mut BufReader<R>) -> Result<Outcome, Fault> {
        let mut line = Vec::new(self.alloc);
        let mut number = 1u64;
        for _ in 1..u64::MAX {
            // With no whole line at hand the next read may wait, so what was found goes out before.
            if !input.buffer().contains(&b'\n') {
                self.flush()?;
            }
            line.clear();
            if read_line(input, &mut line)? == 0 {
                return self.end();
            }
            let mut added = 0;
            if spread::is_begun(line.as_slice()) {
                self.flush()?;
                added = spread::read_on(input, &mut line)?;
            }
            self.audit_line(number, line.as_slice())?;
            number = number.saturating_add(1).saturating_add(added);
        }
        // A loop has a bound. No input has so many lines; std's readers give up so too.
        Err(Fault::Read)
    }

    // Writes what there is to say of a line.
    fn audit_line(&mut self, number: u64, line: &[u8]) -> Result<(), Fault> {
        if line.trim_ascii().is_empty() {
            return Ok(());
        }
        if number == 1 && line.starts_with(&GZIP) {
            return Err(Fault::Compressed);
        }
        match self.asked.lines {
            Lines::Log => self.search_line(number, line),
            Lines::Reports => {
                let written = report_on(self.alloc, number, line)?;
                self.judge(number, written)
            }
        }
    }

    // The same of each report in a line of a log, or else in its strings of JSON.
    fn search_line(&mut self, number: u64, line: &[u8]) -> Result<(), Fault> {
        if !may_hold_one(line) || !self.search_levels(number, line)? {
            self.tally.passed_over = self.tally.passed_over.saturating_add(1);
        }
        Ok(())
    }

    // The same of a line that may hold a report. Says whether there is one, damaged or not.
    fn search_levels(&mut self, number: u64, line: &[u8]) -> Result<bool, Fault> {
        let mut text = String::from_utf8_lossy(self.alloc, line)?;
        if spread::is_of_a_report(text.as_str()) {
            self.tell_found(number, Err(Damage::Spread))?;
            return Ok(true);
        }
        for _ in 0..MOST_LEVELS {
            if self.search_text(number, text.as_str())? {
                return Ok(true);
            }
            if !text.as_str().contains("\\\"") {
                break;
            }
            text = unescaped(self.alloc, text.as_str())?;
        }
        Ok(false)
    }

    // Writes what there is to say of each report in a text. Says whether there is one, damaged or
    // not.
    fn search_text(&mut self, number: u64, text: &str) -> Result<bool, Fault> {
        let mut reports = Reports::of(text);
        let mut has_one = false;
        for _ in 0..text.len() {
            let Some(found) = reports.next(self.alloc)? else {
                break;
            };
            self.tell_found(number, found)?;
            has_one = true;
        }
        Ok(has_one)
    }

    fn tell_found(&mut self, line: u64, found: Found) -> Result<(), Fault> {
        let damage = match found {
            Ok(written) => return self.judge(line, written),
            Err(damage) => damage,
        };
        self.tally.damaged = self.tally.damaged.saturating_add(1);
        let text = match self.asked.form {
            Form::Words => format!(in self.alloc; "line {line}: damaged: {damage}\n")?,
            Form::Json => {
                let damaged = damage.to_string(self.alloc)?;
                json_of(self.alloc, &DamagedLine { line, damaged })?
            }
            Form::Html => return Ok(()),
        };
        self.write(text.as_str())
    }

    // Writes what there is to say of a report, and notes whether it is sound.
    fn judge(&mut self, line: u64, written: Written) -> Result<(), Fault> {
        let alloc = self.alloc;
        if self.asked.pool.is_some() && self.asked.pool != written.name.as_deref() {
            return Ok(self.leave_out(&written)?);
        }
        let (verdict, reading) = Reading::audited(alloc, &written.report)?;
        self.tally.reports = self.tally.reports.saturating_add(1);
        let pool = self.pools.pool_of(alloc, &written)?;
        let summary = pool.summary_of(alloc, &written, verdict, &reading)?;
        let judged = Judged {
            line,
            written,
            verdict,
            summary,
        };
        self.outcome = self.outcome.or_worse(Outcome::of(judged.state()));
        let text = judged.text(alloc, self.asked.form)?;
        match self.asked.form {
            Form::Html => Ok(pool.note(judged, text.as_str())?),
            Form::Words | Form::Json => self.write(text.as_str()),
        }
    }

    // Counts a report of another pool than the one that is asked for, and notes of which it is.
    fn leave_out(&mut self, written: &Written) -> Result<(), AllocError> {
        self.tally.others = self.tally.others.saturating_add(1);
        let name = match &written.name {
            Some(name) => format!(in self.alloc; "{name:?}")?,
            None => String::from_str(self.alloc, "one without a name")?,
        };
        if self.others.len() < MOST_NAMES && !self.others.contains(&name) {
            self.others.push(name)?;
        }
        Ok(())
    }

    // Writes what a page draws, or how many reports there were.
    fn end(&mut self) -> Result<Outcome, Fault> {
        let text = match self.asked.form {
            Form::Html => self.pools.page(self.alloc)?,
            Form::Words => self.rest_in_words()?,
            Form::Json if self.asked.lines == Lines::Reports => String::new(self.alloc),
            Form::Json => {
                let lines = self.tally.passed_over;
                format!(in self.alloc; "{{\"lines_without_a_report\":{lines}}}\n")?
            }
        };
        self.write(text.as_str())?;
        match (self.tally.damaged, self.asked.pool) {
            (0, Some(asked)) if self.tally.reports == 0 => Err(self.of_other_pools(asked)?),
            (0, _) => Ok(self.outcome),
            (damaged, _) => Err(Fault::Damaged(damaged)),
        }
    }

    fn rest_in_words(&self) -> Result<String, AllocError> {
        let (tally, mut text) = (self.tally, String::new(self.alloc));
        if tally.reports == 0 {
            text.push_str("no report\n")?;
        }
        if tally.others > 0 {
            writeln!(text, "reports of other pools: {}", tally.others)?;
        }
        if self.asked.lines == Lines::Log {
            writeln!(text, "lines without a report: {}", tally.passed_over)?;
        }
        Ok(text)
    }

    // The fault that no report is of the pool that was asked for.
    fn of_other_pools(&self, asked: &str) -> Result<Fault, AllocError> {
        let asked = String::from_str(self.alloc, asked)?;
        let mut others = self.others.as_slice().join(self.alloc, ", ")?;
        if others.is_empty() {
            others.push_str("no reports of others")?;
        }
        Ok(Fault::OtherPools { asked, others })
    }

    fn write(&mut self, text: &str) -> Result<(), Fault> {
        self.output
            .write_all(text.as_bytes())
            .map_err(|_| Fault::Write)
    }

    fn flush(&mut self) -> Result<(), Fault> {
        self.output.flush().map_err(|_| Fault::Write)
    }
}

#[derive(Drop, Serialize)]
struct DamagedLine {
    line: u64,
    damaged: String,
}

fn report_on(alloc: Global, line: u64, bytes: &[u8]) -> Result<Written, Fault> {
    let text = str::from_utf8(bytes).map_err(|_| Fault::NotUtf8(line))?;
    match from_json_of_pool(alloc, text) {
        Ok(written) => Ok(written),
        Err(FromJsonError::Memory) => Err(Fault::Memory(AllocError)),
        Err(why) => Err(Fault::of_line(line, text, why)),
    }
}

/// Adds the next line of the input to a text: how long that is.
pub(crate) fn read_line<R: BufRead>(input: &mut R, text: &mut Vec<u8>) -> Result<usize, Fault> {
    input
        .read_until(b'\n', text)
        .map_err(|error| match error.kind() {
            ErrorKind::OutOfMemory => Fault::Memory(AllocError),
            _ => Fault::Read,
        })
}
