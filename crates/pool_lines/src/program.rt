// The text of the program: lines in, answers out.
ghost use Rattle.std.specs.Prelude.{◌≡◌, ◌≢◌, ◌⊎◌, [], Some, IfSome, OnOk, IfOk, IfErr, Contains};
ghost use Rattle.std.specs.Io.Buffered.{reader_buffer, reader_remaining, writer_buffer};
ghost use Rattle.std.specs.Io.Buffered.{writer_contents};
ghost use Rattle.std.specs.Io.KnownBytes.{Keeps};
ghost use Rattle.pool_lines.specs.Script.{TakesLine, Goes, Serves};
ghost use Rattle.pool_lines.specs.Faults.{status_of, text_of, IsCountedFromOne};
ghost use Rattle.pool_lines.specs.declared.program.Fault.TheVariants.{Memory, Read, Write};

use line::{Line, limits};
use r2d2_core::Core;
use std::alloc::{AllocError, Global};
use std::error::Error;
use std::fmt;
use std::io::{BufRead, BufReader, BufWriter, ErrorKind, Read, Write};
use std::time::Duration;

pub mod answer;
pub mod line;

/// Why the program stops before the end of its input.
#[derive(Clone, Copy, Debug, PartialEq, Eq)]
pub enum Fault {
    /// The line of this number, counted from 1, is not a step; the first one is not of the form of
    /// `limits`.
    NotAStep(u64),
    /// The first line has limits that no pool may have.
    LimitsRefused,
    /// Memory was refused.
    Memory,
    /// A read failed.
    Read,
    /// A write failed.
    Write,
}

impl Fault {
    /// The status that the program ends with.
    pub fn status(&self) -> u8
        ensures { result ≡ status_of self.now }
    {
        match self {
            Fault::NotAStep(_) | Fault::LimitsRefused => 1,
            Fault::Memory => 2,
            Fault::Read | Fault::Write => 3,
        }
    }
}

impl fmt::Display for Fault {
    ghost output = { λ fault. Some (text_of fault) };

    fn fmt<W: fmt::Write>(&self, f: &mut fmt::Formatter<W>) -> fmt::Result {
        let text = match self {
            Fault::NotAStep(number) => return write!(f, "line {number}: not a step"),
            Fault::LimitsRefused => "line 1: limits refused",
            Fault::Memory => "out of memory",
            Fault::Read => "read failed",
            Fault::Write => "write failed",
        };
        f.write_str(text)
    }
}

impl Error for Fault {}

impl From<AllocError> for Fault {
    ghost from_gives = { λ _ fault. fault ≡ Memory };

    fn from(_: AllocError) -> Fault {
        Fault::Memory
    }
}

/// Writes the answer to each line of the input to the output, up to the first fault. The answers of
/// all lines before it were written by then: if that failed, the fault is the failed write. What
/// stands written after a fault of memory, of a read or of a write is left open.
pub fn serve<R: Read + Drop, W: Write + Drop>(
    alloc: Global,
    input: R,
    output: &mut BufWriter<W>,
) -> Result<(), Fault>
    ensures counted { IfErr result IsCountedFromOne }
    ensures answers { IfSome (R.remaining input) (λ bytes. Serves bytes result
        (writer_contents W.contents output.old) (writer_contents W.contents output.new)) }
    ensures sent { writer_buffer output.old ≡ [] → result ≢ Err Write
        → writer_buffer output.new ≡ [] }
{
    let mut input = BufReader::new(alloc, input).map_err(|_| Fault::Memory)?;
    let outcome = run(alloc, &mut input, output);
    flush(output)?;
    outcome
}

// Answers the lines up to the first fault; the last answers may still lie in the output's buffer.
fn run<R: Read + Drop, W: Write + Drop>(
    alloc: Global,
    input: &mut BufReader<R>,
    output: &mut BufWriter<W>,
) -> Result<(), Fault>
    ensures counted { IfErr result IsCountedFromOne }
    ensures answers { IfSome (reader_remaining R.remaining input.old) (λ bytes. Serves bytes result
        (writer_contents W.contents output.old) (writer_contents W.contents output.new)) }
{
    let mut line = Vec::new(alloc);
    // Where there is no first line, it is an empty one, which is not of its form either.
    next_line(input, &mut line)?;
    let mut core = Core::new(alloc, limits(&line)?, Duration::ZERO)?;
    take_steps(alloc, &mut core, input, output)
}

// Answers the lines after the first.
fn take_steps<R: Read + Drop, W: Write + Drop>(
    alloc: Global,
    core: &mut Core<u64>,
    input: &mut BufReader<R>,
    output: &mut BufWriter<W>,
) -> Result<(), Fault>
    ensures counted { IfErr result IsCountedFromOne }
    ensures answers { IfSome (reader_remaining R.remaining input.old)
        (λ bytes. Goes 2 core.old bytes result
        (writer_contents W.contents output.old) (writer_contents W.contents output.new)) }
{
    // A loop has a bound. No input has so many lines; std's readers give up so too.
    let too_many_lines = Fault::Read;
    let mut line = Vec::new(alloc);
    for number in 2..u64::MAX {
        send_before_waiting(input, output)?;
        if !next_line(input, &mut line)? {
            return Ok(());
        }
        let Some(said) = Line::read(alloc, &line)? else {
            return Err(Fault::NotAStep(number));
        };
        answer::answer(alloc, core, said, output)?;
    }
    Err(too_many_lines)
}

// With no whole line at hand the next read may wait, so what was written goes out before it.
fn send_before_waiting<R: Read + Drop, W: Write + Drop>(
    input: &BufReader<R>,
    output: &mut BufWriter<W>,
) -> Result<(), Fault>
    ensures fault { IfErr result (λ fault. fault ≡ Write) }
    ensures sent { OnOk result (Contains (reader_buffer input.now) 10
        ⊎ (writer_buffer output.new ≡ [])) }
    ensures kept { Keeps (writer_contents W.contents output.old)
        (writer_contents W.contents output.new) }
{
    if input.buffer().contains(&b'\n') {
        return Ok(());
    }
    flush(output)
}

// Reads the next line, without its line feed, in place of the last one. Says whether there was one.
fn next_line<R: BufRead>(input: &mut R, line: &mut Vec<u8>) -> Result<bool, Fault>
    ensures fault { IfErr result (λ fault. (fault ≡ Memory) ⊎ (fault ≡ Read)) }
    ensures line { IfOk result (λ there. IfSome (R.remaining input.old) (λ bytes.
        TakesLine bytes there line.new.items (R.remaining input.new))) }
{
    line.clear();
    let count = input
        .read_until(b'\n', line)
        .map_err(|error| match error.kind() {
            ErrorKind::OutOfMemory => Fault::Memory,
            _ => Fault::Read,
        })?;
    if line.last() == Some(&b'\n') {
        line.pop();
    }
    Ok(count != 0)
}

// Sends what was written.
fn flush<W: Write + Drop>(output: &mut BufWriter<W>) -> Result<(), Fault>
    ensures fault { IfErr result (λ fault. fault ≡ Write) }
    ensures sent { OnOk result (writer_buffer output.new ≡ []) }
    ensures kept { Keeps (writer_contents W.contents output.old)
        (writer_contents W.contents output.new) }
{
    output.flush().map_err(|_| Fault::Write)
}
