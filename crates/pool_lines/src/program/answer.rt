// The answers to the lines.
ghost use Rattle.std.specs.Prelude.{◌≡◌, ◌⊎◌, Some, IfErr, OnOk, map, option_map, string_bytes};
ghost use Rattle.std.specs.Duration.{as_nanos};
ghost use Rattle.std.specs.Io.KnownBytes.{Appends};
ghost use Rattle.pool_machine.specs.Seen.{seen_take, seen_returned, seen_gone, seen_released, map_ok};
ghost use Rattle.pool_machine.specs.Jobs.{seen_job};
ghost use Rattle.pool_machine.specs.Steps.{seen_answer};
ghost use Rattle.pool_lines.specs.Lines.{seen_line};
ghost use Rattle.pool_lines.specs.Steps.{answer_text, after_said, id_in, reply_text};
ghost use Rattle.pool_lines.specs.Texts.{milliseconds, word_of, refusal_text, take_text, task_text};
ghost use Rattle.pool_lines.specs.Texts.{number_text, admission_text};
ghost use Rattle.pool_lines.specs.Texts.{failure_text, gone_text, check_text, return_text};
ghost use Rattle.pool_lines.specs.Texts.{reap_text, released_text};
ghost use Rattle.pool_lines.specs.Texts.{error_text, close_text, left_text, state_text};
ghost use Rattle.pool_lines.specs.declared.program.Fault.TheVariants.{Memory, Write};

use super::Fault;
use super::line::Line;
use r2d2_core::{Answer, Core, Gone, Job, Leftover, Refusal, Released, Returned, Step, Take};
use std::alloc::{Allocator, Global};
use std::io::Write;
use std::time::Duration;
use std::{fmt, io};

/// Does what a line says, and writes the answer.
#[tactic(auto, using(crate::proofs::Texts::text_of_step, crate::proofs::Texts::after_of_step))]
pub fn answer<W: Write>(
    alloc: Global,
    core: &mut Core<u64>,
    line: Line,
    output: &mut W,
) -> Result<(), Fault>
    ensures fault { IfErr result (λ fault. (fault ≡ Memory) ⊎ (fault ≡ Write)) }
    ensures written { OnOk result (Appends (W.contents output.old) (W.contents output.new)
        (answer_text (seen_line line) core.old)) }
    ensures after { OnOk result (core.new ≡ after_said (seen_line line) core.old) }
{
    match line {
        Line::Step(step) => {
            let id = id_of(&step);
            let answer = core.answer(alloc, step)?;
            write_answer(output, id, answer)
        }
        Line::State => write_state(output, core.connections(), core.idle(), core.pending()),
    }
}

/// The id that a step of a lent connection names; 0 of any other step.
pub fn id_of(step: &Step<u64>) -> u64
    ensures { result ≡ id_in step.now }
{
    match step {
        Step::FailCheck { id, .. } | Step::PutBack { id, .. } => *id,
        _ => 0,
    }
}

/// Writes an answer as a line. The id is that of the step, which the answer does not name. The
/// fault is a failed write.
pub fn write_answer<W: Write, A: Allocator>(
    output: &mut W,
    id: u64,
    answer: Answer<u64, A>,
) -> Result<(), Fault>
    ensures fault { IfErr result (λ fault. fault ≡ Write) }
    ensures written { OnOk result (Appends (W.contents output.old) (W.contents output.new)
        (reply_text id (seen_answer answer))) }
{
    match answer {
        Answer::Take(take) => write_take(output, take),
        Answer::Begin(job) => write_job(output, job),
        Answer::Number(number) => write_number(output, number),
        Answer::Admit(admission) => write_admission(output, admission),
        Answer::Fail(failure) => write_failure(output, failure),
        Answer::FailCheck(check) => write_failed_check(output, id, check),
        Answer::PutBack(returned) => write_return(output, id, returned),
        Answer::Reap { released, ordered } => write_reap(output, &released, ordered),
        Answer::TakeError(text) => write_error(output, text),
        Answer::Close(leftover) => write_close(output, leftover),
    }
}

fn unwritten(_: io::Error) -> Fault
    ensures { result ≡ Write }
{
    Fault::Write
}

fn write_take<W: Write>(output: &mut W, answer: Take<u64>) -> Result<(), Fault>
    ensures fault { IfErr result (λ fault. fault ≡ Write) }
    ensures written { OnOk result (Appends (W.contents output.old) (W.contents output.new)
        (take_text (seen_take answer))) }
{
    match answer {
        Take::Found {
            id,
            value,
            ordered,
            ..
        } => writeln!(output, "taken {id} {value} ordered {ordered}").map_err(unwritten),
        Take::Empty { ordered } => writeln!(output, "empty ordered {ordered}").map_err(unwritten),
    }
}

fn write_job<W: Write>(output: &mut W, job: Job) -> Result<(), Fault>
    ensures fault { IfErr result (λ fault. fault ≡ Write) }
    ensures written { OnOk result (Appends (W.contents output.old) (W.contents output.new)
        (task_text (seen_job job))) }
{
    match job {
        Job::Open { tries } => writeln!(output, "open {tries}").map_err(unwritten),
        Job::Reap => writeln!(output, "reap").map_err(unwritten),
        Job::Wait(due) => writeln!(output, "wait {}", Milliseconds(due)).map_err(unwritten),
        Job::Nothing => writeln!(output, "nothing").map_err(unwritten),
        Job::Closed => writeln!(output, "closed").map_err(unwritten),
    }
}

fn write_number<W: Write>(output: &mut W, answer: Result<u64, Refusal>) -> Result<(), Fault>
    ensures fault { IfErr result (λ fault. fault ≡ Write) }
    ensures written { OnOk result (Appends (W.contents output.old) (W.contents output.new)
        (number_text answer)) }
{
    match answer {
        Ok(id) => writeln!(output, "numbered {id}").map_err(unwritten),
        Err(refusal) => write_refusal(output, refusal),
    }
}

fn write_admission<W: Write>(
    output: &mut W,
    answer: Result<(), (Refusal, u64)>,
) -> Result<(), Fault>
    ensures fault { IfErr result (λ fault. fault ≡ Write) }
    ensures written { OnOk result (Appends (W.contents output.old) (W.contents output.new)
        (admission_text answer)) }
{
    match answer {
        Ok(()) => writeln!(output, "admitted").map_err(unwritten),
        Err((refusal, _)) => write_refusal(output, refusal),
    }
}

fn write_failure<W: Write>(output: &mut W, answer: Result<Duration, Refusal>) -> Result<(), Fault>
    ensures fault { IfErr result (λ fault. fault ≡ Write) }
    ensures written { OnOk result (Appends (W.contents output.old) (W.contents output.new)
        (failure_text (map_ok as_nanos answer))) }
{
    match answer {
        Ok(due) => writeln!(output, "retry {}", Milliseconds(due)).map_err(unwritten),
        Err(refusal) => write_refusal(output, refusal),
    }
}

fn write_failed_check<W: Write>(
    output: &mut W,
    id: u64,
    answer: Result<Gone, Refusal>,
) -> Result<(), Fault>
    ensures fault { IfErr result (λ fault. fault ≡ Write) }
    ensures written { OnOk result (Appends (W.contents output.old) (W.contents output.new)
        (check_text id (map_ok seen_gone answer))) }
{
    match answer {
        Ok(Gone { age, ordered }) => write_gone(output, id, age, ordered),
        Err(refusal) => write_refusal(output, refusal),
    }
}

fn write_return<W: Write>(
    output: &mut W,
    id: u64,
    answer: Result<Returned<u64>, (Refusal, u64)>,
) -> Result<(), Fault>
    ensures fault { IfErr result (λ fault. fault ≡ Write) }
    ensures written { OnOk result (Appends (W.contents output.old) (W.contents output.new)
        (return_text id (map_ok seen_returned answer))) }
{
    match answer {
        Ok(Returned::Kept) => writeln!(output, "kept").map_err(unwritten),
        Ok(Returned::Closed { age, ordered, .. }) => write_gone(output, id, age, ordered),
        Err((refusal, _)) => write_refusal(output, refusal),
    }
}

// A connection that was lent is gone.
fn write_gone<W: Write>(output: &mut W, id: u64, age: Duration, ordered: u32) -> Result<(), Fault>
    ensures fault { IfErr result (λ fault. fault ≡ Write) }
    ensures written { OnOk result (Appends (W.contents output.old) (W.contents output.new)
        (gone_text id (as_nanos age) ordered)) }
{
    let age = Milliseconds(age);
    writeln!(output, "gone {id} age {age} ordered {ordered}").map_err(unwritten)
}

fn write_refusal<W: Write>(output: &mut W, refusal: Refusal) -> Result<(), Fault>
    ensures fault { IfErr result (λ fault. fault ≡ Write) }
    ensures written { OnOk result (Appends (W.contents output.old) (W.contents output.new)
        (refusal_text refusal)) }
{
    let word = word(refusal);
    writeln!(output, "refused {word}").map_err(unwritten)
}

fn word(refusal: Refusal) -> &'static str
    ensures { result.now ≡ word_of refusal }
{
    match refusal {
        Refusal::Closed => "Closed",
        Refusal::NotLent => "NotLent",
        Refusal::NoOpening => "NoOpening",
        Refusal::IdsUsedUp => "IdsUsedUp",
        Refusal::NotNumbered => "NotNumbered",
    }
}

fn write_reap<W: Write>(
    output: &mut W,
    released: &[Released<u64>],
    ordered: u32,
) -> Result<(), Fault>
    ensures fault { IfErr result (λ fault. fault ≡ Write) }
    ensures written { OnOk result (Appends (W.contents output.old) (W.contents output.new)
        (reap_text (map seen_released released.now) ordered)) }
{
    write!(output, "reaped").map_err(unwritten)?;
    write_released(output, released)?;
    writeln!(output, " ordered {ordered}").map_err(unwritten)
}

fn write_released<W: Write>(output: &mut W, released: &[Released<u64>]) -> Result<(), Fault>
    ensures fault { IfErr result (λ fault. fault ≡ Write) }
    ensures written { OnOk result (Appends (W.contents output.old) (W.contents output.new)
        (released_text (map seen_released released.now))) }
{
    for connection in released {
        write!(output, " {}", connection.id).map_err(unwritten)?;
    }
    Ok(())
}

fn write_error<W: Write>(output: &mut W, text: Option<String>) -> Result<(), Fault>
    ensures fault { IfErr result (λ fault. fault ≡ Write) }
    ensures written { OnOk result (Appends (W.contents output.old) (W.contents output.new)
        (error_text (option_map string_bytes text))) }
{
    match text {
        Some(text) => writeln!(output, "error {text}").map_err(unwritten),
        None => writeln!(output, "error none").map_err(unwritten),
    }
}

fn write_close<W: Write, A: Allocator>(
    output: &mut W,
    leftover: Leftover<u64, A>,
) -> Result<(), Fault>
    ensures fault { IfErr result (λ fault. fault ≡ Write) }
    ensures written { OnOk result (Appends (W.contents output.old) (W.contents output.new)
        (close_text leftover)) }
{
    write!(output, "closed").map_err(unwritten)?;
    write_left(output, leftover)?;
    writeln!(output).map_err(unwritten)
}

fn write_left<W: Write, A: Allocator>(
    output: &mut W,
    leftover: Leftover<u64, A>,
) -> Result<(), Fault>
    ensures fault { IfErr result (λ fault. fault ≡ Write) }
    ensures written { OnOk result (Appends (W.contents output.old) (W.contents output.new)
        (left_text leftover)) }
{
    for (id, _) in leftover {
        write!(output, " {id}").map_err(unwritten)?;
    }
    Ok(())
}

/// Writes a state as a line: how many are connected, how many of them are idle, and how many
/// openings are pending. The fault is a failed write.
pub fn write_state<W: Write>(
    output: &mut W,
    connections: u32,
    idle: u32,
    pending: u32,
) -> Result<(), Fault>
    ensures fault { IfErr result (λ fault. fault ≡ Write) }
    ensures written { OnOk result (Appends (W.contents output.old) (W.contents output.new)
        (state_text connections idle pending)) }
{
    writeln!(output, "state {connections} {idle} {pending}").map_err(unwritten)
}

// A time in whole milliseconds, with the nanoseconds that remain in six digits, where there are
// any.
#[derive(Clone, Copy)]
struct Milliseconds(Duration);

impl fmt::Display for Milliseconds {
    ghost output = { λ time. Some (milliseconds (as_nanos time.0)) };

    fn fmt<W: fmt::Write>(&self, f: &mut fmt::Formatter<W>) -> fmt::Result {
        let whole = self.0.as_millis();
        let rest = self.0.subsec_nanos() % 1_000_000;
        if rest == 0 {
            write!(f, "{whole}")
        } else {
            write!(f, "{whole}.{rest:06}")
        }
    }
}
