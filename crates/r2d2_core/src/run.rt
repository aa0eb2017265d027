// Steps as data: one step, and a list of them.
ghost use Rattle.std.specs.Prelude.{◌≡◌, ◌≤◌, ℕ, true, map, IfOk, IfErr, OnOk};
ghost use Rattle.std.specs.Duration.{as_nanos};
ghost use Rattle.pool_machine.specs.declared.schedule.limits.LimitSettings.{LimitSettings};
ghost use Rattle.pool_machine.specs.Limits.{seen_limits, wanted_of};
ghost use Rattle.pool_machine.specs.Picture.{IsSound};
ghost use Rattle.r2d2_core.specs.History.{History, Made};
ghost use Rattle.r2d2_core.specs.Answers.{answers_of, after_all, picture_of, HasSums};
ghost use Rattle.pool_machine.specs.Steps.{seen_answer};
ghost use Rattle.r2d2_core.specs.NotedSteps.{book_after};
ghost use Rattle.pool_machine.specs.Table.{first_picture};
ghost use Rattle.r2d2_core.specs.Journal.{first_journal};
ghost use Rattle.r2d2_core.specs.Book.{seen_book, HasFacts};
ghost use Rattle.r2d2_core.specs.Reports.{IsReportOf, IsSoundReport, IsReportAfter};

use crate::journal::{Book, Report};
use pool_machine::answer_by;
use pool_machine::machine::{Core, Limits};
pub use pool_machine::step::{Answer, Step};
use std::alloc::{AllocError, Allocator, Global};
use std::time::Duration;

impl<T, A: Allocator> Book<T, A> {
    ghost use Rattle.pool_machine.specs.Picture.{IsSound};
    ghost use Rattle.pool_machine.specs.Steps.{seen_answer, step_answer, after_step};
    ghost use Rattle.r2d2_core.specs.NotedSteps.{noted_step};
    ghost use Rattle.pool_machine.specs.Steps.{is_reap};
    ghost use Rattle.std.specs.Prelude.{length};
    ghost use Rattle.pool_machine.specs.Seen.{Reaped};
    ghost use Rattle.pool_machine.specs.Table.{reap_closed, reap_orders, after_reap};
    ghost use Rattle.r2d2_core.specs.Noted.{noted_reap};

    /// As `Core::answer`. A step is noted if the call of its kind notes it.
    pub fn answer(&mut self, alloc: Global, step: Step<T>) -> Result<Answer<T, A>, AllocError>
        ensures answer { IfOk result (λ a. seen_answer a ≡ step_answer step self.old.picture) }
        ensures after { OnOk result (self.new.picture ≡ after_step step self.old.picture) }
        ensures noted { OnOk result (self.new.journal ≡ noted_step step self.old) }
        ensures unchanged { IfErr result (λ _. self.new ≡ self.old) }
        ensures only_reaps { IfErr result (λ _. is_reap step ≡ true) }
        ensures sound { IsSound self.new.picture }
    {
        answer_by!(self, alloc, step)
    }

    // The answer to a reap.
    fn answer_reap(&mut self, alloc: Global, now: Duration) -> Result<Answer<T, A>, AllocError>
        ensures answer { IfOk result (λ a. seen_answer a ≡ Reaped
            (reap_closed (as_nanos now) self.old.picture)
            (reap_orders (as_nanos now) self.old.picture)) }
        ensures after { OnOk result
            (self.new.picture ≡ after_reap (as_nanos now) self.old.picture) }
        ensures noted { OnOk result (self.new.journal ≡ noted_reap (as_nanos now)
            (length (reap_closed (as_nanos now) self.old.picture))
            (reap_orders (as_nanos now) self.old.picture) self.old) }
        ensures unchanged { IfErr result (λ _. self.new ≡ self.old) }
        ensures sound { IsSound self.new.picture }
    {
        let room = self.limits().max_size() as usize;
        let mut released = Vec::with_capacity(alloc, room)?;
        let ordered = self.reap(now, &mut released);
        Ok(Answer::Reap { released, ordered })
    }
}

/// Takes each step in turn by `Core::answer`, on a new core, and gives one answer each. The error
/// comes only if memory is refused.
pub fn run<T: Drop>(
    alloc: Global,
    limits: Limits,
    now: Duration,
    steps: Vec<Step<T>>,
) -> Result<(Core<T>, Vec<Answer<T>>), AllocError>
    ensures answers { IfOk result
        (λ r. map seen_answer r.1.items
        ≡ answers_of (Made (seen_limits limits) (as_nanos now) 0) steps.items) }
    ensures picture { IfOk result
        (λ r. r.0 ≡ picture_of (after_all (Made (seen_limits limits)
        (as_nanos now) 0) steps.items)) }
    ensures sound { IfOk result (λ r. IsSound r.0) }
    ensures sums { OnOk result
        (HasSums (after_all (Made (seen_limits limits) (as_nanos now) 0) steps.items)) }
{
    let mut core: Core<T> = Core::new(alloc, limits, now)?;
    let answers = answer_all(alloc, &mut core, steps)?;
    Ok((core, answers))
}

// Takes each step in turn, and gives one answer each.
fn answer_all<T: Drop>(
    alloc: Global,
    core: &mut Core<T>,
    steps: Vec<Step<T>>,
) -> Result<Vec<Answer<T>>, AllocError>
    ensures answers { IfOk result
        (λ answers. (limits : LimitSettings) (now : ℕ) → wanted_of limits ≤ limits.max_size
        → core.old ≡ first_picture limits now 0
        → map seen_answer answers.items ≡ answers_of (Made limits now 0) steps.items) }
    ensures picture { OnOk result
        ((limits : LimitSettings) (now : ℕ) → wanted_of limits ≤ limits.max_size
        → core.old ≡ first_picture limits now 0
        → core.new ≡ picture_of (after_all (Made limits now 0) steps.items)) }
{
    let mut answers = Vec::with_capacity(alloc, steps.len())?;
    for step in steps {
        let answer = core.answer(alloc, step)?;
        answers.push(answer)?;
    }
    Ok(answers)
}

/// As `run`, on a new book made at `now`, which keeps the newest `room` records of what `steps`
/// did: gives what the book reports in the end, and one answer to each step. The error comes only
/// if memory is refused.
pub fn run_and_report<T: Drop>(
    alloc: Global,
    limits: Limits,
    now: Duration,
    room: usize,
    steps: Vec<Step<T>>,
) -> Result<(Report, Vec<Answer<T>>), AllocError>
    ensures answers { IfOk result
        (λ r. map seen_answer r.1.items
        ≡ answers_of (Made (seen_limits limits) (as_nanos now) 0) steps.items) }
    ensures told { IfOk result
        (λ r. IsReportAfter (after_all (Made (seen_limits limits) (as_nanos now) 0) steps.items)
        r.0) }
    ensures sound { IfOk result (λ r. IsSoundReport r.0) }
    ensures given { IfOk result
        (λ r. IsReportOf (book_after steps.items
        (seen_book (first_picture (seen_limits limits) (as_nanos now) 0)
        (first_journal (seen_limits limits) (as_nanos now) room))) r.0) }
{
    let mut book: Book<T> = Book::new(alloc, limits, now, room)?;
    answer_and_report(alloc, &mut book, steps)
}

// As `answer_all`, by a book, which reports in the end.
fn answer_and_report<T: Drop>(
    alloc: Global,
    book: &mut Book<T>,
    steps: Vec<Step<T>>,
) -> Result<(Report, Vec<Answer<T>>), AllocError>
    ensures answers { IfOk result
        (λ r. (limits : LimitSettings) (now : ℕ) → wanted_of limits ≤ limits.max_size
        → book.old.picture ≡ first_picture limits now 0
        → map seen_answer r.1.items ≡ answers_of (Made limits now 0) steps.items) }
    ensures facts { OnOk result (HasFacts (book_after steps.items book.old)) }
    ensures sound { IfOk result (λ r. IsSoundReport r.0) }
    ensures given { IfOk result (λ r. IsReportOf (book_after steps.items book.old) r.0) }
{
    let mut answers = Vec::with_capacity(alloc, steps.len())?;
    for step in steps {
        let answer = book.answer(alloc, step)?;
        answers.push(answer)?;
    }
    let report = book.report()?;
    Ok((report, answers))
}
