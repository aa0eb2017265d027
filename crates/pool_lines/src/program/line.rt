// The lines of the input.
ghost use Rattle.std.specs.Prelude.{◌≡◌, ◌*◌, ◌↔◌, ◌⊎◌, None, Some, IsSome, IfSome, IfOk, IfErr};
ghost use Rattle.std.specs.Prelude.{option_map, option_copied, string_bytes};
ghost use Rattle.std.specs.Duration.{as_nanos};
ghost use Rattle.pool_machine.specs.declared.schedule.limits.LimitSettings.{LimitSettings as Bounds};
ghost use Rattle.pool_machine.specs.Limits.{seen_limits, AreLegal};
ghost use Rattle.pool_lines.specs.declared.program.Fault.TheVariants.{NotAStep, LimitsRefused};
ghost use Rattle.pool_lines.specs.Number.{IsNumber, number_of};
ghost use Rattle.pool_lines.specs.Lines.{number_in, time_in, optional_in, text_in, connection_in};
ghost use Rattle.pool_lines.specs.Lines.{failure_in};
ghost use Rattle.pool_lines.specs.Lines.{lengths_in, order_in, last_in, fields_in, sizes_in};
ghost use Rattle.pool_lines.specs.Lines.{sizes_of, limits_in};
ghost use Rattle.pool_lines.specs.Lines.{seen_line, said_alone, said_with, said_of_connection};
ghost use Rattle.pool_lines.specs.Lines.{said_of_outcome, said_in, step_in};
ghost use Rattle.pool_lines.specs.Lines.{failed_opening_in, failed_check_in, Take, Begin, Number};
ghost use Rattle.pool_lines.specs.Lines.{Admit, PutBack, Reap};
ghost use Rattle.pool_lines.specs.Lines as spec;

use super::Fault;
use r2d2_core::{LendingOrder, LimitSettings, Limits, Step};
use std::alloc::{AllocError, Global};
use std::str;
use std::time::Duration;

/// The limits that the first line says. A line of another form is not a step.
pub fn limits(line: &[u8]) -> Result<Limits, Fault>
    ensures fault { IfErr result (λ fault. (fault ≡ NotAStep 1) ⊎ (fault ≡ LimitsRefused)) }
    ensures given { IfOk result
        (λ limits. limits_in line.now ≡ Some (sizes_of (seen_limits limits))) }
    ensures legal { IfOk result (λ limits. AreLegal (seen_limits limits)) }
    ensures no_limits { IfErr result (λ fault. fault ≡ NotAStep 1 → limits_in line.now ≡ None) }
    ensures refused { IfErr result (λ fault. fault ≡ LimitsRefused
        → (s : Bounds) × (limits_in line.now ≡ Some (sizes_of s)) × ¬ (AreLegal s)) }
{
    let said = read_limits(line).ok_or(Fault::NotAStep(1))?;
    said.limits().ok_or(Fault::LimitsRefused)
}

// What the first line says, legal or not.
#[tactic(auto, unfolding(crate::specs::Lines::limits_in))]
fn read_limits(line: &[u8]) -> Option<LimitSettings>
    ensures { option_map sizes_of result ≡ limits_in line.now }
{
    limits_of_text(text(line)?)
}

#[tactic(auto, unfolding(crate::specs::Lines::sizes_in))]
fn limits_of_text(line: &str) -> Option<LimitSettings>
    ensures { option_map sizes_of result ≡ sizes_in line.now }
{
    let (word, fields) = cut(line)?;
    if word != "limits" {
        return None;
    }
    limits_of_fields(fields)
}

#[tactic(auto, unfolding(crate::specs::Lines::fields_in))]
fn limits_of_fields(fields: &str) -> Option<LimitSettings>
    ensures { option_map sizes_of result ≡ fields_in fields.now }
{
    let (max_size, fields) = cut(fields)?;
    let (min_idle, fields) = cut(fields)?;
    let max_size = small_number(max_size)?;
    let min_idle = optional_number(min_idle)?;
    let (max_lifetime, idle_timeout, connection_timeout, fields) = lengths(fields)?;
    let (reap_every, order) = reaps_and_order(fields)?;
    Some(LimitSettings {
        max_size,
        min_idle,
        max_lifetime,
        idle_timeout,
        connection_timeout,
        reap_every,
        order,
    })
}

/// What a line after the first says: a step of the pool, or a look at its state.
#[derive(Drop)]
pub enum Line {
    /// A step of the pool.
    Step(Step<u64>),
    /// A look at its state.
    State,
}

impl Line {
    /// What the line says; none if it is not a step. The text of a failure takes memory, and the
    /// error comes only if that is refused.
    #[tactic(auto, unfolding(crate::specs::Lines::step_in))]
    pub fn read(alloc: Global, line: &[u8]) -> Result<Option<Line>, AllocError>
        ensures { IfOk result (λ said. option_map seen_line said ≡ step_in line.now) }
    {
        match text(line) {
            Some(text) => Line::parse(alloc, text),
            None => Ok(None),
        }
    }

    #[tactic(auto, unfolding(crate::specs::Lines::said_in))]
    fn parse(alloc: Global, line: &str) -> Result<Option<Line>, AllocError>
        ensures { IfOk result (λ said. option_map seen_line said ≡ said_in line.now) }
    {
        match cut(line) {
            Some((word, fields)) => Line::with_fields(alloc, word, fields),
            None => Ok(Line::of_word(line)),
        }
    }

    fn of_word(word: &str) -> Option<Line>
        ensures { option_map seen_line result ≡ said_alone word.now }
    {
        match word {
            "error" => Some(Line::Step(Step::TakeError)),
            "close" => Some(Line::Step(Step::Close)),
            "state" => Some(Line::State),
            _ => None,
        }
    }

    #[tactic(auto, unfolding(crate::specs::Lines::said_with))]
    fn with_fields(alloc: Global, word: &str, fields: &str) -> Result<Option<Line>, AllocError>
        ensures { IfOk result (λ said. option_map seen_line said ≡ said_with word.now fields.now) }
    {
        match word {
            "take" => Ok(Line::take(fields, false)),
            "want" => Ok(Line::take(fields, true)),
            "begin" => Ok(Line::begin(fields)),
            "reap" => Ok(Line::reap(fields)),
            _ => Line::of_connection(alloc, word, fields),
        }
    }

    #[tactic(auto, unfolding(crate::specs::Lines::said_of_connection))]
    fn of_connection(alloc: Global, word: &str, fields: &str) -> Result<Option<Line>, AllocError>
        ensures { IfOk result
            (λ said. option_map seen_line said ≡ said_of_connection word.now fields.now) }
    {
        match word {
            "admit" => Ok(Line::admit(fields)),
            "return" => Ok(Line::put_back(fields, false)),
            "broken" => Ok(Line::put_back(fields, true)),
            _ => Line::of_failure(alloc, word, fields),
        }
    }

    #[tactic(auto, unfolding(crate::specs::Lines::said_of_outcome))]
    fn of_failure(alloc: Global, word: &str, fields: &str) -> Result<Option<Line>, AllocError>
        ensures { IfOk result
            (λ said. option_map seen_line said ≡ said_of_outcome word.now fields.now) }
    {
        match word {
            "number" => Ok(Line::number(fields)),
            "fail" => Line::fail(alloc, fields),
            "bad" => Line::fail_check(alloc, fields),
            _ => Ok(None),
        }
    }

    fn take(fields: &str, or_order: bool) -> Option<Line>
        ensures { option_map seen_line result
            ≡ option_map (λ now. Take now or_order) (time_in fields.now) }
    {
        let now = time(fields)?;
        Some(Line::Step(Step::Take { now, or_order }))
    }

    fn begin(fields: &str) -> Option<Line>
        ensures { option_map seen_line result ≡ option_map (λ now. Begin now) (time_in fields.now) }
    {
        let now = time(fields)?;
        Some(Line::Step(Step::Begin { now }))
    }

    fn reap(fields: &str) -> Option<Line>
        ensures { option_map seen_line result ≡ option_map (λ now. Reap now) (time_in fields.now) }
    {
        let now = time(fields)?;
        Some(Line::Step(Step::Reap { now }))
    }

    fn number(fields: &str) -> Option<Line>
        ensures { option_map seen_line result
            ≡ option_map (λ tries. Number tries) (number_in 32 fields.now) }
    {
        let tries = small_number(fields)?;
        Some(Line::Step(Step::Number { tries }))
    }

    fn admit(fields: &str) -> Option<Line>
        ensures { option_map seen_line result
            ≡ option_map (λ c. Admit c.0 c.1 c.2) (connection_in fields.now) }
    {
        let (now, id, value) = connection(fields)?;
        Some(Line::Step(Step::Admit { now, id, value }))
    }

    fn put_back(fields: &str, broken: bool) -> Option<Line>
        ensures { option_map seen_line result
            ≡ option_map (λ c. PutBack c.0 c.1 c.2 broken) (connection_in fields.now) }
    {
        let (now, id, value) = connection(fields)?;
        Some(Line::Step(Step::PutBack {
            now,
            id,
            value,
            broken,
        }))
    }

    fn fail(alloc: Global, fields: &str) -> Result<Option<Line>, AllocError>
        ensures { IfOk result (λ said. option_map seen_line said ≡ failed_opening_in fields.now) }
    {
        let Some((now, tries, text)) = failure(fields) else {
            return Ok(None);
        };
        let Some(tries) = small_number(tries) else {
            return Ok(None);
        };
        let text = copied(alloc, text)?;
        Ok(Some(Line::Step(Step::Fail { now, tries, text })))
    }

    fn fail_check(alloc: Global, fields: &str) -> Result<Option<Line>, AllocError>
        ensures { IfOk result (λ said. option_map seen_line said ≡ failed_check_in fields.now) }
    {
        let Some((now, id, text)) = failure(fields) else {
            return Ok(None);
        };
        let Some(id) = number(id) else {
            return Ok(None);
        };
        let text = copied(alloc, text)?;
        Ok(Some(Line::Step(Step::FailCheck { now, id, text })))
    }
}

// A copy of the text of a line, for the core to keep.
fn copied(alloc: Global, text: Option<&str>) -> Result<Option<String>, AllocError>
    ensures { IfOk result (λ copy. option_map string_bytes copy ≡ option_copied text.entry) }
{
    match text {
        Some(text) => Ok(Some(String::from_str(alloc, text)?)),
        None => Ok(None),
    }
}

// A line is a text.
#[tactic(auto, using(crate::proofs::Fields::is_text, crate::proofs::Fields::is_no_text))]
fn text(line: &[u8]) -> Option<&str>
    ensures { option_copied result ≡ text_in line.now }
{
    str::from_utf8(line).ok()
}

// What stands before the first space, and what stands after it.
#[tactic(auto, unfolding(crate::specs::Lines::cut))]
fn cut(text: &str) -> Option<(&str, &str)>
    ensures { option_map (λ parts. (parts.0.now, parts.1.now)) result ≡ spec.cut text.now }
{
    text.split_once(' ')
}

// A moment, an id and what the id is to hold.
#[tactic(auto, unfolding(crate::specs::Lines::connection_in))]
fn connection(fields: &str) -> Option<(Duration, u64, u64)>
    ensures { option_map (λ c. (as_nanos c.0, c.1, c.2)) result ≡ connection_in fields.now }
{
    let (now, fields) = cut(fields)?;
    let (id, value) = cut(fields)?;
    Some((time(now)?, number(id)?, number(value)?))
}

// A moment, what failed then, and the text that follows, if there is one.
#[tactic(auto, unfolding(crate::specs::Lines::failure_in, crate::specs::Lines::cut), using(crate::proofs::Fields::before_none))]
fn failure(fields: &str) -> Option<(Duration, &str, Option<&str>)>
    ensures { option_map (λ f. (as_nanos f.0, f.1.now, option_copied f.2)) result
        ≡ failure_in fields.now }
{
    let (now, fields) = cut(fields)?;
    let now = time(now)?;
    match cut(fields) {
        Some((what, text)) => Some((now, what, Some(text))),
        None => Some((now, fields, None)),
    }
}

// Three lengths of time, of which the first two may be left out, and what stands after them.
#[tactic(auto, unfolding(crate::specs::Lines::lengths_in))]
fn lengths(fields: &str) -> Option<(Option<Duration>, Option<Duration>, Duration, &str)>
    ensures { option_map
        (λ l. (option_map as_nanos l.0, option_map as_nanos l.1, as_nanos l.2, l.3.now)) result
        ≡ lengths_in fields.now }
{
    let (max_lifetime, fields) = cut(fields)?;
    let (idle_timeout, fields) = cut(fields)?;
    let (connection_timeout, fields) = cut(fields)?;
    let max_lifetime = optional_time(max_lifetime)?;
    let idle_timeout = optional_time(idle_timeout)?;
    let connection_timeout = time(connection_timeout)?;
    Some((max_lifetime, idle_timeout, connection_timeout, fields))
}

// The time between reaps, and the lending order, which may be left out.
#[tactic(auto, unfolding(crate::specs::Lines::last_in))]
fn reaps_and_order(fields: &str) -> Option<(Duration, LendingOrder)>
    ensures { option_map (λ l. (as_nanos l.0, l.1)) result ≡ last_in fields.now }
{
    match cut(fields) {
        Some((reap_every, order)) => {
            let reap_every = time(reap_every)?;
            let order = lending_order(order)?;
            Some((reap_every, order))
        }
        None => {
            let reap_every = time(fields)?;
            Some((reap_every, LendingOrder::NewestFirst))
        }
    }
}

fn lending_order(word: &str) -> Option<LendingOrder>
    ensures { result ≡ order_in word.now }
{
    match word {
        "newest" => Some(LendingOrder::NewestFirst),
        "oldest" => Some(LendingOrder::OldestFirst),
        _ => None,
    }
}

// A field that may be left out by `-`.
#[tactic(auto, unfolding(crate::specs::Lines::optional_in))]
fn optional_number(field: &str) -> Option<Option<u32>>
    ensures { result ≡ optional_in (number_in 32) field.now }
{
    if field == "-" {
        return Some(None);
    }
    Some(Some(small_number(field)?))
}

#[tactic(auto, unfolding(crate::specs::Lines::optional_in))]
fn optional_time(field: &str) -> Option<Option<Duration>>
    ensures { option_map (option_map as_nanos) result ≡ optional_in time_in field.now }
{
    if field == "-" {
        return Some(None);
    }
    Some(Some(time(field)?))
}

// A time in whole milliseconds.
#[tactic(auto, unfolding(crate::specs::Lines::time_in))]
fn time(field: &str) -> Option<Duration>
    ensures some { IsSome result ↔ IsNumber 64 field.now }
    ensures value { IfSome result (λ t. as_nanos t ≡ 1_000_000 * number_of field.now) }
    ensures exact { option_map as_nanos result ≡ time_in field.now }
{
    Some(Duration::from_millis(number(field)?))
}

fn small_number(field: &str) -> Option<u32>
    ensures some { IsSome result ↔ IsNumber 32 field.now }
    ensures value { IfSome result (λ n. n ≡ number_of field.now) }
    ensures exact { result ≡ number_in 32 field.now }
{
    u32::try_from(number(field)?).ok()
}

// The number that a field of digits says.
fn number(field: &str) -> Option<u64>
    ensures some { IsSome result ↔ IsNumber 64 field.now }
    ensures value { IfSome result (λ n. n ≡ number_of field.now) }
    ensures exact { result ≡ number_in 64 field.now }
{
    match field.as_bytes() {
        // std takes a sign too.
        [b'+', ..] => None,
        _ => field.parse().ok(),
    }
}
