// What is written of a report.

use crate::asked::Form;
use crate::concerns::Told;
use crate::moments::Time;
use jiff::Timestamp;
use pool_reports::{State, Summary, Verdict, Written};
use serde::Serialize;
use std::alloc::{AllocError, Global};

/// A report on a line, and what was found.
#[derive(Drop)]
pub(crate) struct Judged {
    pub(crate) line: u64,
    pub(crate) written: Written,
    pub(crate) verdict: Verdict,
    /// What it says of the time that it covers. One that does not replay says nothing.
    pub(crate) summary: Option<Summary>,
}

impl Judged {
    /// Whether all is well, if the report is sound.
    pub(crate) fn state(&self) -> Option<State> {
        match (self.verdict, &self.summary) {
            (Verdict::Sound, Some(summary)) => Some(summary.state()),
            _ => None,
        }
    }

    /// What is written of it, in the form that is asked for.
    pub(crate) fn text(&self, alloc: Global, form: Form) -> Result<String, AllocError> {
        match form {
            Form::Words => self.in_words(alloc),
            Form::Json | Form::Html => self.in_json(alloc),
        }
    }

    fn time(&self) -> Option<Time<'_>> {
        Some(Time {
            origin: self.written.origin(),
            summary: self.summary.as_ref()?,
        })
    }

    // What an audit found, and below it what somebody has to look at, and the answers, in words.
    fn in_words(&self, alloc: Global) -> Result<String, AllocError> {
        let (line, verdict) = (self.line, self.verdict);
        let mut words = match &self.written.name {
            Some(name) => format!(in alloc; "line {line}, pool {name:?}: {verdict}\n")?,
            None => format!(in alloc; "line {line}: {verdict}\n")?,
        };
        if let Some(time) = self.time() {
            time.add_concerns(alloc, &mut words)?;
            time.add_answers(&mut words)?;
        }
        Ok(words)
    }

    // The same as an object of JSON.
    fn in_json(&self, alloc: Global) -> Result<String, AllocError> {
        let (mut concerns, mut answers) = (None, String::new(alloc));
        if let Some(time) = self.time() {
            concerns = Some(time.concerns(alloc)?);
            time.add_answers(&mut answers)?;
        }
        let answers = lines_of(alloc, answers.as_str())?;
        let written = &self.written;
        let (record, why) = self.record_and_why(alloc)?;
        let object = JsonLine {
            line: self.line,
            pool: written.name.as_deref(),
            sound: self.verdict == Verdict::Sound,
            state: self.state_name(),
            record,
            why,
            concerns,
            answers,
            created_at: self.created_at(alloc)?,
            waiting: written.status.map(|status| status.waiting),
            takes: written.report.takes,
            lost: written.report.lost,
            summary: self.summary.as_ref(),
        };
        json_of(alloc, &object)
    }

    fn state_name(&self) -> &'static str {
        match self.state() {
            None => "unsound",
            Some(State::Well) => "well",
            Some(State::Concerned) => "concerned",
            Some(State::Unknown) => "unknown",
        }
    }

    // The number of the record that is wrong, where one is, and why the report is not sound.
    fn record_and_why(&self, alloc: Global) -> Result<(Option<usize>, Option<String>), AllocError> {
        match self.verdict {
            Verdict::Sound => Ok((None, None)),
            Verdict::Record { place, reason } => Ok((Some(place), Some(reason.to_string(alloc)?))),
            verdict => Ok((None, Some(verdict.to_string(alloc)?))),
        }
    }

    // What the wall clock showed when the pool was made.
    fn created_at(&self, alloc: Global) -> Result<Option<String>, AllocError> {
        let created_at = self.written.created_at;
        match created_at.and_then(|at| Timestamp::try_from(at).ok()) {
            Some(clock) => Ok(Some(clock.to_string(alloc)?)),
            None => Ok(None),
        }
    }
}

// The lines of a text, without what they are indented by.
fn lines_of(alloc: Global, text: &str) -> Result<Vec<&str>, AllocError> {
    text.lines().map(|line| line.trim_start()).collect(alloc)
}

/// An object as a line of JSON.
pub(crate) fn json_of<T: Serialize>(alloc: Global, object: &T) -> Result<String, AllocError> {
    // Nothing else fails: each part has a text.
    let mut text = serde_json::to_string(alloc, object).map_err(|_| AllocError)?;
    text.push('\n')?;
    Ok(text)
}

#[derive(Drop, Serialize)]
struct JsonLine<'a> {
    line: u64,
    #[serde(skip_serializing_if = "Option::is_none")]
    pool: Option<&'a str>,
    sound: bool,
    state: &'static str,
    #[serde(skip_serializing_if = "Option::is_none")]
    record: Option<usize>,
    #[serde(skip_serializing_if = "Option::is_none")]
    why: Option<String>,
    #[serde(skip_serializing_if = "Option::is_none")]
    concerns: Option<Vec<Told>>,
    answers: Vec<&'a str>,
    #[serde(skip_serializing_if = "Option::is_none")]
    created_at: Option<String>,
    #[serde(skip_serializing_if = "Option::is_none")]
    waiting: Option<u64>,
    takes: u64,
    lost: u64,
    #[serde(skip_serializing_if = "Option::is_none")]
    summary: Option<&'a Summary>,
}
