// The errors that were heard of: how many came, and what the latest one said.
ghost use Rattle.std.specs.Prelude.{◌≡◌, ◌+◌, ◌-◌, ◌<◌, ◌≤◌, ◌^◌, ◌↔◌, max, min, length};
ghost use Rattle.std.specs.Prelude.{Some, IsSome, IfSome, IfOk, string_bytes};

use std::alloc::{AllocError, Global};
use std::fmt;
use std::time::{Duration, SystemTime};

/// How many bytes of a text are kept.
const LONGEST: usize = 1000;

/// The latest error of the manager or of the customizer.
#[derive(Debug, Drop)]
pub struct LatestError {
    /// What it said: the first 1,000 bytes, or fewer so that no character is cut. None if memory
    /// for them was refused as it came, or its `Display` failed: the text of an earlier error is
    /// never given in its place.
    pub text: Option<String>,
    /// When it came, since the metrics were made.
    pub at: Duration,
    /// The same by the wall clock as it was then; None if that could not be read.
    pub time: Option<SystemTime>,
}

/// When an error came, by both clocks.
#[derive(Clone, Copy, Debug)]
pub(crate) struct Moment {
    /// Since the metrics were made.
    pub(crate) nanos: u64,
    pub(crate) time: Option<SystemTime>,
}

/// The beginning of what an error said.
#[derive(Drop)]
pub(crate) struct Beginning {
    text: String,
    ghost short: { length (string_bytes text) ≤ 1000 },
}

impl Beginning {
    ghost use Rattle.pool_metrics.specs.Heard.{IsBeginning, IsShort};

    /// Of this error; None if memory is refused, or its `Display` fails.
    pub(crate) fn of<E: fmt::Display>(alloc: Global, error: &E) -> Option<Beginning>
        ensures { IfSome result (λ kept. IfSome (E.output error.now)
            (λ whole. IsBeginning whole (string_bytes kept.text))) }
    {
        let whole = error.to_string(alloc).ok()?;
        let text = String::from_str(alloc, Beginning::cut(whole.as_str())).ok()?;
        Some(Beginning { text })
    }

    // As much of a text as is kept.
    fn cut(text: &str) -> &str
        ensures { IsBeginning text.now result.now }
    {
        &text[..text.floor_char_boundary(LONGEST)]
    }

    // The same, for a caller. The error is lack of memory.
    fn copied(&self, alloc: Global) -> Result<String, AllocError>
        ensures same { IfOk result (λ text. string_bytes text ≡ string_bytes self.now.text) }
        ensures short { IfOk result IsShort }
    {
        String::from_str(alloc, self.text.as_str())
    }
}

/// What is kept of an error.
#[derive(Drop)]
pub(crate) struct Latest {
    moment: Moment,
    text: Option<Beginning>,
}

impl Latest {
    ghost use Rattle.pool_metrics.specs.Heard.{IsShort, IsToldOf};

    // The same, for a caller. The error is lack of memory.
    fn told(&self, alloc: Global) -> Result<LatestError, AllocError>
        ensures all { IfOk result (λ told. IsToldOf self.now told) }
        ensures short { IfOk result (λ told. IfSome told.text IsShort) }
    {
        let text = match &self.text {
            Some(text) => Some(text.copied(alloc)?),
            None => None,
        };
        Ok(LatestError {
            text,
            at: Duration::from_nanos(self.moment.nanos),
            time: self.moment.time,
        })
    }
}

/// How many errors came, and when the latest one did.
#[derive(Clone, Copy)]
pub(crate) struct Tally {
    pub(crate) count: u64,
    pub(crate) latest: Option<Moment>,
    ghost latest_of_some: { IsSome latest ↔ (0 < count) },
}

/// All errors: a count, and the latest of them.
#[derive(Drop)]
pub(crate) struct Heard {
    count: u64,
    latest: Option<Latest>,
    ghost latest_of_some: { IsSome latest ↔ (0 < count) },
}

impl Heard {
    ghost use Rattle.pool_metrics.specs.Heard.{IsShort, IsToldOf, moment_of};

    /// None came so far.
    pub(crate) fn new() -> Heard
        ensures count { result.count ≡ 0 }
    {
        Heard {
            count: 0,
            latest: None,
        }
    }

    /// One came now, and said this; None if its text is not known. What was kept of the one
    /// before it is the caller's to drop.
    pub(crate) fn add(&mut self, text: Option<Beginning>, now: Moment) -> Option<Latest>
        ensures count { self.new.count ≡ min (self.old.count + 1) (2 ^ 64 - 1) }
        ensures latest { let nanos = max (moment_of self.old.latest) now.nanos in
            let moment = record now { nanos = nanos } in
            self.new.latest ≡ Some (record { moment = moment; text = text }) }
        ensures before { result ≡ self.old.latest }
    {
        let nanos = now.nanos.max(self.moment().map_or(0, |it| it.nanos));
        let moment = Moment { nanos, ..now };
        self.count = self.count.saturating_add(1);
        self.latest.replace(Latest { moment, text })
    }

    // When the latest one came.
    fn moment(&self) -> Option<Moment>
        ensures variant { IsSome result ↔ IsSome self.now.latest }
        ensures value { IfSome result
            (λ it. IfSome self.now.latest (λ latest. it ≡ latest.moment)) }
    {
        self.latest.as_ref().map(|it| it.moment)
    }

    /// How many came, and when the latest one did.
    pub(crate) fn tally(&self) -> Tally
        ensures count { result.count ≡ self.now.count }
        ensures latest { IfSome result.latest
            (λ it. IfSome self.now.latest (λ latest. it ≡ latest.moment)) }
    {
        Tally {
            count: self.count,
            latest: self.moment(),
        }
    }

    /// The latest one; None before the first. The error is lack of memory.
    pub(crate) fn told(&self, alloc: Global) -> Result<Option<LatestError>, AllocError>
        ensures variant { IfOk result (λ told. IsSome told ↔ (0 < self.now.count)) }
        ensures value { IfOk result (λ told. IfSome told
            (λ it. IfSome self.now.latest (λ latest. IsToldOf latest it))) }
        ensures short { IfOk result (λ told. IfSome told (λ it. IfSome it.text IsShort)) }
    {
        match &self.latest {
            Some(latest) => Ok(Some(latest.told(alloc)?)),
            None => Ok(None),
        }
    }
}
