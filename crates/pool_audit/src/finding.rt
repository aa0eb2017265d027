// Reports in the lines of a log.

use memchr::memmem;
use pool_reports::{FromJsonError, Written, from_json_of_pool};
use std::alloc::{AllocError, Global};
use thiserror::Error;

// Each byte of a line may be passed so often in the search for the ends of objects; then the rest
// of the line is passed over. So deep may a report stand in others, and so many objects may never
// close.
const MOST_PASSES: usize = 64;

/// What stands in a line: a report, or what reads like one, and is none.
pub(crate) type Found = Result<Written, Damage>;

/// What is wrong with what reads like a report.
#[derive(Debug, Drop, Error)]
pub(crate) enum Damage {
    #[error("{0}")]
    Unreadable(FromJsonError),
    /// A part of it is missing, or the search was given up before it.
    #[error("a part of it is missing, or it stands in too many others")]
    CutOff,
    /// It goes on in the next line, and text stands before it.
    #[error("a report over several lines behind other text: write it on one line")]
    Spread,
}

/// Whether a line may hold a report or a part of one, so that it is worth the search.
pub(crate) fn may_hold_one(line: &[u8]) -> bool {
    memmem::find(line, b"records").is_some() || memmem::find(line, b"limits").is_some()
}

/// The reports in a line: objects of JSON that are one, whatever stands before them or around them.
#[derive(Drop)]
pub(crate) struct Reports<'t> {
    line: &'t str,
    // Where the rest of the line begins.
    from: usize,
    // Where the rest of the line begins of which nothing was said.
    told: usize,
    // How many bytes may still be passed.
    left: usize,
    // What is wrong with an object that reads like a report, and where that ends: as long as no
    // report was found within it.
    damaged: Option<(usize, FromJsonError)>,
}

impl<'t> Reports<'t> {
    pub(crate) fn of(line: &'t str) -> Reports<'t> {
        Reports {
            line,
            from: 0,
            told: 0,
            left: line.len().saturating_mul(MOST_PASSES),
            damaged: None,
        }
    }

    /// The next one. None if there is no further one.
    pub(crate) fn next(&mut self, alloc: Global) -> Result<Option<Found>, AllocError> {
        for _ in 0..self.line.len() {
            let object = self.next_object();
            let begin = object.map_or(self.line.len(), |found| found.0);
            if let Some(why) = self.damage_before(begin) {
                return Ok(Some(Err(Damage::Unreadable(why))));
            }
            let Some((begin, text)) = object else {
                return Ok(self.cut_off().map(Err));
            };
            match from_json_of_pool(alloc, text) {
                Ok(written) => {
                    self.damaged = None;
                    self.told = self.from;
                    return Ok(Some(Ok(written)));
                }
                Err(FromJsonError::Memory) => return Err(AllocError),
                Err(why) => self.look_within(begin, text, why),
            }
        }
        Ok(None)
    }

    // An object that was just passed is no report: it may hold one. If it reads like one, what is
    // wrong with it is noted. What is wrong with an inner one says more.
    fn look_within(&mut self, begin: usize, text: &str, why: FromJsonError) {
        if text.contains("\"limits\"") {
            let end = self.damaged.as_ref().map_or(0, |damaged| damaged.0);
            self.damaged = Some((end.max(self.from), why));
        }
        self.from = begin.saturating_add(1);
    }

    // What is wrong with the object that ended before a place, which is then looked at anew.
    fn damage_before(&mut self, place: usize) -> Option<FromJsonError> {
        let (end, why) = self.damaged.take_if(|damaged| damaged.0 <= place)?;
        self.told = end;
        self.from = place;
        Some(why)
    }

    // Whether the rest of the line has parts of a report, which is reported once.
    fn cut_off(&mut self) -> Option<Damage> {
        let rest = self.line.get(self.told..)?;
        self.told = self.line.len();
        let is_head = rest.contains("\"limits\"") && rest.contains("\"max_size\"");
        let is_tail = rest.contains("\"records\"") && rest.contains("\"takes\"");
        (is_head || is_tail).then_some(Damage::CutOff)
    }

    // The next object with records, and where it begins. The rest of the line is what follows it.
    fn next_object(&mut self) -> Option<(usize, &'t str)> {
        for _ in 0..self.line.len() {
            let begin = next_brace(self.line, self.from)?;
            let rest = self.line.get(begin..)?;
            let object = closed_object(rest);
            self.left = self.left.checked_sub(object.unwrap_or(rest).len())?;
            let Some(text) = object else {
                self.from = begin.saturating_add(1);
                continue;
            };
            self.from = begin.saturating_add(text.len());
            if text.contains("\"records\"") {
                return Some((begin, text));
            }
        }
        None
    }
}

// Where the next object begins: at a brace with a field behind it.
fn next_brace(line: &str, from: usize) -> Option<usize> {
    let mut brace = None;
    for (place, byte) in line.get(from..)?.bytes().enumerate() {
        match byte {
            b'{' => brace = Some(from.saturating_add(place)),
            b'"' if brace.is_some() => return brace,
            b' ' | b'\t' | b'\r' | b'\n' => {}
            _ => brace = None,
        }
    }
    None
}

// The object that a text begins with, if it closes.
fn closed_object(text: &str) -> Option<&str> {
    let end = Braces::default().close_in(text.as_bytes())?;
    text.get(..end)
}

/// How many objects are open in a text, as it is passed. Braces in strings do not count.
#[derive(Clone, Copy, Default)]
pub(crate) struct Braces {
    open: usize,
    is_in_string: bool,
    // Behind a backslash in a string.
    is_escaped: bool,
}

impl Braces {
    /// Where the first object ends in the next bytes, which are passed up to there.
    pub(crate) fn close_in(&mut self, bytes: &[u8]) -> Option<usize> {
        for (place, byte) in bytes.iter().enumerate() {
            if self.close_at(*byte) {
                return Some(place.saturating_add(1));
            }
        }
        None
    }

    // Whether the first object closes with the next byte, which is passed.
    #[inline(always)]
    fn close_at(&mut self, byte: u8) -> bool {
        if self.is_escaped {
            self.is_escaped = false;
            return false;
        }
        match byte {
            b'"' => self.is_in_string = !self.is_in_string,
            b'\\' => self.is_escaped = self.is_in_string,
            b'{' if !self.is_in_string => self.open = self.open.saturating_add(1),
            b'}' if !self.is_in_string => {
                let closes = self.open == 1;
                self.open = self.open.saturating_sub(1);
                return closes;
            }
            _ => {}
        }
        false
    }
}
