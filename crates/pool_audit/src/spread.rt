// Objects of JSON that are written over several lines.

use crate::fault::Fault;
use crate::finding::Braces;
use crate::lines::read_line;
use std::io::BufRead;

// No object takes more lines: a report of 100,000 records takes some 600,000.
const MOST_LINES: u64 = 1_000_000;

/// Whether a line begins an object of which it has the brace alone.
pub(crate) fn is_begun(line: &[u8]) -> bool {
    line.trim_ascii() == b"{".as_slice()
}

/// Reads on to the end of an object that the line begins: how many lines were added to the first
/// one. They end before that where one is no part of JSON.
pub(crate) fn read_on<R: BufRead>(input: &mut R, line: &mut Vec<u8>) -> Result<u64, Fault> {
    let mut braces = Braces::default();
    braces.close_in(line.as_slice());
    let mut added = 0u64;
    for _ in 0..MOST_LINES {
        let from = line.len();
        if read_line(input, line)? == 0 {
            break;
        }
        added = added.saturating_add(1);
        let part = line.get(from..).unwrap_or_default();
        if braces.close_in(part).is_some() || !is_part(part) {
            break;
        }
    }
    Ok(added)
}

/// Whether a text begins with an object whose first line has no end of it, as a line that breaks
/// off in the middle of something has.
pub(crate) fn is_open(text: &[u8]) -> bool {
    let text = text.trim_ascii();
    let is_spread = text.contains(&b'\n') || matches!(text.last(), Some(b'{' | b'[' | b','));
    text.first() == Some(&b'{') && is_spread && Braces::default().close_in(text).is_none()
}

/// Whether the line is one of a report over several lines, one that each such report has once.
pub(crate) fn is_of_a_report(line: &str) -> bool {
    let Some(rest) = line.trim_ascii().strip_prefix("\"limits\"") else {
        return false;
    };
    let rest = rest.trim_ascii_start().strip_prefix(':');
    matches!(rest.map(|rest| rest.trim_ascii()), Some("" | "{"))
}

// Whether a line may be one of JSON that is written over several.
fn is_part(line: &[u8]) -> bool {
    let line = line.trim_ascii();
    match line.first() {
        None | Some(b'"' | b'{' | b'}' | b'[' | b']') => true,
        Some(_) => line.iter().all(|byte| byte.is_ascii_alphanumeric() || b"+-.,".contains(byte)),
    }
}
