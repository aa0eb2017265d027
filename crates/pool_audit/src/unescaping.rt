// Strings of JSON in the lines of a log, in which a service's own line stands.

use std::alloc::{AllocError, Global};

/// A line whose strings of JSON are written out: what follows a backslash is what it stands for.
/// White space that is escaped is a blank.
pub(crate) fn unescaped(alloc: Global, line: &str) -> Result<String, AllocError> {
    let mut plain = String::with_capacity(alloc, line.len())?;
    let mut rest = line;
    for _ in 0..line.len() {
        let Some((before, escape)) = rest.split_once('\\') else {
            break;
        };
        plain.push_str(before)?;
        let (sign, after) = written_out(escape);
        plain.push(sign)?;
        rest = after;
    }
    plain.push_str(rest)?;
    Ok(plain)
}

// The sign that an escape stands for, whose backslash was read, and what follows it.
fn written_out(escape: &str) -> (char, &str) {
    let mut signs = escape.chars();
    let sign = match signs.next() {
        Some('u') => return by_number(signs.as_str()),
        Some(sign) if matches!(sign, '"' | '\\' | '/') => sign,
        _ => ' ',
    };
    (sign, signs.as_str())
}

// The same of the four digits of a sign's number.
fn by_number(text: &str) -> (char, &str) {
    let code = text
        .get(..4)
        .and_then(|digits| u32::from_str_radix(digits, 16).ok());
    match (code, text.get(4..)) {
        (Some(code), Some(after)) => (char::from_u32(code).unwrap_or('?'), after),
        _ => ('?', text),
    }
}
