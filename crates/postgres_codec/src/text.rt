//! Texts in a message, and numbers in a text.

ghost use Rattle.std.specs.Prelude.{◌≡◌, Option, None, bytes_eq, unwrap_or};
ghost use Rattle.postgres_codec.specs.Messages.{until, field, number_with, number_after};

/// Whether a text is this word.
pub(crate) fn is(text: &[u8], word: &[u8]) -> bool
    ensures { result ≡ bytes_eq text.now word.now }
{
    text == word
}

/// The bytes before the first that is one of these.
pub(crate) fn until(low: u8, high: u8, bytes: &[u8]) -> &[u8]
    ensures { result.now ≡ until low high bytes.now }
{
    for (at, byte) in bytes.iter().enumerate() {
        if *byte >= low && *byte <= high {
            let (front, _) = bytes.split_at(at);
            return front;
        }
    }
    bytes
}

/// The text of the first field with a letter: each has one, its text, and a zero. None is empty.
pub(crate) fn field(letter: u8, bytes: &[u8]) -> &[u8]
    ensures { result.now ≡ field letter bytes.now }
{
    let mut begins = true;
    for (at, byte) in bytes.iter().enumerate() {
        if begins && *byte == letter {
            let (_, rest) = bytes.split_at(at + 1);
            return until(0, 0, rest);
        }
        begins = *byte == 0;
    }
    &[]
}

// The number that a byte more makes: a space begins one, and what is no digit ends it.
#[tactic(auto, unfolding(crate::specs::Messages::number_with))]
fn number_with(number: Option<u64>, byte: u8) -> Option<u64>
    ensures { result ≡ number_with number byte }
{
    match number {
        _ if byte == b' ' => Some(0),
        Some(number) if byte >= b'0' && byte <= b'9' && number < 1_000_000_000_000_000_000 => {
            Some(number * 10 + (byte - b'0') as u64)
        }
        _ => None,
    }
}

/// The number at the end of a text, behind a space; 0 if there is none.
pub(crate) fn last_number(text: &[u8]) -> u64
    ensures { result ≡ unwrap_or (number_after None text.now) 0 }
{
    let mut number = None;
    for byte in text {
        number = number_with(number, *byte);
    }
    number.unwrap_or(0)
}
