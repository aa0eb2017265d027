//! What is sent.

ghost use Rattle.std.specs.Prelude.{◌≡◌, ◌++◌, IfOk, OnOk, length};
ghost use Rattle.redis_codec.specs.Requests.{head, word, all_words, request, bytes_of, IsAlone};

use itoa::Buffer;
use std::alloc::{AllocError, Global};

/// The bytes of a request, as `&[b"INCR", b"visits"]`. No other request begins with them.
#[tactic(auto, unfolding(crate::specs::Requests::request))]
pub fn request(alloc: Global, words: &[&[u8]]) -> Result<Vec<u8>, AllocError>
    ensures bytes { IfOk result (λ bytes. bytes.items ≡ request (bytes_of words.now)) }
    ensures alone { OnOk result (IsAlone (bytes_of words.now)) }
{
    let mut bytes = Vec::with_capacity(alloc, 64)?;
    push_head(&mut bytes, b'*', words.len())?;
    push_words(&mut bytes, words)?;
    Ok(bytes)
}

fn push_words(bytes: &mut Vec<u8>, words: &[&[u8]]) -> Result<(), AllocError>
    ensures { OnOk result (bytes.new.items ≡ bytes.old.items ++ all_words (bytes_of words.now)) }
{
    for word in words {
        push_word(bytes, word)?;
    }
    Ok(())
}

fn push_word(bytes: &mut Vec<u8>, text: &[u8]) -> Result<(), AllocError>
    ensures { OnOk result (bytes.new.items ≡ bytes.old.items ++ word text.now) }
{
    push_head(bytes, b'$', text.len())?;
    bytes.extend_from_slice(text)?;
    bytes.extend_from_slice(b"\r\n")
}

fn push_head(bytes: &mut Vec<u8>, kind: u8, count: usize) -> Result<(), AllocError>
    ensures { OnOk result (bytes.new.items ≡ bytes.old.items ++ head kind count) }
{
    let mut digits = Buffer::new();
    bytes.push(kind)?;
    bytes.extend_from_slice(digits.format(count).as_bytes())?;
    bytes.extend_from_slice(b"\r\n")
}
