//! Values of JSON as most printers spell them: texts without escapes, numbers and literals.
ghost use Rattle.std.specs.Prelude.{◌≡◌, ◌≤◌, ◌++◌, IfSome, IsTrue, length, take};
ghost use Rattle.json.specs.Json.{Json};
ghost use Rattle.json.specs.Print.{escape, IsNumber};
ghost use Rattle.trace_log.specs.Fields.{HasValue, IsQuoted, IsWord};

use crate::look::after_byte;
use json::is_number;
use memchr::memchr;

/// The text without escapes that stands in quotes at the front, and what stands after it.
pub(crate) fn quoted(text: &[u8]) -> Option<(&[u8], &[u8])>
    ensures { IfSome result (λ found. IsQuoted found.0.now text.now found.1.now) }
{
    let text = after_byte(text, b'"')?;
    let (said, rest) = text.split_at(plain_length(text));
    let rest = after_byte(rest, b'"')?;
    Some((said, rest))
}

/// How many bytes at the front a printer spells as they are.
pub(crate) fn plain_length(text: &[u8]) -> usize
    ensures within { result ≤ length text.now }
    ensures plain { escape (take result text.now) ≡ take result text.now }
{
    for place in 0..text.len() {
        let byte = text[place];
        if byte < 32 || byte == b'"' || byte == b'\\' {
            return place;
        }
    }
    text.len()
}

/// What stands at the front up to the first closing brace, and what stands after it.
pub(crate) fn braced(text: &[u8]) -> Option<(&[u8], &[u8])>
    ensures { IfSome result (λ found. text.now ≡ found.0.now ++ found.1.now) }
{
    let last = memchr(b'}', text)?;
    Some(text.split_at(last + 1))
}

/// What stands after the text, the number or the literal at the front.
pub(crate) fn after_value(text: &[u8]) -> Option<&[u8]>
    ensures { IfSome result (λ rest. (value : Json) × HasValue value text.now rest.now) }
{
    if let Some((_, rest)) = quoted(text) {
        return Some(rest);
    }
    let (word, rest) = text.split_at(word_length(text));
    if !is_word(word) {
        return None;
    }
    Some(rest)
}

/// How many bytes there are up to a comma, a closing brace or a space.
fn word_length(text: &[u8]) -> usize
    ensures { result ≤ length text.now }
{
    for place in 0..text.len() {
        let byte = text[place];
        if byte == b',' || byte == b'}' || byte == b' ' {
            return place;
        }
    }
    text.len()
}

/// Whether a text is a number or a literal.
fn is_word(word: &[u8]) -> bool
    ensures { IsTrue result → (value : Json) × IsWord value word.now }
{
    is_literal(word) || is_numeral(word)
}

/// Whether a text is a literal.
fn is_literal(word: &[u8]) -> bool
    ensures { IsTrue result → (value : Json) × IsWord value word.now }
{
    if word == b"true".as_slice() {
        return true;
    }
    if word == b"false".as_slice() {
        return true;
    }
    word == b"null".as_slice()
}

/// Whether a text is a number.
fn is_numeral(word: &[u8]) -> bool
    ensures { IsTrue result → IsNumber word.now }
{
    match str::from_utf8(word) {
        Ok(text) => is_number(text),
        Err(_) => false,
    }
}
