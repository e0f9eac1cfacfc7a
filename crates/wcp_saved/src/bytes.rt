//! Words as bytes, and their checksum.
ghost use Rattle.std.specs.Prelude.{◌≡◌, ℕ, ◌+◌, ◌^◌, ◌<◌, ◌++◌, ◌↔◌, All, IfOk, IsTrue, List, length};
ghost use Rattle.std.specs.Int.{w64, to_le_bytes};
ghost use Rattle.wcp_saved.specs.Spelling.{bytes_of, checksum, sealed};

use std::alloc::{AllocError, Global};

/// The prime by which the sums of a checksum are taken.
const ADLER: u32 = 65_521;

/// The bytes of these words, and their checksum. `Err` where memory runs out.
pub fn seal(alloc: Global, words: &[u64]) -> Result<Vec<u8>, AllocError>
    ensures { IfOk result (λ bytes. bytes.items ≡ sealed (bytes_of words.now)) }
{
    let mut bytes = Vec::new(alloc);
    for word in words {
        bytes.extend_from_slice(&word.to_le_bytes())?;
    }
    let sum = checksum(&bytes);
    bytes.extend_from_slice(&sum.to_le_bytes())?;
    Ok(bytes)
}

/// Whether the last 4 of these bytes are the checksum of those before them.
pub fn is_sealed(bytes: &[u8]) -> bool
    ensures { (text : List ℕ) → bytes.now ≡ sealed text → IsTrue result }
{
    let (text, sum) = split_sum(bytes);
    are_same(&checksum(text).to_le_bytes(), sum)
}

/// The last 4 bytes, and those before them.
fn split_sum(bytes: &[u8]) -> (&[u8], &[u8])
    ensures { (text sum : List ℕ) → bytes.now ≡ text ++ sum → length sum ≡ 4
        → (result.0.now ≡ text) × (result.1.now ≡ sum) }
{
    bytes.split_at(bytes.len().saturating_sub(4))
}

/// Whether these are the same bytes.
pub fn are_same(some: &[u8], other: &[u8]) -> bool
    ensures { IsTrue result ↔ (some.now ≡ other.now) }
{
    some == other
}

/// The words that these bytes spell, up to a rest of fewer than 8. `Err` where memory runs out.
pub fn unseal(alloc: Global, bytes: &[u8]) -> Result<Vec<u64>, AllocError>
    ensures { (spelled rest : List ℕ) → All (λ word. word < 2 ^ 64) spelled → bytes.now ≡ bytes_of spelled ++ rest
        → length rest < 8 → IfOk result (λ words. words.items ≡ spelled) }
{
    let count = bytes.len() / 8;
    let mut words = Vec::with_capacity(alloc, count)?;
    let mut rest = bytes;
    for _ in 0..count {
        let (word, after) = take_word(rest);
        words.push(word)?;
        rest = after;
    }
    Ok(words)
}

/// The word at the front, and the bytes behind it; 0 and nothing where there are fewer than 8.
fn take_word(bytes: &[u8]) -> (u64, &[u8])
    ensures { (word : ℕ) (rest : List ℕ) → word < 2 ^ 64 → bytes.now ≡ to_le_bytes w64 word ++ rest
        → (result.0 ≡ word) × (result.1.now ≡ rest) }
{
    match bytes {
        [a, b, c, d, e, f, g, h, rest @ ..] => {
            (u64::from_le_bytes([*a, *b, *c, *d, *e, *f, *g, *h]), rest)
        }
        _ => (0, &[]),
    }
}

/// Adler-32 of these bytes.
fn checksum(bytes: &[u8]) -> u32
    ensures { result ≡ checksum bytes.now }
{
    let mut low: u32 = 1;
    let mut high: u32 = 0;
    for byte in bytes {
        low = (low + u32::from(*byte)) % ADLER;
        high = (high + low) % ADLER;
    }
    high * 65_536 + low
}
