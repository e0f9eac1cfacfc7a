ghost use Rattle.std.specs.Prelude.{◌≡◌, ◌<◌, ◌↔◌, length, slice_index, IsTrue};
ghost use Rattle.trace_words.specs.Options.{line_said};

/// The number of the first line of a log.
const FIRST_LINE: u64 = 1;

/// The number of a line that a word is: digits alone, and at least 1.
pub(crate) fn line_said(word: &str) -> Option<u64>
    ensures { result ≡ line_said word.now }
{
    if begins_with_plus(word) {
        return None;
    }
    match word.parse::<u64>() {
        Ok(number) if number >= FIRST_LINE => Some(number),
        _ => None,
    }
}

fn begins_with_plus(word: &str) -> bool
    ensures { IsTrue result ↔ ((0 < length word.now) × (slice_index word.now 0 ≡ 43)) }
{
    let bytes = word.as_bytes();
    !bytes.is_empty() && bytes[0] == b'+'
}
