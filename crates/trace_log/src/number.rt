ghost use Rattle.std.specs.Prelude.{◌≡◌, ◌<◌, ◌↔◌, length, slice_index, IsTrue};
ghost use Rattle.trace_log.specs.Clock.{number_spelled};
ghost use Rattle.trace_log.specs.Numbered.{line_spelled};

/// The greatest number of a clock.
pub(crate) const MOST_NUMBER: u32 = 4_294_967_294;

/// The number that a text is: digits alone, and no more than the greatest number.
pub(crate) fn number(text: &str) -> Option<u32>
    ensures { result ≡ number_spelled text.now }
{
    if begins_with_plus(text) {
        return None;
    }
    match text.parse::<u32>() {
        Ok(number) if number <= MOST_NUMBER => Some(number),
        _ => None,
    }
}

/// The number of a line that a text is: digits alone, and no more than the greatest number of lines.
pub(crate) fn line_number(text: &str) -> Option<u64>
    ensures { result ≡ line_spelled text.now }
{
    if begins_with_plus(text) {
        return None;
    }
    match text.parse::<u64>() {
        Ok(number) => Some(number),
        Err(_) => None,
    }
}

fn begins_with_plus(text: &str) -> bool
    ensures { IsTrue result ↔ ((0 < length text.now) × (slice_index text.now 0 ≡ 43)) }
{
    let bytes = text.as_bytes();
    !bytes.is_empty() && bytes[0] == b'+'
}
