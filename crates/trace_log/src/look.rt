//! Clocks read at one look, as most printers spell them: names without escapes, digits, and at most one space behind
//! the brace, each colon and each comma.
ghost use Rattle.std.specs.Prelude.{◌≡◌, ◌≤◌, ◌++◌, ◌∷◌, IfSome, IsTrue, ℕ, List, length, take, ◌+◌, false};
ghost use Rattle.std.specs.Prelude.{slice_index};
ghost use Rattle.std.specs.Fmt.{decimal};
ghost use Rattle.json.specs.Spaced.{IsGap};
ghost use Rattle.trace_log.specs.Clock.{most_number};
ghost use Rattle.trace_log.specs.Look.{IsMember, Looks, lead_at};
ghost use Rattle.trace_log.specs.Views.{seen_clock};

use crate::event::Member;
use crate::number::MOST_NUMBER;

/// The greatest number of a clock.
const MOST: u64 = MOST_NUMBER as u64;

/// Reads a clock whose names stand as in the clock before, at their places, and whose numbers are no lower. They are
/// put into `next`. `false`: it is spelled otherwise, or one is lower.
pub(crate) fn look(text: &[u8], before: &[Member], next: &mut [u32]) -> bool
    ensures { IsTrue result → Looks text.now (seen_clock before.now) next.new }
{
    if next.len() < before.len() {
        return false;
    }
    let mut rest = text;
    for place in 0..before.len() {
        let one = &before[place];
        let Some((number, after)) = member(rest, lead_at(place), one.name.as_bytes()) else {
            return false;
        };
        if number < one.number {
            return false;
        }
        next[place] = number;
        rest = after;
    }
    rest.len() == 1 && rest[0] == b'}'
}

/// The byte in front of the member at this place.
pub(crate) fn lead_at(place: usize) -> u8
    ensures { result ≡ lead_at place }
{
    if place == 0 { b'{' } else { b',' }
}

/// The number of the member at the front, which has this name and stands behind this byte, and what stands after it.
fn member<'t>(text: &'t [u8], lead: u8, name: &[u8]) -> Option<(u32, &'t [u8])>
    ensures { IfSome result (λ found. IsMember lead name.now found.0 text.now found.1.now) }
{
    let rest = after_blank(after_byte(text, lead)?);
    let rest = after_byte(rest, b'"')?.strip_prefix(name)?;
    let rest = after_blank(after_byte(after_byte(rest, b'"')?, b':')?);
    let (number, length) = numeral(rest)?;
    let (_, rest) = rest.split_at(length);
    Some((number, rest))
}

/// What stands after this byte at the front.
pub(crate) fn after_byte(text: &[u8], byte: u8) -> Option<&[u8]>
    ensures { IfSome result (λ rest. text.now ≡ byte ∷ rest.now) }
{
    if text.is_empty() || text[0] != byte {
        return None;
    }
    Some(&text[1..])
}

/// What stands after a space at the front, if there is one.
pub(crate) fn after_blank(text: &[u8]) -> &[u8]
    ensures { (gap : List ℕ) × IsGap gap × (text.now ≡ gap ++ result.now) }
{
    match after_byte(text, b' ') {
        Some(rest) => rest,
        None => text,
    }
}

/// The number at the front as JSON spells it, if it is one of a clock, and how many digits it has.
fn numeral(text: &[u8]) -> Option<(u32, usize)>
    ensures within { IfSome result (λ found. found.1 ≤ length text.now) }
    ensures digits { IfSome result (λ found. take found.1 text.now ≡ decimal found.0) }
    ensures most { IfSome result (λ found. found.0 ≤ most_number) }
{
    let mut number: u64 = 0;
    for place in 0..text.len() {
        let Some(digit) = digit(text[place]) else {
            if place == 0 || has_zero_before(text, place) {
                return None;
            }
            return Some((number as u32, place));
        };
        number = number * 10 + digit;
        if number > MOST {
            return None;
        }
    }
    None
}

/// The value of a digit.
fn digit(byte: u8) -> Option<u64>
    ensures { IfSome result (λ digit. (byte ≡ 48 + digit) × (digit ≤ 9)) }
{
    if byte < b'0' || byte > b'9' {
        return None;
    }
    Some(u64::from(byte - b'0'))
}

/// Whether so many digits begin with a 0 before others.
fn has_zero_before(digits: &[u8], count: usize) -> bool
    ensures { result ≡ false → slice_index digits.now 0 ≡ 48 → count ≡ 1 }
{
    count != 1 && !digits.is_empty() && digits[0] == b'0'
}
