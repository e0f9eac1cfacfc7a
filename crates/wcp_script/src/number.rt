ghost use Rattle.std.specs.Prelude.{◌≡◌, ◌^◌, ◌<◌, ◌≤◌, ◌↔◌, length, slice_index, IsTrue, MatchOption};
ghost use Rattle.std.specs.Str.Parse.{digits_value, AllDigits};
ghost use Rattle.wcp_script.specs.Lines.{number_spelled};
ghost use Rattle.wcp_script.specs.Judgement.{number_in};

use crate::fault::FaultKind;

/// The number of a word that stands in the place of a number, or the fault.
pub(crate) fn number_in(word: &[u8]) -> Result<u32, FaultKind>
    ensures { result ≡ number_in word.now }
{
    number(word).ok_or(FaultKind::Number)
}

/// The number that a word is, if it is one.
fn number(word: &[u8]) -> Option<u32>
    ensures { result ≡ number_spelled word.now }
{
    if word.is_empty() || is_padded(word) {
        return None;
    }
    value(word)
}

fn is_padded(word: &[u8]) -> bool
    ensures { IsTrue result ↔ ((1 < length word.now) × (slice_index word.now 0 ≡ 48)) }
{
    word.len() > 1 && word[0] == b'0'
}

fn value(digits: &[u8]) -> Option<u32>
    ensures { MatchOption result
        (AllDigits 10 digits.now → 2 ^ 32 ≤ digits_value 10 digits.now)
        (λ value. AllDigits 10 digits.now × (value ≡ digits_value 10 digits.now) × (value < 2 ^ 32)) }
{
    let mut value: u32 = 0;
    for byte in digits {
        let digit = char::from(*byte).to_digit(10)?;
        value = value.checked_mul(10)?.checked_add(digit)?;
    }
    Some(value)
}
