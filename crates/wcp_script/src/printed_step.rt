//! The step lines of a schedule, read at one look at each byte.
ghost use Rattle.std.specs.Prelude.{◌≡◌, ℕ, ◌≤◌, ◌++◌, [], ◌∷◌, length, vec_len, codes, IfOk, IfSome, OnOk};
ghost use Rattle.std.specs.Fmt.{decimal};
ghost use Rattle.wcp_clock.specs.Limits.{most_steps};
ghost use Rattle.wcp_script.specs.Lines.{line_text, lines_of};
ghost use Rattle.wcp_script.specs.ScheduleText.{truth_word, BeginsWithStep};
ghost use Rattle.wcp_script.specs.TextFault.{schedules, steps_behind};

use crate::printed_line::{after_byte, after_four, printed_number, printed_partner};
use std::alloc::AllocError;
use wcp_clock::MAX_STEPS;
use wcp_model::Step;

/// How many bytes a line has at most that is read here: `observe 19 false` and its LF.
const LONGEST_LINE: usize = 17;

/// Adds the steps whose lines stand at the front of a text with one space between two words and
/// numbers below 20, as far as a text has room for them. Gives the text after them.
#[inline(never)]
pub(crate) fn read_printed_steps<'a>(
    text: &'a [u8],
    steps: &mut Vec<Step>,
) -> Result<&'a [u8], AllocError>
    requires room { vec_len steps.old ≤ most_steps }
    ensures room { OnOk result (vec_len steps.new ≤ most_steps) }
    ensures read { IfOk result (λ rest. (n last : ℕ)
        → steps_behind schedules n last steps.new.items (lines_of rest.now)
        ≡ steps_behind schedules n last steps.old.items (lines_of text.now)) }
    ensures rest { IfOk result (λ rest. length rest.now ≤ length text.now) }
{
    let mut rest = text;
    while steps.len() < MAX_STEPS {
        let Some((step, after)) = printed_step(rest) else {
            return Ok(rest);
        };
        steps.push(step)?;
        rest = after;
    }
    Ok(rest)
}

/// The step of the first line of a text, and the text after it. The last lines are left out, so that
/// most bytes need no look at the length.
#[inline(always)]
fn printed_step(text: &[u8]) -> Option<(Step, &[u8])>
    ensures { IfSome result (λ found. BeginsWithStep text.now found.0 found.1.now) }
{
    if text.len() < LONGEST_LINE {
        return None;
    }
    if let Some(rest) = after_four(text, b"obse") {
        observe_line(rest)
    } else if let Some(rest) = after_four(text, b"send") {
        send_line(rest)
    } else if let Some(rest) = after_four(text, b"put ") {
        put_line(rest)
    } else if let Some(rest) = after_four(text, b"admi") {
        admit_line(rest)
    } else if let Some(rest) = after_four(text, b"pull") {
        pull_line(rest)
    } else if let Some(rest) = after_four(text, b"pass") {
        pass_line(rest)
    } else if let Some(rest) = after_four(text, b"chec") {
        check_line(rest)
    } else {
        None
    }
}

/// What a process observes, by the text after `obse`.
#[inline(always)]
fn observe_line(text: &[u8]) -> Option<(Step, &[u8])>
    ensures { IfSome result (λ found. BeginsWithStep (codes "obse" ++ text.now) found.0 found.1.now) }
{
    let (p, holds, rest) = printed_observation(after_four(text, b"rve ")?)?;
    Some((Step::Observe(p, holds), rest))
}

/// A send, by the text after `send`.
#[inline(always)]
fn send_line(text: &[u8]) -> Option<(Step, &[u8])>
    ensures { IfSome result (λ found. BeginsWithStep (codes "send" ++ text.now) found.0 found.1.now) }
{
    let (p, to, rest) = printed_pair(after_byte(text, b' ')?)?;
    Some((Step::Send(p, to), rest))
}

/// A put, by the text after `put` and its space.
#[inline(always)]
fn put_line(text: &[u8]) -> Option<(Step, &[u8])>
    ensures { IfSome result (λ found. BeginsWithStep (codes "put " ++ text.now) found.0 found.1.now) }
{
    let (p, rest) = printed_partner(text)?;
    Some((Step::Put(p), rest))
}

/// What a relay admits, by the text after `admi`.
#[inline(always)]
fn admit_line(text: &[u8]) -> Option<(Step, &[u8])>
    ensures { IfSome result (λ found. BeginsWithStep (codes "admi" ++ text.now) found.0 found.1.now) }
{
    let rest = after_byte(text, b't')?;
    let (relay, p, rest) = printed_pair(after_byte(rest, b' ')?)?;
    Some((Step::Admit(relay, p), rest))
}

/// What a relay pulls, by the text after `pull`.
#[inline(always)]
fn pull_line(text: &[u8]) -> Option<(Step, &[u8])>
    ensures { IfSome result (λ found. BeginsWithStep (codes "pull" ++ text.now) found.0 found.1.now) }
{
    let (relay, rest) = printed_partner(after_byte(text, b' ')?)?;
    Some((Step::Pull(relay), rest))
}

/// What a relay passes on, by the text after `pass`.
#[inline(always)]
fn pass_line(text: &[u8]) -> Option<(Step, &[u8])>
    ensures { IfSome result (λ found. BeginsWithStep (codes "pass" ++ text.now) found.0 found.1.now) }
{
    let (relay, rest) = printed_partner(after_byte(text, b' ')?)?;
    Some((Step::Pass(relay), rest))
}

/// A check, by the text after `chec`.
#[inline(always)]
fn check_line(text: &[u8]) -> Option<(Step, &[u8])>
    ensures { IfSome result (λ found. BeginsWithStep (codes "chec" ++ text.now) found.0 found.1.now) }
{
    let rest = after_byte(text, b'k')?;
    Some((Step::Check, after_byte(rest, b'\n')?))
}

/// The two numbers that a line ends with, and the text after the line.
#[tactic(auto, using(crate::proofs::PrintedSteps::two_words_from))]
#[inline(always)]
fn printed_pair(text: &[u8]) -> Option<(u32, u32, &[u8])>
    ensures { IfSome result
        (λ found. text.now ≡ line_text (decimal found.0 ∷ decimal found.1 ∷ []) ++ found.2.now) }
{
    let (first, rest) = printed_number(text, b' ')?;
    let (second, rest) = printed_partner(rest)?;
    Some((first, second, rest))
}

/// The number and the truth that a line ends with, and the text after the line.
#[tactic(auto, using(crate::proofs::PrintedSteps::two_words_from))]
#[inline(always)]
fn printed_observation(text: &[u8]) -> Option<(u32, bool, &[u8])>
    ensures { IfSome result
        (λ found. text.now ≡ line_text (decimal found.0 ∷ truth_word found.1 ∷ []) ++ found.2.now) }
{
    let (p, rest) = printed_number(text, b' ')?;
    let (holds, rest) = printed_truth(rest)?;
    Some((p, holds, rest))
}

/// The truth that a line ends with, and the text after the line.
#[inline(always)]
fn printed_truth(text: &[u8]) -> Option<(bool, &[u8])>
    ensures { IfSome result (λ found. text.now ≡ line_text (truth_word found.0 ∷ []) ++ found.1.now) }
{
    if let Some(rest) = after_four(text, b"true") {
        Some((true, after_byte(rest, b'\n')?))
    } else if let Some(rest) = after_four(text, b"fals") {
        let rest = after_byte(rest, b'e')?;
        Some((false, after_byte(rest, b'\n')?))
    } else {
        None
    }
}
