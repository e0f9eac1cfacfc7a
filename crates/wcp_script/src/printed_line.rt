//! The step lines of a workload as they are printed: each byte of them is looked at once.
ghost use Rattle.std.specs.Prelude.{◌≡◌, ℕ, ◌+◌, ◌<◌, ◌≤◌, ◌++◌, [], ◌∷◌, length, vec_len, IfOk, IfSome, OnOk};
ghost use Rattle.wcp_clock.specs.Limits.{most_processes, most_steps};
ghost use Rattle.std.specs.Fmt.{decimal};
ghost use Rattle.wcp_model.specs.WorkloadComputation.{IsWithin};
ghost use Rattle.wcp_script.specs.Lines.{line_text, lines_of};
ghost use Rattle.wcp_script.specs.TextFault.{workloads, steps_behind};
ghost use Rattle.wcp_script.specs.WorkloadText.{action_words, task_line};

use crate::task_line::is_within;
use std::alloc::AllocError;
use wcp_clock::MAX_STEPS;
use wcp_model::{Action, Task};

/// How many bytes a printed step line has at most: `p 15 send 15` and its LF.
const LONGEST_LINE: usize = 13;

/// Adds the tasks of n processes whose lines stand at the front of a text as they are printed, as far
/// as a text has room for them. Gives the text after them.
#[inline(never)]
pub(crate) fn read_printed_tasks<'a>(
    n: u32,
    text: &'a [u8],
    tasks: &mut Vec<Task>,
) -> Result<&'a [u8], AllocError>
    requires few { n ≤ most_processes }
    requires room { vec_len tasks.old ≤ most_steps }
    ensures room { OnOk result (vec_len tasks.new ≤ most_steps) }
    ensures read { IfOk result (λ rest. (last : ℕ)
        → steps_behind workloads n last tasks.new.items (lines_of rest.now)
        ≡ steps_behind workloads n last tasks.old.items (lines_of text.now)) }
    ensures rest { IfOk result (λ rest. length rest.now ≤ length text.now) }
{
    let mut rest = text;
    while tasks.len() < MAX_STEPS {
        let Some((task, after)) = printed_task(n, rest) else {
            return Ok(rest);
        };
        tasks.push(task)?;
        rest = after;
    }
    Ok(rest)
}

/// The task of the first line of a text, where it is printed as that of a task of n processes, and
/// the text after it. The last lines are left out, so that most bytes need no look at the length.
#[tactic(auto, using(crate::proofs::PrintedTasks::task_line_from))]
#[inline(always)]
fn printed_task(n: u32, text: &[u8]) -> Option<(Task, &[u8])>
    ensures line { IfSome result (λ found. text.now ≡ task_line found.0 ++ found.1.now) }
    ensures within { IfSome result (λ found. IsWithin n found.0) }
{
    if text.len() < LONGEST_LINE {
        return None;
    }
    let (p, rest) = match text {
        [b'p', b' ', rest @ ..] => printed_number(rest, b' ')?,
        _ => return None,
    };
    let (action, rest) = printed_action(rest)?;
    let task = Task { p, action };
    if is_within(n, &task) {
        Some((task, rest))
    } else {
        None
    }
}

/// What a process does by the words that a line ends with, and the text after the line.
#[inline(always)]
fn printed_action(text: &[u8]) -> Option<(Action, &[u8])>
    ensures { IfSome result (λ found. text.now ≡ line_text (action_words found.0) ++ found.1.now) }
{
    if let Some(rest) = after_four(text, b"true") {
        Some((Action::Observe(true), after_byte(rest, b'\n')?))
    } else if let Some(rest) = after_four(text, b"fals") {
        let rest = after_byte(rest, b'e')?;
        Some((Action::Observe(false), after_byte(rest, b'\n')?))
    } else if let Some(rest) = after_four(text, b"send") {
        let (to, rest) = printed_partner(after_byte(rest, b' ')?)?;
        Some((Action::Send(to), rest))
    } else if let Some(rest) = after_four(text, b"recv") {
        let (from, rest) = printed_partner(after_byte(rest, b' ')?)?;
        Some((Action::Recv(from), rest))
    } else {
        None
    }
}

/// The number that a line ends with, and the text after the line.
#[inline(always)]
pub(crate) fn printed_partner(text: &[u8]) -> Option<(u32, &[u8])>
    ensures { IfSome result (λ found. text.now ≡ line_text (decimal found.0 ∷ []) ++ found.1.now) }
{
    printed_number(text, b'\n')
}

/// The number below 20 that a text begins with, where this byte follows it, and the text after that.
#[inline(always)]
pub(crate) fn printed_number(text: &[u8], end: u8) -> Option<(u32, &[u8])>
    ensures { IfSome result (λ found. text.now ≡ decimal found.0 ++ end ∷ found.1.now) }
{
    let (first, rest) = printed_digit(text)?;
    if let Some(rest) = after_byte(rest, end) {
        return Some((first, rest));
    }
    if first != 1 {
        return None;
    }
    let (unit, rest) = printed_digit(rest)?;
    Some((10 + unit, after_byte(rest, end)?))
}

/// The digit that a text begins with, and the text after it.
#[inline(always)]
fn printed_digit(text: &[u8]) -> Option<(u32, &[u8])>
    ensures digit { IfSome result (λ found. found.0 < 10) }
    ensures spelled { IfSome result (λ found. text.now ≡ (48 + found.0) ∷ found.1.now) }
{
    match text {
        [byte @ b'0'..=b'9', rest @ ..] => Some((u32::from(*byte - b'0'), rest)),
        _ => None,
    }
}

/// The text after this byte, where it begins with it.
#[inline(always)]
pub(crate) fn after_byte(text: &[u8], first: u8) -> Option<&[u8]>
    ensures { IfSome result (λ rest. text.now ≡ first ∷ rest.now) }
{
    match text {
        [byte, rest @ ..] if *byte == first => Some(rest),
        _ => None,
    }
}

/// The text after these four bytes, where it begins with them: they are compared as one number.
#[inline(always)]
pub(crate) fn after_four<'a>(text: &'a [u8], four: &[u8; 4]) -> Option<&'a [u8]>
    ensures { IfSome result (λ rest. text.now ≡ four.now ++ rest.now) }
{
    let (front, rest) = text.split_first_chunk::<4>()?;
    if u32::from_le_bytes(*front) == u32::from_le_bytes(*four) {
        Some(rest)
    } else {
        None
    }
}
