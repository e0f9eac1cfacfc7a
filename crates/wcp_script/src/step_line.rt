ghost use Rattle.std.specs.Prelude.{◌≡◌, ℕ, ◌<◌, ◌≤◌, [], ◌∷◌, length, vec_len, IfOk, IfSome, MatchOption, Ok, OnOk};
ghost use Rattle.wcp_clock.specs.Limits.{most_processes, most_steps};
ghost use Rattle.wcp_script.specs.Head.{most_head_lines};
ghost use Rattle.wcp_script.specs.Lines.{TextLine, lines_of};
ghost use Rattle.wcp_script.specs.TextFault.{TextKind, step_after, steps_behind, steps_by};
ghost use Rattle.wcp_script.specs.ReadAnswers.{Gives};

use crate::fault::{FaultKind, ReadFault, ScriptFault, ask};
use std::alloc::{AllocError, Global};
use wcp_clock::MAX_STEPS;

/// How many bytes a step line has at least: `check` and its LF.
const SHORTEST_LINE: usize = 6;

/// What a step line of one kind of text says.
pub(crate) trait StepLine: Copy {
    ghost text_kind: { TextKind Self };

    /// Whether step lines begin with this word.
    fn is_step_word(word: &[u8]) -> bool
        ensures { result ≡ text_kind.is_step_word word.now };

    /// Adds the steps of the lines at the front of a text that are seen at one look to be spelled as
    /// they are printed, as far as there is room for them. Gives the text after them.
    fn read_printed<'a>(
        n: u32,
        text: &'a [u8],
        steps: &mut Vec<Self>,
    ) -> Result<&'a [u8], AllocError>
        requires few { n ≤ most_processes }
        requires room { vec_len steps.old ≤ most_steps }
        ensures room { OnOk result (vec_len steps.new ≤ most_steps) }
        ensures read { IfOk result (λ rest. (last : ℕ)
            → steps_behind text_kind n last steps.new.items (lines_of rest.now)
            ≡ steps_behind text_kind n last steps.old.items (lines_of text.now)) }
        ensures rest { IfOk result (λ rest. length rest.now ≤ length text.now) };

    /// What the first line of a text says under n processes, judged word by word, and the text after
    /// it.
    fn first(n: u32, text: &[u8]) -> Option<(Result<Self, FaultKind>, &[u8])>
        requires { n ≤ most_processes }
        ensures line { MatchOption result
            (lines_of text.now ≡ [])
            (λ next. (line : TextLine) × (lines_of text.now ≡ line ∷ lines_of next.1.now)
            × (next.0 ≡ text_kind.said n line)) }
        ensures shorter { IfSome result (λ next. length next.1.now < length text.now) };
}

/// The steps of the lines behind a head, whose last line has this number.
#[inline(never)]
pub(crate) fn read_steps<S: StepLine>(
    alloc: Global,
    n: u32,
    last: u32,
    text: &[u8],
) -> Result<Vec<S>, ReadFault>
    requires few { n ≤ most_processes }
    requires short { last ≤ most_head_lines }
    ensures { Gives (λ steps. steps.items) result (steps_by S.text_kind n last 0 (lines_of text.now)) }
{
    let mut steps = Vec::with_capacity(alloc, (text.len() / SHORTEST_LINE).min(MAX_STEPS))?;
    let mut rest = S::read_printed(n, text, &mut steps)?;
    while let Some((said, after)) = S::first(n, rest) {
        let step = match step_after(steps.len(), said) {
            Ok(step) => step,
            Err(kind) => {
                let line = last + steps.len() as u32 + 1;
                return Err(ReadFault::Script(ScriptFault { line, kind }));
            }
        };
        steps.push(step)?;
        rest = S::read_printed(n, after, &mut steps)?;
    }
    Ok(steps)
}

/// The step that a line says behind this many earlier steps, if the text has room for it.
fn step_after<S: Copy>(earlier: usize, said: Result<S, FaultKind>) -> Result<S, FaultKind>
    ensures { (text_kind : TextKind S) (n : ℕ) (line : TextLine) → said ≡ text_kind.said n line
        → result ≡ step_after text_kind n earlier line }
{
    let step = said?;
    ask(earlier < MAX_STEPS, FaultKind::TooLong)?;
    Ok(step)
}
