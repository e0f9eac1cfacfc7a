ghost use Rattle.std.specs.Prelude.{◌≡◌, [], ◌∷◌};
ghost use Rattle.wcp_script.specs.Lines.{words_of};
ghost use Rattle.wcp_script.specs.ScheduleLines.{is_schedule_word, observation, step_of_one, step_of_two};
ghost use Rattle.wcp_script.specs.ScheduleLines.{step_by_words, step_in};
ghost use Rattle.wcp_script.specs.TextFault.{schedules};
ghost use Rattle.wcp_script.specs.Views.{seen_line};

use crate::fault::{FaultKind, ask};
use crate::lines::{Line, Words, next_line, words_of};
use crate::number::number_in;
use crate::printed_step::read_printed_steps;
use crate::step_line::StepLine;
use std::alloc::AllocError;
use wcp_model::Step;

impl StepLine for Step {
    ghost text_kind = { schedules };

    fn is_step_word(word: &[u8]) -> bool {
        is_schedule_word(word)
    }

    fn read_printed<'a>(
        _n: u32,
        text: &'a [u8],
        steps: &mut Vec<Step>,
    ) -> Result<&'a [u8], AllocError> {
        read_printed_steps(text, steps)
    }

    fn first(_n: u32, text: &[u8]) -> Option<(Result<Step, FaultKind>, &[u8])> {
        let (line, rest) = next_line(text)?;
        Some((step_in(line), rest))
    }
}

/// Whether a step line of a schedule begins with this word.
fn is_schedule_word(word: &[u8]) -> bool
    ensures { result ≡ is_schedule_word word.now }
{
    word == b"observe".as_slice()
        || word == b"send".as_slice()
        || word == b"recv".as_slice()
        || word == b"close".as_slice()
        || word == b"drop".as_slice()
        || word == b"put".as_slice()
        || word == b"admit".as_slice()
        || word == b"pull".as_slice()
        || word == b"pass".as_slice()
        || word == b"check".as_slice()
}

/// The step of a step line.
#[tactic(auto, unfolding(crate::specs::ScheduleLines::step_in))]
fn step_in(line: Line<'_>) -> Result<Step, FaultKind>
    ensures { result ≡ step_in (seen_line line.entry) }
{
    ask(line.ended, FaultKind::Line)?;
    match words_of(line.bytes) {
        Words::One(word) => step_of_none(word),
        Words::Two(first, second) => step_of_one(first, second),
        Words::Three(first, second, third) => step_of_two(first, second, third),
        _ => Err(FaultKind::Line),
    }
}

fn step_of_none(word: &[u8]) -> Result<Step, FaultKind>
    ensures { result ≡ step_by_words (word.now ∷ []) }
{
    if word == b"check".as_slice() {
        Ok(Step::Check)
    } else {
        Err(FaultKind::Line)
    }
}

fn step_of_one(first: &[u8], number: &[u8]) -> Result<Step, FaultKind>
    ensures { result ≡ step_by_words (first.now ∷ number.now ∷ []) }
{
    if first == b"close".as_slice() {
        Ok(Step::Close(number_in(number)?))
    } else if first == b"drop".as_slice() {
        Ok(Step::Dropped(number_in(number)?))
    } else if first == b"put".as_slice() {
        Ok(Step::Put(number_in(number)?))
    } else if first == b"pull".as_slice() {
        Ok(Step::Pull(number_in(number)?))
    } else if first == b"pass".as_slice() {
        Ok(Step::Pass(number_in(number)?))
    } else {
        Err(FaultKind::Line)
    }
}

fn step_of_two(first: &[u8], second: &[u8], third: &[u8]) -> Result<Step, FaultKind>
    ensures { result ≡ step_by_words (first.now ∷ second.now ∷ third.now ∷ []) }
{
    if first == b"observe".as_slice() {
        observation(second, third)
    } else if first == b"send".as_slice() {
        Ok(Step::Send(number_in(second)?, number_in(third)?))
    } else if first == b"recv".as_slice() {
        Ok(Step::Recv(number_in(second)?, u64::from(number_in(third)?)))
    } else if first == b"admit".as_slice() {
        Ok(Step::Admit(number_in(second)?, number_in(third)?))
    } else {
        Err(FaultKind::Line)
    }
}

fn observation(process: &[u8], keyword: &[u8]) -> Result<Step, FaultKind>
    ensures { result ≡ observation process.now keyword.now }
{
    if keyword == b"true".as_slice() {
        Ok(Step::Observe(number_in(process)?, true))
    } else if keyword == b"false".as_slice() {
        Ok(Step::Observe(number_in(process)?, false))
    } else {
        Err(FaultKind::Line)
    }
}
