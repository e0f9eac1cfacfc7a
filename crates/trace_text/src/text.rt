//! An answer as bytes.
ghost use Rattle.std.specs.Prelude.{◌≡◌, IfOk, option_map};
ghost use Rattle.trace_detect.specs.Told.{told_by};
ghost use Rattle.trace_text.specs.Printed.{bytes_of, counted, told_status};

use crate::format::AnswerFormat;
use crate::lines::{count_line, lines_of, named};
use crate::objects::{json_count, json_of};
use std::alloc::{AllocError, Global};
use trace_detect::TraceAnswer;

/// The status of an answer that says yes.
const YES: u8 = 0;

/// The status of one that says no.
const NO: u8 = 1;

/// What is printed of an answer, behind the name of its question where it has one. `Err` where memory runs out.
pub fn answer_text(
    alloc: Global,
    format: AnswerFormat,
    name: Option<&str>,
    answer: &TraceAnswer,
) -> Result<Vec<u8>, AllocError>
    ensures { IfOk result (λ text. text.items
        ≡ bytes_of format (option_map (λ name. name.now) name.entry) (told_by answer.now)) }
{
    match format {
        AnswerFormat::Lines => named(alloc, name, lines_of(alloc, answer)?),
        AnswerFormat::Json => json_of(alloc, name, answer, ""),
    }
}

/// What is printed behind the last of so many moments.
pub fn count_text(alloc: Global, format: AnswerFormat, count: u64) -> Result<Vec<u8>, AllocError>
    ensures { IfOk result (λ text. text.items ≡ counted format count) }
{
    match format {
        AnswerFormat::Lines => count_line(alloc, count),
        AnswerFormat::Json => json_count(alloc, count),
    }
}

/// The exit status of an answer: 0 where there is a moment, or the conditions must have held at once; else 1.
pub fn status_of(answer: &TraceAnswer) -> u8
    ensures { result ≡ told_status (told_by answer.now) }
{
    match answer {
        TraceAnswer::Found(_) | TraceAnswer::Definite(_) => YES,
        TraceAnswer::NoMoment(_) | TraceAnswer::Possible(_) => NO,
    }
}
