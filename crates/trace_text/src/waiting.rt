//! What is told where lines wait at the end of a log.
ghost use Rattle.std.specs.Prelude.{◌≡◌, IfOk, OnOk, option_map, string_bytes};
ghost use Rattle.trace_text.specs.Json.{Adds, json_line, unknown_object, unknown_tokens};
ghost use Rattle.trace_text.specs.Lines.{unknown_lines};
ghost use Rattle.trace_text.specs.Printed.{unknown_bytes};
ghost use Rattle.trace_text.specs.Waiting.{seen_waiting};

use crate::format::AnswerFormat;
use crate::lines::named;
use crate::objects::{line_of, put_name, put_number, put_text};
use json::Writer;
use std::alloc::{AllocError, Global};
use trace_names::shown_name;

/// Lines that wait at the end of a log for a message, so that an answer isn't known.
#[derive(Debug, Drop)]
pub struct WaitingLines {
    /// The first of them.
    pub line: u64,
    /// The id of the message for which that one waits; empty where it is too long to be told.
    pub id: String,
    /// How many lines wait.
    pub count: u64,
}

/// What is printed in the place of an answer that isn't known, behind the name of its question where it has one. `Err`
/// where memory runs out.
pub fn unknown_text(
    alloc: Global,
    format: AnswerFormat,
    name: Option<&str>,
    waiting: &WaitingLines,
) -> Result<Vec<u8>, AllocError>
    ensures { IfOk result (λ text. text.items
        ≡ unknown_bytes format (option_map (λ name. name.now) name.entry) (seen_waiting waiting.now)) }
{
    match format {
        AnswerFormat::Lines => named(alloc, name, unknown_lines(alloc, waiting)?),
        AnswerFormat::Json => json_unknown(alloc, name, waiting),
    }
}

/// The lines that say that an answer isn't known. `Err` where memory runs out.
pub fn unknown_lines(alloc: Global, waiting: &WaitingLines) -> Result<String, AllocError>
    ensures { IfOk result (λ text. string_bytes text ≡ unknown_lines (seen_waiting waiting.now)) }
{
    let id = shown_name(alloc, waiting.id.as_str())?;
    let id = id.as_str();
    let (line, count) = (waiting.line, waiting.count);
    format!(in alloc; "unknown\nline {line} waits for {id}\nlines that wait: {count}\n")
}

/// That an answer isn't known as a JSON object, with the name of the question where it has one.
fn json_unknown(
    alloc: Global,
    name: Option<&str>,
    waiting: &WaitingLines,
) -> Result<Vec<u8>, AllocError>
    ensures { IfOk result (λ text. text.items
        ≡ json_line (unknown_object (option_map (λ name. name.now) name.entry) (seen_waiting waiting.now))) }
{
    let mut out = Writer::new(Vec::new(alloc));
    out.begin_object()?;
    put_name(&mut out, name)?;
    put_unknown(&mut out, waiting)?;
    out.end_object()?;
    line_of(out)
}

/// Writes that an answer isn't known.
fn put_unknown(out: &mut Writer, waiting: &WaitingLines) -> Result<(), AllocError>
    ensures { OnOk result (Adds out.old out.new (unknown_tokens (seen_waiting waiting.now))) }
{
    put_text(out, "answer", "unknown")?;
    put_number(out, "line", waiting.line)?;
    put_text(out, "id", waiting.id.as_str())?;
    put_number(out, "waiting", waiting.count)
}
