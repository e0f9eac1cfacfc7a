//! What is printed of what was detected: an answer, or that it isn't known.
ghost use Rattle.std.specs.Prelude.{◌≡◌, ◌≤◌, Err, IfOk, IfSome, option_map};
ghost use Rattle.trace_text.specs.Unknown.{SaysWaiting, Tells, reasoned_bytes, unknown_status};
ghost use Rattle.trace_text.specs.Waiting.{seen_waiting};

use crate::format::AnswerFormat;
use crate::lines::{named, reasoned_lines};
use crate::objects::json_of;
use crate::printed::Printed;
use crate::text::status_of;
use crate::waiting::{WaitingLines, unknown_text};
use std::alloc::{AllocError, Global};
use trace_detect::{DetectFault, ReasonedAnswer};
use trace_log::LogFaultKind;

/// The status where an answer isn't known.
pub const UNKNOWN: u8 = 2;

/// What is printed of what was detected. Where lines wait at the end of the log, it is that the answer isn't known;
/// any other fault is given back.
pub fn told(
    alloc: Global,
    format: AnswerFormat,
    detected: Result<ReasonedAnswer, DetectFault>,
) -> Result<Printed, DetectFault>
    ensures told { IfOk result (λ printed. Tells format detected printed.text.items printed.status) }
    ensures status { IfOk result (λ printed. printed.status ≤ unknown_status) }
{
    match detected {
        Ok(told) => {
            let status = status_of(&told.answer);
            let text = reasoned_text(alloc, format, None, &told)?;
            Ok(Printed { text, status })
        }
        Err(fault) => told_unknown(alloc, format, fault),
    }
}

/// What is printed of an answer and of why it stands, with the name of its question where there is one.
pub fn reasoned_text(
    alloc: Global,
    format: AnswerFormat,
    name: Option<&str>,
    told: &ReasonedAnswer,
) -> Result<Vec<u8>, AllocError>
    ensures { IfOk result (λ text. text.items
        ≡ reasoned_bytes format (option_map (λ name. name.now) name.entry) told.now) }
{
    match format {
        AnswerFormat::Lines => named(alloc, name, reasoned_lines(alloc, told)?),
        AnswerFormat::Json => json_of(alloc, name, &told.answer, told.why.as_str()),
    }
}

/// That the answer isn't known, where lines wait, or the fault.
fn told_unknown(
    alloc: Global,
    format: AnswerFormat,
    fault: DetectFault,
) -> Result<Printed, DetectFault>
    ensures told { IfOk result (λ printed. Tells format (Err fault) printed.text.items printed.status) }
    ensures status { IfOk result (λ printed. printed.status ≤ unknown_status) }
{
    let Some(waiting) = waiting_of(alloc, &fault)? else {
        return Err(fault);
    };
    let text = unknown_text(alloc, format, None, &waiting)?;
    Ok(Printed {
        text,
        status: UNKNOWN,
    })
}

/// The lines that wait, where the fault is that lines do.
pub fn waiting_of(alloc: Global, fault: &DetectFault) -> Result<Option<WaitingLines>, AllocError>
    ensures { IfOk result (λ found. IfSome found (λ waiting. SaysWaiting fault.now (seen_waiting waiting))) }
{
    let DetectFault::Log(fault) = fault else {
        return Ok(None);
    };
    if fault.kind != LogFaultKind::Waits {
        return Ok(None);
    }
    let (count, id) = parts_of(fault.detail.words());
    Ok(Some(WaitingLines {
        line: fault.line,
        id: String::from_str(alloc, id)?,
        count,
    }))
}

/// How many lines wait, and the id for which the first one waits, as the words of the fault say it: `COUNT ID`.
fn parts_of(words: &str) -> (u64, &str) {
    match words.split_once(' ') {
        Some((count, id)) => (count.parse::<u64>().unwrap_or(0), id),
        None => (0, ""),
    }
}
