//! What was answered of a log, as a page shows it.
ghost use Rattle.std.specs.Prelude.{◌≡◌, string_bytes, IfOk};
ghost use Rattle.draw_page.specs.declared.model.PageAnswer.TheVariants.{Undecided};
ghost use Rattle.trace_detect.specs.Told.{told_by};
ghost use Rattle.trace_text.specs.Lines.{unknown_lines};
ghost use Rattle.trace_text.specs.Waiting.{seen_waiting};
ghost use Rattle.trace_pages.specs.Pages.{page_status, said_by, says_told, says_waiting, shown_answer};
ghost use Rattle.trace_text.specs.Unknown.{answer_lines};

use draw_page::PageAnswer;
use std::alloc::{AllocError, Global};
use trace_detect::{HostRun, MomentMember, ReasonedAnswer, TraceAnswer};
use trace_names::shown_name;
use trace_text::{UNKNOWN, WaitingLines, reasoned_lines, unknown_lines};

/// The status where there is a moment, and where there must have been one.
pub(crate) const FOUND: u8 = 0;

/// The status where there is none, or need not have been one.
pub(crate) const NONE: u8 = 1;

/// What was answered to a question.
#[derive(Drop)]
pub(crate) struct Answered {
    /// The place of the question.
    pub place: usize,
    pub words: String,
    pub answer: PageAnswer,
    /// The members of the moment, or the first events of the runs.
    pub members: Vec<MomentMember>,
    /// Of each run the line of the event at which it is over, where that is known.
    pub over: Vec<Option<u64>>,
}

/// The members of a moment; or the first events of runs, and where these are over.
#[derive(Drop)]
struct Members {
    events: Vec<MomentMember>,
    over: Vec<Option<u64>>,
}

/// What was answered to the question at this place.
pub(crate) fn answered_with(
    alloc: Global,
    place: usize,
    told: ReasonedAnswer,
) -> Result<Answered, AllocError>
    ensures { IfOk result (λ answered. said_by answered ≡ says_told told) }
{
    let words = reasoned_lines(alloc, &told)?;
    let ReasonedAnswer { answer, .. } = told;
    let shown = shown_answer(&answer);
    let Members { events, over } = members_of(alloc, answer)?;
    Ok(Answered {
        place,
        words,
        answer: shown,
        members: events,
        over,
    })
}

/// That the answer to the question at this place isn't known, as these lines wait at the end of the log.
pub(crate) fn answered_unknown(
    alloc: Global,
    place: usize,
    waiting: &WaitingLines,
) -> Result<Answered, AllocError>
    ensures { IfOk result (λ answered. said_by answered ≡ says_waiting (seen_waiting waiting.now)) }
{
    let words = unknown_lines(alloc, waiting)?;
    Ok(undecided(alloc, place, words))
}

/// That the question at this place has no answer, as this host logs nothing.
pub(crate) fn answered_missing(
    alloc: Global,
    place: usize,
    host: &str,
) -> Result<Answered, AllocError>
    ensures { IfOk result (λ answered. answered.answer ≡ Undecided) }
{
    let host = shown_name(alloc, host)?;
    let host = host.as_str();
    let words = format!(in alloc; "unknown\nno event of {host}\n")?;
    Ok(undecided(alloc, place, words))
}

/// These words in the place of an answer.
fn undecided(alloc: Global, place: usize, words: String) -> Answered
    ensures words { string_bytes result.words ≡ string_bytes words }
    ensures answer { result.answer ≡ Undecided }
{
    Answered {
        place,
        words,
        answer: PageAnswer::Undecided,
        members: Vec::new(alloc),
        over: Vec::new(alloc),
    }
}

/// The exit status of an answer that is shown.
pub(crate) fn status_of_shown(answer: PageAnswer) -> u8
    ensures { result ≡ page_status answer }
{
    match answer {
        PageAnswer::Found | PageAnswer::Definite => FOUND,
        PageAnswer::NoMoment | PageAnswer::Possible => NONE,
        PageAnswer::Undecided => UNKNOWN,
    }
}

/// Which answer a page shows.
fn shown_answer(answer: &TraceAnswer) -> PageAnswer
    ensures { result ≡ shown_answer (told_by answer.now) }
{
    match answer {
        TraceAnswer::Found(_) => PageAnswer::Found,
        TraceAnswer::NoMoment(_) => PageAnswer::NoMoment,
        TraceAnswer::Definite(_) => PageAnswer::Definite,
        TraceAnswer::Possible(_) => PageAnswer::Possible,
    }
}

/// The members of the moment, or the runs; none where there is neither.
fn members_of(alloc: Global, answer: TraceAnswer) -> Result<Members, AllocError> {
    match answer {
        TraceAnswer::Found(events) | TraceAnswer::Possible(events) => Ok(Members {
            events,
            over: Vec::new(alloc),
        }),
        TraceAnswer::NoMoment(_) => Ok(Members {
            events: Vec::new(alloc),
            over: Vec::new(alloc),
        }),
        TraceAnswer::Definite(runs) => begins_of(alloc, &runs),
    }
}

/// The first events of runs, and where these are over.
fn begins_of(alloc: Global, runs: &[HostRun]) -> Result<Members, AllocError> {
    let mut events = Vec::with_capacity(alloc, runs.len())?;
    let mut over = Vec::with_capacity(alloc, runs.len())?;
    for run in runs {
        events.push(MomentMember {
            host: run.host.clone()?,
            line: run.line,
            text: run.text.clone()?,
        })?;
        over.push(run.over)?;
    }
    Ok(Members { events, over })
}
