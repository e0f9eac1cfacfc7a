//! How a log is spelled, as the words say it.
ghost use Rattle.std.specs.Prelude.{◌≡◌, IfOk};
ghost use Rattle.trace_words.specs.Spelled.{name_members, say_messages};
ghost use Rattle.trace_cli.specs.Respelled.{IsSaidBy, IsSaidFor, IsSpelledBy, lines_by, name_said, unsent_by};

use crate::fault::TraceFault;
use std::alloc::Global;
use trace_log::{Form, LogLayout};
use trace_messages::Unsent;
use trace_spelling::{FieldNames, Spelling};
use trace_words::{SpellingWords, TraceRequest};

/// How a log is said anew.
#[derive(Debug, Drop)]
pub enum LogSpelling {
    /// Its events are spelled so. The form says which lines are read.
    Spelled(Spelling, Form),
    /// Its events have no clocks, but send and receive messages.
    Messages { unsent: Unsent, form: Form },
}

impl LogSpelling {
    /// How the log of a request is said anew, if it is spelled otherwise than in the layouts that are read as they are.
    pub fn asked_for(
        alloc: Global,
        request: &TraceRequest<'_>,
    ) -> Result<Option<LogSpelling>, TraceFault>
        ensures { IfOk result (IsSaidFor request.now) }
    {
        match request {
            TraceRequest::Trace(options) if options.are_fit() => {
                LogSpelling::said_by(alloc, &options.spelled)
            }
            _ => Ok(None),
        }
    }

    /// How the log is said anew by these words, if it is.
    fn said_by(alloc: Global, words: &SpellingWords<'_>) -> Result<Option<LogSpelling>, TraceFault>
        ensures { IfOk result (IsSaidBy words.now (say_messages words.now)) }
    {
        if words.say_messages() {
            return Ok(Some(LogSpelling::Messages {
                unsent: unsent_by(words),
                form: lines_by(words),
            }));
        }
        LogSpelling::spelled_by(alloc, words)
    }

    /// How events are spelled by these words, if they say it: by an expression, or by the names of members.
    fn spelled_by(
        alloc: Global,
        words: &SpellingWords<'_>,
    ) -> Result<Option<LogSpelling>, TraceFault>
        ensures { IfOk result (IsSpelledBy words.now words.now.parser (name_members words.now)) }
    {
        if let Some(parser) = words.parser {
            let lines = words.lines_of_an_event();
            let spelling = Spelling::by_parser(alloc, parser, lines, words.skips)?;
            return Ok(Some(LogSpelling::Spelled(spelling, lines_by(words))));
        }
        if words.name_members() {
            let names = FieldNames {
                host: name_said(words.host, "host"),
                clock: name_said(words.clock, "clock"),
                event: name_said(words.event, "event"),
            };
            let spelling = Spelling::by_fields(alloc, names, words.skips)?;
            return Ok(Some(LogSpelling::Spelled(spelling, lines_by(words))));
        }
        Ok(None)
    }
}

/// A name, or the usual one where none is said.
fn name_said<'a>(word: Option<&'a str>, usual: &'a str) -> &'a str
    ensures { result.now ≡ name_said word.entry usual.now }
{
    match word {
        Some(name) => name,
        None => usual,
    }
}

/// What becomes of lines that wait at the end of the log.
fn unsent_by(words: &SpellingWords<'_>) -> Unsent
    ensures { result ≡ unsent_by words.now }
{
    if words.assumes_sent {
        Unsent::Assumed
    } else if words.is_strict {
        Unsent::Refused
    } else {
        Unsent::Told
    }
}

/// The lines of the log that are read.
fn lines_by(words: &SpellingWords<'_>) -> Form
    ensures { result ≡ lines_by words.now }
{
    Form {
        layout: LogLayout::Numbered,
        first: words.first,
        last: words.last,
        check: false,
    }
}
