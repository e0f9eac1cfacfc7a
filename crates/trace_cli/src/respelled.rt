ghost use Rattle.std.specs.Prelude.{◌≡◌, option_map, IfOk};

use crate::spelling::LogSpelling;
use std::alloc::{AllocError, Global};
use std::io::{Read, Result as IoResult};
use trace_messages::MessageLog;
use trace_rewrite::RewritingReader;
use trace_spelling::SpellingRewriter;

/// A log as it is read: as it stands, or said anew in numbered lines.
#[derive(Drop)]
pub enum LogReader<'s, I> {
    /// As it stands.
    Plain(I),
    /// Its events are spelled otherwise.
    Spelled(RewritingReader<I, SpellingRewriter<'s>>),
    /// Its events have no clocks, but send and receive messages.
    Messages(RewritingReader<I, MessageLog>),
}

impl<'s, I: Read + Drop> LogReader<'s, I> {
    ghost use Rattle.trace_cli.specs.Respelled.{log_left, read_as};

    /// A reader of a log that is spelled so.
    pub fn new(
        alloc: Global,
        input: I,
        spelling: Option<&'s LogSpelling>,
    ) -> Result<LogReader<'s, I>, AllocError>
        ensures { IfOk result (λ reader. log_left I.remaining reader
            ≡ read_as (option_map (λ spelling. spelling.now) spelling.entry) (I.remaining input)) }
    {
        match spelling {
            None => Ok(LogReader::Plain(input)),
            Some(LogSpelling::Spelled(spelling, form)) => {
                let rewriter = spelling.rewriter(alloc)?;
                let reader = RewritingReader::new(alloc, input, rewriter, *form)?;
                Ok(LogReader::Spelled(reader))
            }
            Some(LogSpelling::Messages { unsent, form }) => {
                let log = MessageLog::new(alloc, *unsent);
                let reader = RewritingReader::new(alloc, input, log, *form)?;
                Ok(LogReader::Messages(reader))
            }
        }
    }

    /// How many lines of the log were passed over as no event. What waits in a log without clocks is told by its end.
    pub fn skipped(&self) -> u64 {
        match self {
            LogReader::Spelled(reader) => reader.rewriter().skipped(),
            LogReader::Plain(_) | LogReader::Messages(_) => 0,
        }
    }
}

impl<I: Read + Drop> Read for LogReader<'_, I> {
    ghost use Rattle.trace_cli.specs.Respelled.{log_left};

    ghost remaining = { log_left I.remaining };

    fn read(&mut self, buf: &mut [u8]) -> IoResult<usize> {
        match self {
            LogReader::Plain(input) => input.read(buf),
            LogReader::Spelled(reader) => reader.read(buf),
            LogReader::Messages(reader) => reader.read(buf),
        }
    }
}
