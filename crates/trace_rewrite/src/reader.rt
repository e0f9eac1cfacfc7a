ghost use Rattle.std.specs.Prelude.{◌≡◌, ◌≢◌, ◌⊎◌, ◌++◌, ◌&&◌, [], nat_le, nat_lt, take, min, length, true, false};
ghost use Rattle.std.specs.Prelude.{option_map, IfOk, OnErr, OnOk, if◌then◌else◌};
ghost use Rattle.std.specs.Io.KnownBytes.{Keeps};

use crate::rewrite::Rewrite;
use std::alloc::{AllocError, Global};
use std::io::{self, ErrorKind, Read};
use trace_log::{Form, MAX_LINE};
use wcp_io::LineReader;

/// What a reader does next.
#[derive(Clone, Copy, Debug, PartialEq, Eq)]
pub(crate) enum Stage {
    /// It reads a line.
    Reading,
    /// It says the line that was read.
    Saying,
    /// It says the log's end.
    Ending,
    /// All is said.
    Over,
    /// A read failed in a line: no more is read.
    Failed,
}

/// Reads what a rewriter makes of the lines of an input.
///
/// The rewriter is given the lines from the form's first to its last, by their numbers, and a line that is too long
/// before them; none behind a line that is too long. What it says of a line is given before the next line is read.
#[derive(Drop)]
pub struct RewritingReader<I, R> {
    input: I,
    lines: LineReader,
    rewriter: R,
    form: Form,
    count: u64,
    stage: Stage,
    said: Vec<u8>,
    taken: usize,
}

impl<I: Read + Drop, R: Rewrite> RewritingReader<I, R> {
    ghost use Rattle.trace_log.specs.Event.{most_bytes};
    ghost use Rattle.trace_rewrite.specs.Given.{is_last};
    ghost use Rattle.trace_rewrite.specs.Remaining.{said_of_bytes, said_remaining, waiting};
    ghost use Rattle.trace_rewrite.specs.Saying.{SaysAgain, SaysLine};

    /// A reader before the first line.
    pub fn new(
        alloc: Global,
        input: I,
        rewriter: R,
        form: Form,
    ) -> Result<RewritingReader<I, R>, AllocError>
        ensures { IfOk result (λ reader. said_remaining I.remaining R.said reader
            ≡ option_map (said_of_bytes (R.said rewriter) form 0) (I.remaining input)) }
    {
        Ok(RewritingReader {
            input,
            lines: LineReader::new(alloc)?,
            rewriter,
            form,
            count: 0,
            stage: Stage::Reading,
            said: Vec::new(alloc),
            taken: 0,
        })
    }

    /// The rewriter, as it is now.
    pub fn rewriter(&self) -> &R
        ensures { result.now ≡ self.now.rewriter }
    {
        &self.rewriter
    }

    /// What was said and not taken yet.
    fn waiting(&self) -> &[u8]
        ensures { result.now ≡ waiting self.now }
    {
        let start = self.taken.min(self.said.len());
        &self.said[start..]
    }

    /// Whether something waits, or all was said.
    fn has_more(&self) -> bool
        ensures some { result ≡ false → waiting self.now ≡ [] }
        ensures over { result ≡ true → (waiting self.now ≢ []) ⊎ (self.now.stage ≡ Stage.Over) }
    {
        self.stage == Stage::Over || !self.waiting().is_empty()
    }

    /// Takes as much of what waits as there is room for.
    fn give(&mut self, buf: &mut [u8]) -> usize
        ensures count { result ≡ min (length (waiting self.old)) (length buf.new) }
        ensures bytes { waiting self.old ≡ take result buf.new ++ waiting self.new }
        ensures same { self.new ≡ record self.old { taken = self.new.taken } }
    {
        let waiting = self.waiting();
        let count = waiting.len().min(buf.len());
        buf[..count].copy_from_slice(&waiting[..count]);
        self.taken += count;
        count
    }

    /// Does one step more.
    fn step(&mut self) -> io::Result<()>
        requires { waiting self.old ≡ [] }
        ensures { Keeps (said_remaining I.remaining R.said self.old) (said_remaining I.remaining R.said self.new) }
    {
        match self.stage {
            Stage::Reading => self.read_line(),
            Stage::Saying => self.say_line(),
            Stage::Ending => self.say_end(),
            Stage::Over => Ok(()),
            Stage::Failed => Err(failure("the log could not be read")),
        }
    }

    /// Reads a line, unless the last one was read.
    fn read_line(&mut self) -> io::Result<()>
        requires none { waiting self.old ≡ [] }
        requires reads { self.old.stage ≡ Stage.Reading }
        ensures { Keeps (said_remaining I.remaining R.said self.old) (said_remaining I.remaining R.said self.new) }
    {
        if self.is_last() {
            self.stage = Stage::Ending;
            return Ok(());
        }
        match self.lines.advance(&mut self.input) {
            Ok(true) => self.stage = Stage::Saying,
            Ok(false) => self.stage = Stage::Ending,
            Err(_) => {
                self.stage = Stage::Failed;
                return Err(failure("the log could not be read"));
            }
        }
        Ok(())
    }

    /// Whether the last line that is read was read.
    fn is_last(&self) -> bool
        ensures { result ≡ is_last self.now.form.last self.now.count }
    {
        match self.form.last {
            Some(last) => last <= self.count,
            None => false,
        }
    }

    /// Says the line that was read, unless it stands before the first.
    fn say_line(&mut self) -> io::Result<()>
        requires none { waiting self.old ≡ [] }
        requires says { self.old.stage ≡ Stage.Saying }
        ensures { Keeps (said_remaining I.remaining R.said self.old) (said_remaining I.remaining R.said self.new) }
    {
        if self.count == u64::MAX {
            return Err(failure("the log has too many lines"));
        }
        let number = self.count + 1;
        let is_short = self.is_short();
        if self.passes(number, is_short) {
            self.count = number;
            self.stage = Stage::Reading;
            return Ok(());
        }
        self.rewrite(number)?;
        self.count = number;
        self.stage = stage_behind(is_short);
        Ok(())
    }

    /// Whether the line that was read isn't too long.
    fn is_short(&self) -> bool
        ensures { result ≡ nat_le (length self.now.lines.line.items) most_bytes }
    {
        self.lines.line().len() <= MAX_LINE
    }

    /// Whether nothing is said of the line of this number.
    fn passes(&self, number: u64, is_short: bool) -> bool
        ensures { result ≡ (nat_lt number self.now.form.first && is_short) }
    {
        number < self.form.first && is_short
    }

    /// Has the rewriter say the line that was read, which has this number.
    fn rewrite(&mut self, number: u64) -> io::Result<()>
        ensures ok { OnOk result (SaysLine (R.said self.old.rewriter) (R.said self.new.rewriter) number
            self.old.lines.line.items [] (waiting self.new)) }
        ensures err { OnErr result (SaysAgain (R.said self.old.rewriter) (R.said self.new.rewriter) number
            self.old.lines.line.items) }
        ensures none { OnErr result (waiting self.new ≡ []) }
        ensures same { self.new ≡ record self.old {
          rewriter = self.new.rewriter;
          said = self.new.said;
          taken = self.new.taken;
        } }
    {
        self.said.clear();
        self.taken = 0;
        match self
            .rewriter
            .line(number, self.lines.line(), &mut self.said)
        {
            Ok(()) => Ok(()),
            Err(AllocError) => {
                self.said.clear();
                Err(failure("memory ran out"))
            }
        }
    }

    /// Says the log's end.
    fn say_end(&mut self) -> io::Result<()>
        requires none { waiting self.old ≡ [] }
        requires ends { self.old.stage ≡ Stage.Ending }
        ensures { Keeps (said_remaining I.remaining R.said self.old) (said_remaining I.remaining R.said self.new) }
    {
        self.said.clear();
        self.taken = 0;
        match self.rewriter.end(&mut self.said) {
            Ok(()) => {
                self.stage = Stage::Over;
                Ok(())
            }
            Err(AllocError) => {
                self.said.clear();
                Err(failure("memory ran out"))
            }
        }
    }
}

/// What a reader does behind a line that was said: no more is read behind one that is too long.
fn stage_behind(is_short: bool) -> Stage
    ensures { result ≡ (if is_short then Stage.Reading else Stage.Ending) }
{
    if is_short {
        Stage::Reading
    } else {
        Stage::Ending
    }
}

/// That a read failed, in these words.
fn failure(words: &str) -> io::Error {
    io::Error::new(ErrorKind::Other, words)
}

impl<I: Read + Drop, R: Rewrite> Read for RewritingReader<I, R> {
    ghost use Rattle.trace_rewrite.specs.Remaining.{said_remaining};

    ghost remaining = { said_remaining I.remaining R.said };

    fn read(&mut self, buf: &mut [u8]) -> io::Result<usize> {
        if buf.is_empty() {
            return Ok(0);
        }
        for _ in 0..u64::MAX {
            if self.has_more() {
                return Ok(self.give(buf));
            }
            self.step()?;
        }
        Err(failure("the log has too many lines"))
    }
}
