//! Output as it is shown: with the control characters of texts escaped on a terminal, and with what no event matches at
//! the end of JSON.

use crate::unmatched::Unmatched;
use std::alloc::Global;
use std::io::{Result, Write};
use std::str;
use trace_text::AnswerFormat;
use trace_words::TraceRequest;
use wcp_io::{IoFault, write_whole};

/// The end of an object in a line of its own.
const END: &[u8] = b"}\n";

/// A writer of answers. What it has written is said by no clause.
#[derive(Drop)]
pub struct AnswerWriter<O> {
    output: O,
    shows: Shows,
    /// Whether the end of an object is held back.
    has_open_object: bool,
}

/// How answers are shown.
#[derive(Clone, Copy, Debug, PartialEq, Eq)]
pub enum Shows {
    /// As they are.
    Plain,
    /// On a terminal: control characters are escaped, but for LF and TAB.
    Escaped,
    /// As a JSON object, to which a member may be added.
    Object,
    /// As JSON objects, each shown as soon as it is known. What no event matches stands in one more.
    Objects,
}

impl Shows {
    /// How the answers to a request are shown where no terminal shows them.
    pub fn asked_for(request: &TraceRequest<'_>) -> Shows {
        match request {
            TraceRequest::Trace(options) if options.format == AnswerFormat::Json => {
                if options.questions.is_some() || options.all {
                    Shows::Objects
                } else {
                    Shows::Object
                }
            }
            _ => Shows::Plain,
        }
    }
}

impl<O: Write> AnswerWriter<O> {
    /// A writer that has written nothing.
    pub fn new(output: O, shows: Shows) -> AnswerWriter<O> {
        AnswerWriter {
            output,
            shows,
            has_open_object: false,
        }
    }

    /// Ends what was written, with what no event matches: where memory runs out it isn't shown.
    pub fn end(
        &mut self,
        alloc: Global,
        unmatched: &Unmatched,
    ) -> std::result::Result<(), IoFault> {
        let member = unmatched.member(alloc).ok().flatten();
        match self.shows {
            Shows::Object if self.has_open_object => {
                self.has_open_object = false;
                if let Some(member) = member {
                    write_whole(&mut self.output, b",")?;
                    write_whole(&mut self.output, member.as_slice())?;
                }
                write_whole(&mut self.output, END)
            }
            Shows::Objects => {
                let Some(member) = member else {
                    return Ok(());
                };
                write_whole(&mut self.output, b"{")?;
                write_whole(&mut self.output, member.as_slice())?;
                write_whole(&mut self.output, END)
            }
            _ => Ok(()),
        }
    }

    /// Writes an object but for its end, or anything else as it is. The end of the object before it comes first.
    fn write_object(&mut self, bytes: &[u8]) -> Result<()> {
        if self.has_open_object {
            self.has_open_object = false;
            self.output.write_all(END)?;
        }
        let Some(front) = bytes.strip_suffix(END) else {
            return self.output.write_all(bytes);
        };
        self.output.write_all(front)?;
        self.has_open_object = true;
        Ok(())
    }

    /// Writes a text, with its control characters escaped.
    fn write_escaped(&mut self, bytes: &[u8]) -> Result<()> {
        let Ok(text) = str::from_utf8(bytes) else {
            return self.output.write_all(bytes);
        };
        for part in text.split_inclusive(is_escaped) {
            self.write_part(part)?;
        }
        Ok(())
    }

    /// Writes a part of a text of which the last character alone may be one that is escaped.
    fn write_part(&mut self, part: &str) -> Result<()> {
        match part.chars().next_back() {
            Some(last) if is_escaped(last) => {
                let front = part.strip_suffix(last).unwrap_or("");
                self.output.write_all(front.as_bytes())?;
                write!(self.output, "{}", last.escape_default())
            }
            _ => self.output.write_all(part.as_bytes()),
        }
    }
}

impl<O: Write> Write for AnswerWriter<O> {
    fn write(&mut self, buf: &[u8]) -> Result<usize> {
        match self.shows {
            Shows::Plain | Shows::Objects => return self.output.write(buf),
            Shows::Escaped => self.write_escaped(buf)?,
            Shows::Object => self.write_object(buf)?,
        }
        Ok(buf.len())
    }

    fn flush(&mut self) -> Result<()> {
        self.output.flush()
    }
}

/// Whether a terminal takes a character for an order.
fn is_escaped(c: char) -> bool {
    c.is_control() && c != '\n' && c != '\t'
}
