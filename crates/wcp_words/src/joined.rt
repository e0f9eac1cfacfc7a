ghost use Rattle.std.specs.Prelude.{◌≤◌, None, length};

use crate::source::InputSource;
use std::alloc::{AllocError, Global};
use std::io::{Read, Result as IoResult, Write};

/// Several inputs, read one behind the other, each from the beginning of a line. From the second on, a line on `errors`
/// says with which line each begins.
#[derive(Drop)]
pub struct JoinedReader<'a, I, E> {
    program: &'a str,
    inputs: Vec<NamedInput<'a, I>>,
    errors: E,
    /// The place of the input that is read.
    at: usize,
    /// The number of the line that the next byte belongs to.
    line: u64,
    begins_line: bool,
    begins_input: bool,
}

/// An input, and what it is named.
#[derive(Drop)]
struct NamedInput<'a, I> {
    name: &'a str,
    input: I,
}

impl<'a, I: Read, E: Write> JoinedReader<'a, I, E> {
    /// No input yet.
    pub fn new(alloc: Global, program: &'a str, errors: E) -> JoinedReader<'a, I, E> {
        JoinedReader {
            program,
            inputs: Vec::new(alloc),
            errors,
            at: 0,
            line: 1,
            begins_line: true,
            begins_input: true,
        }
    }

    /// Adds an input behind the others.
    pub fn add(&mut self, source: InputSource<'a>, input: I) -> Result<(), AllocError>
    where
        I: Drop,
    {
        let name = match source {
            InputSource::File(name) => name,
            InputSource::Nowhere | InputSource::StandardInput => "-",
        };
        self.inputs.push(NamedInput { name, input })?;
        Ok(())
    }

    /// Says with which line the input begins that is read, if it is none of the first.
    fn tell_begin(&mut self) {
        if self.at > 0
            && self.begins_input
            && let Some(input) = self.inputs.get(self.at)
        {
            let _ = writeln!(
                self.errors,
                "{}: {} begins at line {}",
                self.program, input.name, self.line
            );
        }
        self.begins_input = false;
    }

    /// Ends the last line of an input, where it has no LF, and gives how many bytes that takes.
    fn end_line(&mut self, buf: &mut [u8]) -> usize
        ensures { result ≤ length buf.old }
    {
        let Some(first) = buf.first_mut() else {
            return 0;
        };
        *first = b'\n';
        self.count(b"\n");
        1
    }

    /// Notes these bytes of the input that is read. Of one input alone nothing is said.
    fn note(&mut self, bytes: &[u8]) {
        if self.inputs.len() > 1 {
            self.tell_begin();
            self.count(bytes);
        }
    }

    /// Counts the lines that end in these bytes.
    fn count(&mut self, bytes: &[u8]) {
        let ended = bytes.iter().filter(|byte| **byte == b'\n').count();
        self.line = self.line.saturating_add(ended as u64);
        self.begins_line = bytes.last() == Some(&b'\n');
    }
}

impl<I: Read, E: Write> Read for JoinedReader<'_, I, E> {
    ghost remaining = { λ reader. None };

    fn read(&mut self, buf: &mut [u8]) -> IoResult<usize> {
        for _ in self.at..self.inputs.len() {
            let Some(named) = self.inputs.get_mut(self.at) else {
                return Ok(0);
            };
            let count = named.input.read(buf)?;
            if count > 0 {
                self.note(&buf[..count]);
                return Ok(count);
            }
            self.at = self.at.saturating_add(1);
            self.begins_input = true;
            if !self.begins_line {
                return Ok(self.end_line(buf));
            }
        }
        Ok(0)
    }
}
