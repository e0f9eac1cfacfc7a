ghost use Rattle.std.specs.Prelude.{◌≡◌};

use std::io::{Read, Result};

/// A reader that gives what its input gives, and knows whether that was read to its end.
#[derive(Drop)]
pub struct WholeReader<I> {
    input: I,
    is_at_end: bool,
}

impl<I: Read> WholeReader<I> {
    /// A reader of this input.
    pub fn new(input: I) -> WholeReader<I>
        ensures { result.input ≡ input }
    {
        WholeReader {
            input,
            is_at_end: false,
        }
    }

    /// What is read.
    pub fn input(&self) -> &I
        ensures { result.now ≡ self.now.input }
    {
        &self.input
    }

    /// Whether the end was read.
    pub fn is_at_end(&self) -> bool {
        self.is_at_end
    }
}

impl<I: Read> Read for WholeReader<I> {
    ghost remaining = { λ reader. I.remaining reader.input };

    fn read(&mut self, buf: &mut [u8]) -> Result<usize> {
        let count = self.input.read(buf)?;
        if count == 0 && !buf.is_empty() {
            self.is_at_end = true;
        }
        Ok(count)
    }
}
