ghost use Rattle.std.specs.Prelude.{◌≡◌};

use crate::teller::ProgressTeller;
use std::io::{Read, Result, Write};
use std::time::Clock;

/// A reader that gives what its input gives, and has a teller count it, where there is one.
#[derive(Drop)]
pub struct TellingReader<'a, C, I, E> {
    input: I,
    teller: Option<ProgressTeller<'a, C, E>>,
}

impl<'a, C: Clock, I: Read, E: Write> TellingReader<'a, C, I, E> {
    /// A reader of this input.
    pub fn new(input: I, teller: Option<ProgressTeller<'a, C, E>>) -> TellingReader<'a, C, I, E>
        ensures { result.input ≡ input }
    {
        TellingReader { input, teller }
    }
}

impl<C: Clock, I: Read, E: Write> Read for TellingReader<'_, C, I, E> {
    ghost remaining = { λ reader. I.remaining reader.input };

    fn read(&mut self, buf: &mut [u8]) -> Result<usize> {
        let count = self.input.read(buf)?;
        if let Some(teller) = &mut self.teller {
            teller.tell(&buf[..count]);
        }
        Ok(count)
    }
}
