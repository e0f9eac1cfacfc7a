//! The lines of an input.
ghost use Rattle.std.specs.Prelude.{◌≡◌, ◌≢◌, ◌+◌, ◌<◌, ◌≤◌, ◌++◌, ◌∷◌, [], List, ℕ, true, false, Ok, Err};
ghost use Rattle.std.specs.Prelude.{IfOk, OnErr, vec_len, length};
ghost use Rattle.std.specs.Io.KnownBytes.{Consumes, IsAtEnd, Keeps};
ghost use Rattle.wcp_io.specs.Input.{most_waiting};
ghost use Rattle.wcp_io.specs.Reader.{Gives, left, most_given, waiting};
ghost use Rattle.wcp_io.specs.Parts.{Moves};

use crate::block::Block;
use crate::line_fault::InputFault;
use memchr::memchr;
use std::alloc::{AllocError, Global};
use std::io::Read;

/// The most bytes of a line that are given.
pub const MAX_GIVEN: usize = 65_537;

/// LF, which ends a line.
const LINE_FEED: u8 = b'\n';

/// Reads the lines of an input, each in the place of the one before.
///
/// Bytes are read in blocks, and a line is given as soon as its LF was read. Of a line that is longer than `MAX_GIVEN`
/// bytes so many are given as one line, and then the rest.
#[derive(Drop)]
pub struct LineReader {
    ahead: Block,
    line: Vec<u8>,
}

impl LineReader {
    /// A reader before the first line.
    pub fn new(alloc: Global) -> Result<LineReader, AllocError>
        ensures { IfOk result (λ reader. waiting reader ≡ []) }
    {
        Ok(LineReader {
            ahead: Block::new(alloc)?,
            line: Vec::new(alloc),
        })
    }

    /// Reads the next line of the input, always the same one. `false`: there is none. After an `Err` the part of the
    /// line that was read stands in the place of the line, and the next call goes on behind it.
    pub fn advance<I: Read>(&mut self, input: &mut I) -> Result<bool, InputFault>
        ensures line { result ≡ Ok true → Gives (left self.old (I.remaining input.old))
            (left self.new (I.remaining input.new)) self.new.line.items }
        ensures ended { result ≡ Ok false → IsAtEnd (left self.new (I.remaining input.new)) }
        ensures none { result ≡ Ok false
            → Keeps (left self.old (I.remaining input.old)) (left self.new (I.remaining input.new)) }
        ensures ahead { length (waiting self.new) ≤ most_waiting }
        ensures err { OnErr result (Consumes (left self.old (I.remaining input.old))
            (left self.new (I.remaining input.new)) self.new.line.items) }
        ensures refused { result ≡ Err InputFault.Read → waiting self.new ≡ [] }
        ensures no_memory { result ≡ Err InputFault.Memory → waiting self.new ≢ [] }
    {
        self.line.clear();
        loop {
            if !self.ahead.fill(input)? {
                return Ok(!self.line.is_empty());
            }
            if self.take_part()? {
                return Ok(true);
            }
        }
    }

    /// The line that was read last, without its LF.
    pub fn line(&self) -> &[u8]
        ensures { result.now ≡ self.now.line.items }
    {
        self.line.as_slice()
    }

    /// Adds to the line what waits of it. `true`: the line is whole.
    fn take_part(&mut self) -> Result<bool, AllocError>
        requires { vec_len self.old.line < most_given }
        ensures ok { IfOk result (λ whole.
            Moves self.old.ahead self.old.line.items self.new.ahead self.new.line.items whole) }
        ensures err { OnErr result (self.new.ahead ≡ self.old.ahead) }
        ensures line { OnErr result (self.new.line.items ≡ self.old.line.items) }
    {
        let waiting = self.ahead.waiting();
        let room = MAX_GIVEN - self.line.len();
        let part = &waiting[..waiting.len().min(room)];
        match memchr(LINE_FEED, part) {
            Some(place) => {
                self.line.extend_from_slice(&part[..place])?;
                self.ahead.take(place + 1);
                Ok(true)
            }
            None => {
                let count = part.len();
                self.line.extend_from_slice(part)?;
                self.ahead.take(count);
                Ok(self.line.len() == MAX_GIVEN)
            }
        }
    }
}
