//! The bytes that were read ahead.
ghost use Rattle.std.specs.Prelude.{◌≡◌, ◌≢◌, ◌+◌, ◌-◌, ◌<◌, ◌≤◌, ◌++◌, ℕ, List, [], length, take, drop};
ghost use Rattle.std.specs.Prelude.{Ok, IfOk, IfErr, OnErr, true, false, vec_len, slice_range};
ghost use Rattle.std.specs.Io.KnownBytes.{Keeps, Consumes, IsAtEnd, prepend_known};
ghost use Rattle.wcp_io.specs.Input.{most_waiting};

use crate::line_fault::InputFault;
use std::alloc::{AllocError, Global};
use std::io::{ErrorKind, Read};
use std::marker::Model;

/// How many bytes one read asks for.
const BLOCK: usize = 65_536;

/// The bytes that were read ahead and not taken yet: those from `start` to `end`.
#[derive(Drop)]
pub struct Block {
    bytes: Vec<u8>,
    start: usize,
    end: usize,
}

impl Model for Block {
    ghost Value = { List ℕ };

    ghost view = { λ block. slice_range block.bytes.items block.start block.end };

    ghost invariant = { λ block. (block.start ≤ block.end) × (block.end ≤ vec_len block.bytes)
        × (0 < vec_len block.bytes) × (vec_len block.bytes ≤ most_waiting) };
}

impl Block {
    /// A block of which nothing was read.
    pub fn new(alloc: Global) -> Result<Block, AllocError>
        ensures { IfOk result (λ block. block ≡ []) }
    {
        let mut bytes = Vec::with_capacity(alloc, BLOCK)?;
        bytes.resize(BLOCK, 0)?;
        Ok(Block {
            bytes,
            start: 0,
            end: 0,
        })
    }

    /// The bytes that wait.
    pub fn waiting(&self) -> &[u8]
        ensures { result.now ≡ self.now }
    {
        let (start, end) = (self.start, self.end);
        let bytes = self.bytes.as_slice();
        &bytes[start..end]
    }

    /// Takes so many bytes from the front.
    pub fn take(&mut self, count: usize)
        requires { count ≤ length self.old }
        ensures { self.new ≡ drop count self.old }
    {
        self.start += count;
    }

    /// Reads more bytes, unless some wait. `false`: none waits, and the input is at its end.
    pub fn fill<I: Read>(&mut self, input: &mut I) -> Result<bool, InputFault>
        ensures bytes { Keeps (prepend_known self.old (I.remaining input.old))
            (prepend_known self.new (I.remaining input.new)) }
        ensures within { length self.new ≤ most_waiting }
        ensures some { result ≡ Ok true → self.new ≢ [] }
        ensures none { result ≡ Ok false → self.new ≡ [] }
        ensures ended { result ≡ Ok false → IsAtEnd (I.remaining input.new) }
        ensures refused { IfErr result (λ fault. fault ≡ InputFault.Read) }
        ensures err { OnErr result (self.new ≡ []) }
    {
        if self.start < self.end {
            return Ok(true);
        }
        self.start = 0;
        self.end = 0;
        let count = read_over(input, &mut self.bytes)?;
        self.end = count;
        Ok(count > 0)
    }
}

/// Reads once over the bytes, and again where it was interrupted.
fn read_over<I: Read>(input: &mut I, bytes: &mut Vec<u8>) -> Result<usize, InputFault>
    ensures len { vec_len bytes.new ≡ vec_len bytes.old }
    ensures within { IfOk result (λ count. count ≤ vec_len bytes.new) }
    ensures ok { IfOk result (λ count.
        Consumes (I.remaining input.old) (I.remaining input.new) (take count bytes.new.items)) }
    ensures ended { IfOk result (λ count. count ≡ 0 → 0 < vec_len bytes.old → IsAtEnd (I.remaining input.new)) }
    ensures refused { IfErr result (λ fault. fault ≡ InputFault.Read) }
    ensures err { OnErr result (Keeps (I.remaining input.old) (I.remaining input.new)) }
{
    for _ in 0..u64::MAX {
        match input.read(bytes.as_mut_slice()) {
            Ok(count) => return Ok(count),
            Err(error) => {
                if error.kind() != ErrorKind::Interrupted {
                    return Err(InputFault::Read);
                }
            }
        }
    }
    Err(InputFault::Read)
}
