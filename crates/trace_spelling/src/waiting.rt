ghost use Rattle.std.specs.Prelude.{◌≡◌, drop, IfOk};
ghost use Rattle.trace_spelling.specs.Windows.{joined, number_behind, seen_wait, seen_waits};

use std::alloc::{AllocError, Global};

/// A line that waits for the other lines of its event, with its number.
#[derive(Debug, Drop)]
pub(crate) struct WaitingLine {
    pub number: u64,
    pub bytes: Vec<u8>,
}

impl WaitingLine {
    /// The line of this number.
    pub fn new(alloc: Global, number: u64, line: &[u8]) -> Result<WaitingLine, AllocError>
        ensures { IfOk result (λ one. seen_wait one ≡ (number, line.now)) }
    {
        let mut bytes = Vec::with_capacity(alloc, line.len())?;
        bytes.extend_from_slice(line)?;
        Ok(WaitingLine { number, bytes })
    }
}

/// The text of lines, each behind an LF.
pub(crate) fn joined(alloc: Global, waits: &[WaitingLine]) -> Result<Vec<u8>, AllocError>
    ensures { IfOk result (λ text. text.items ≡ joined (seen_waits waits.now)) }
{
    let mut text = Vec::new(alloc);
    for one in waits {
        text.push(b'\n')?;
        text.extend_from_slice(&one.bytes)?;
    }
    Ok(text)
}

/// What stands behind the first byte of a text.
pub(crate) fn behind_first(text: &[u8]) -> &[u8]
    ensures { result.now ≡ drop 1 text.now }
{
    match text {
        [] => text,
        [_, rest @ ..] => rest,
    }
}

/// The number of the line behind so many of these.
pub(crate) fn number_at(waits: &[WaitingLine], behind: usize) -> u64
    ensures { result ≡ number_behind (seen_waits waits.now) behind }
{
    match waits.get(behind) {
        Some(one) => one.number,
        None => 0,
    }
}
