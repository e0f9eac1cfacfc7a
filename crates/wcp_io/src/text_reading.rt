//! Reading an input to its end.
ghost use Rattle.std.specs.Prelude.{◌≡◌, ◌≢◌, ◌+◌, ◌<◌, ◌≤◌, ◌++◌, length, vec_len, IfOk, IfErr, OnOk, IfSome, IsErrOf};
ghost use Rattle.wcp_io.specs.Input.{IsInput, most_bytes, most_reads};

use crate::io_fault::IoFault;
use crate::text_limits::{MAX_BYTES, MAX_READS};
use std::alloc::Global;
use std::io::{ErrorKind, Read};

/// How many bytes one read asks for.
const BLOCK: usize = 65_536;

/// The whole input. It is refused as soon as it is known to be too large, and where it doesn't end
/// within so many reads, those counted too that were interrupted.
pub fn read_text<R: Read>(alloc: Global, input: &mut R) -> Result<Vec<u8>, IoFault>
    ensures whole { IfOk result (λ text. IsInput (R.remaining input.old) (R.remaining input.new) text.items) }
    ensures too_large { IsErrOf result IoFault.TooLarge
        → IfSome (R.remaining input.old) (λ bytes. most_bytes < length bytes) }
    ensures read { IfErr result (λ fault. fault ≢ IoFault.Write) }
    ensures no_pipe { IfErr result (λ fault. fault ≢ IoFault.Closed) }
{
    let mut text = Vec::new(alloc);
    let mut block = [0u8; BLOCK];
    for _ in 0..read_limit() {
        match input.read(&mut block) {
            Ok(0) => return Ok(text),
            Ok(count) => push_block(&mut text, &block[..count])?,
            Err(error) => {
                if error.kind() != ErrorKind::Interrupted {
                    return Err(IoFault::Read);
                }
            }
        }
    }
    Err(IoFault::Read)
}

/// How many reads take in a text at most.
fn read_limit() -> u32
    ensures { result ≡ most_reads }
{
    MAX_READS
}

/// Adds a block to a text that is not too large with it.
fn push_block(text: &mut Vec<u8>, block: &[u8]) -> Result<(), IoFault>
    requires { vec_len text.old ≤ most_bytes }
    ensures ok { OnOk result (text.new.items ≡ text.old.items ++ block.now) }
    ensures within { OnOk result (vec_len text.new ≤ most_bytes) }
    ensures too_large { IsErrOf result IoFault.TooLarge → most_bytes < vec_len text.old + length block.now }
    ensures read { IfErr result (λ fault. fault ≢ IoFault.Write) }
    ensures no_pipe { IfErr result (λ fault. fault ≢ IoFault.Closed) }
{
    if MAX_BYTES - text.len() < block.len() {
        return Err(IoFault::TooLarge);
    }
    text.extend_from_slice(block)?;
    Ok(())
}
