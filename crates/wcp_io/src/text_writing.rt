//! Writing a text whole.
ghost use Rattle.std.specs.Prelude.{◌≡◌, IfErr, OnOk, OnErr};
ghost use Rattle.std.specs.Io.KnownBytes.{Appends};
ghost use Rattle.wcp_io.specs.Prefixes.{AppendsPrefix};
ghost use Rattle.wcp_io.specs.WriteFaults.{IsWriteFault};

use crate::io_fault::IoFault;
use std::io::{Error, ErrorKind, Write};

/// Writes all of a text, and flushes. A write that is interrupted is tried again. Where a write fails, a prefix of the
/// text was written; it is told apart whether nobody reads the output any more.
pub fn write_whole<W: Write>(output: &mut W, text: &[u8]) -> Result<(), IoFault>
    ensures ok { OnOk result (Appends (W.contents output.old) (W.contents output.new) text.now) }
    ensures err { OnErr result (AppendsPrefix (W.contents output.old) (W.contents output.new) text.now) }
    ensures write { IfErr result IsWriteFault }
{
    let mut written = 0;
    for _ in 0..u64::MAX {
        if written == text.len() {
            return output.flush().map_err(|error| fault_of(&error));
        }
        match output.write(&text[written..]) {
            Ok(0) => return Err(IoFault::Write),
            Ok(count) => written += count,
            Err(error) => {
                if error.kind() != ErrorKind::Interrupted {
                    return Err(fault_of(&error));
                }
            }
        }
    }
    Err(IoFault::Write)
}

/// The fault of a write that failed by this error.
fn fault_of(error: &Error) -> IoFault
    ensures { IsWriteFault result }
{
    match error.kind() {
        ErrorKind::BrokenPipe => IoFault::Closed,
        _ => IoFault::Write,
    }
}
