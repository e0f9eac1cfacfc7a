//! The report of a text, as the program `wcpwatch` prints it.
ghost use Rattle.std.specs.Prelude.{◌≡◌, ◌≢◌, ◌<◌, ◌≤◌, ◌⊎◌, ℕ, List, IfOk, IfErr, length, take, drop};
ghost use Rattle.wcp_io.specs.Input.{most_bytes};
ghost use Rattle.wcp_script.specs.ReadAnswers.{IsFaultOf};
ghost use Rattle.wcp_script.specs.TextFault.{HasWorkloadFault};
ghost use Rattle.wcp_script.specs.declared.fault.ScriptFault.{ScriptFault as TextFault};
ghost use Rattle.wcp_c.specs.Answers.{no_memory, no_room};
ghost use Rattle.wcp_c.specs.Singles.{IsAnswered, IsSingleAnswer, IsWanted, fault_line, too_large_line};

use crate::answer::{NO_MEMORY, NO_ROOM};
use std::alloc::{AllocError, Global};
use wcp_io::MAX_BYTES;
use wcp_report::report_text;
use wcp_script::{ReadFault, ScriptFault, read_ordered, single_in_order};

/// The status where the text has a fault.
const FAULT: u32 = 2;

/// The line that says that a text is longer than the program reads.
const TOO_LARGE: &[u8] = b"wcpwatch: toolarge\n";

/// What is printed, and the status.
#[derive(Drop)]
struct SingleAnswer {
    text: Vec<u8>,
    status: u32,
}

/// Puts what `wcpwatch single` prints for a text into `out`, and into `written` how many bytes that is;
/// where they have no room, none is put. A text that is longer than the program reads is refused by its
/// length alone.
#[unsafe(no_mangle)]
pub extern "C" fn wcp_single(alloc: Global, text: &[u8], out: &mut [u8], written: &mut u64) -> u32
    ensures answers { (result ≤ 2) ⊎ (result ≡ no_room) ⊎ (result ≡ no_memory) }
    ensures answer { result ≤ 1 → IsSingleAnswer text.now (take written.new out.new) result }
    ensures fault { result ≡ 2 → length text.now ≤ most_bytes → (fault : TextFault)
        × HasWorkloadFault text.now fault × (take written.new out.new ≡ fault_line fault) }
    ensures too_large { most_bytes < length text.now → IsAnswered (length too_large_line) (length out.old) 2 result }
    ensures too_large_written { most_bytes < length text.now → written.new ≡ length too_large_line }
    ensures too_large_line { result ≡ 2 → most_bytes < length text.now → take written.new out.new ≡ too_large_line }
    ensures room { result ≤ 2 → written.new ≤ length out.new }
    ensures behind { drop written.new out.new ≡ drop written.new out.old }
    ensures no_room { result ≡ no_room → (length out.old < written.new) × (out.new ≡ out.old) }
    ensures wanted { result ≡ no_room → length text.now ≤ most_bytes → IsWanted text.now written.new }
    ensures no_memory { result ≡ no_memory → (out.new ≡ out.old) × (written.new ≡ written.old) }
{
    if text.len() > MAX_BYTES {
        return put(TOO_LARGE, FAULT, out, written);
    }
    match answer_to(alloc, text) {
        Ok(answer) => put(answer.text.as_slice(), answer.status, out, written),
        Err(ReadFault::Script(fault)) => match fault_line(alloc, fault) {
            Ok(line) => put(line.as_slice(), FAULT, out, written),
            Err(_) => NO_MEMORY,
        },
        Err(ReadFault::NoMemory) => NO_MEMORY,
    }
}

/// The outcome of the workload that the text spells, printed.
fn answer_to(alloc: Global, text: &[u8]) -> Result<SingleAnswer, ReadFault>
    ensures answer { IfOk result (λ answer. IsSingleAnswer text.now answer.text.items answer.status) }
    ensures fault { IfErr result (IsFaultOf (HasWorkloadFault text.now)) }
    ensures status { IfOk result (λ answer. answer.status ≤ 1) }
{
    let read = read_ordered(alloc, text)?;
    let outcome = single_in_order(alloc, &read.workload, read.in_order())?;
    Ok(SingleAnswer {
        text: report_text(alloc, &outcome)?,
        status: u32::from(outcome.report.exit_status()),
    })
}

/// The line that says which fault the text has.
fn fault_line(alloc: Global, fault: ScriptFault) -> Result<Vec<u8>, AllocError>
    ensures { IfOk result (λ line. line.items ≡ fault_line fault) }
{
    let line = format!(in alloc; "wcpwatch: {fault}\n")?;
    Ok(line.into_bytes())
}

/// Puts a text into `out`, if it has room there, and how long it is into `written`.
pub fn put(text: &[u8], status: u32, out: &mut [u8], written: &mut u64) -> u32
    requires { status ≤ 2 }
    ensures written { written.new ≡ length text.now }
    ensures answers { IsAnswered (length text.now) (length out.old) status result }
    ensures put { result ≤ 2 → take (length text.now) out.new ≡ text.now }
    ensures behind { drop (length text.now) out.new ≡ drop (length text.now) out.old }
    ensures no_room { result ≡ no_room → out.new ≡ out.old }
    ensures same_room { length out.new ≡ length out.old }
{
    *written = text.len() as u64;
    if text.len() > out.len() {
        return NO_ROOM;
    }
    out[..text.len()].copy_from_slice(text);
    status
}
