//! The program, over any reader and writers.
ghost use Rattle.std.specs.Prelude.{◌≡◌, ℕ, ◌≤◌, map, IfOk};
ghost use Rattle.std.specs.Io.KnownBytes.{Keeps};
ghost use Rattle.wcp_io.specs.Edge.{edge_of};
ghost use Rattle.wcp_cli.specs.Edge.{Does, DoesAsked, DoesSome, status_after};
ghost use Rattle.wcp_cli.specs.Words.{AskFor, HasRing};

use crate::answers::answer_to;
use crate::fault::Fault;
use crate::words::{Request, read_words};
use std::convert::AsStr;
use std::io::{Read, Write};
use std::sync::Wait;
use std::thread::Threads;
use wcp_io::write_whole;

/// The status where there is no answer.
const REFUSED: u8 = 2;

/// Runs the program on its words, of which the first is its name, and gives its exit status.
///
/// The output is written in one piece, when all of it is known. Where there is no answer, `errors`
/// gets one line that says why. The word `run` alone starts threads, and waits for them.
pub fn drive<R: AllocGlobal + Threads + Wait + Sync, S: AsStr, I: Read, O: Write, E: Write>(
    rt: &R,
    words: &[S],
    input: &mut I,
    output: &mut O,
    errors: &mut E,
) -> u8
    ensures status { result ≤ 2 }
    ensures quiet { result ≤ 1 → Keeps (E.contents errors.old) (E.contents errors.new) }

    // With any words.
    ensures any { DoesSome (edge_of (I.remaining input.old) (I.remaining input.new)
        (O.contents output.old) (O.contents output.new)) result }

    // With words that ask for this request.
    ensures asked { (asked : Request) → AskFor asked (map S.text words.now)
        → DoesAsked asked (edge_of (I.remaining input.old) (I.remaining input.new)
        (O.contents output.old) (O.contents output.new)) result }
{
    match obey(rt, words, input, output) {
        Ok(status) => status,
        Err(fault) => refuse(errors, fault),
    }
}

/// Writes the line that says why there is no answer, and gives the status where there is none. It is
/// that status also where the line can't be written.
pub fn refuse<E: Write>(errors: &mut E, fault: Fault) -> u8
    ensures { result ≡ 2 }
{
    let _ = writeln!(errors, "wcpwatch: {fault}");
    REFUSED
}

/// Does what the words ask for, and gives the status.
fn obey<R: AllocGlobal + Threads + Wait + Sync, S: AsStr, I: Read, O: Write>(
    rt: &R,
    words: &[S],
    input: &mut I,
    output: &mut O,
) -> Result<u8, Fault>
    ensures status { IfOk result (λ status. status ≤ 1) }
    ensures any { DoesSome (edge_of (I.remaining input.old) (I.remaining input.new)
        (O.contents output.old) (O.contents output.new)) (status_after result) }
    ensures asked { (asked : Request) → AskFor asked (map S.text words.now)
        → DoesAsked asked (edge_of (I.remaining input.old) (I.remaining input.new)
        (O.contents output.old) (O.contents output.new)) (status_after result) }
{
    let request = read_words(rt.alloc(), words)?;
    fulfil(rt, request, input, output)
}

/// Writes the answer to a request, and gives the status.
fn fulfil<R: AllocGlobal + Threads + Wait + Sync, I: Read, O: Write>(
    rt: &R,
    request: Request,
    input: &mut I,
    output: &mut O,
) -> Result<u8, Fault>
    requires { HasRing request }
    ensures status { IfOk result (λ status. status ≤ 1) }
    ensures does { Does request (edge_of (I.remaining input.old) (I.remaining input.new)
        (O.contents output.old) (O.contents output.new)) (status_after result) }
{
    let answer = answer_to(rt, request, input)?;
    write_whole(output, answer.text.as_slice())?;
    Ok(answer.status)
}
