//! Runs of the program, of which all that it gives is compared.

use super::rows::Row;
use std::io::Read;
use std::process::Abort;
use std::sync::Wait;
use std::thread::Threads;
use test_streams::Sinks;
use wcp_cli::drive;

/// What the program writes and says, and its status.
#[derive(Clone, Copy)]
pub struct Answer<'a> {
    pub output: &'a [u8],
    pub errors: &'a [u8],
    pub status: u8,
}

/// The answer to a row's text.
pub fn answer_of(row: &Row) -> Answer<'static> {
    Answer {
        output: row.output.as_bytes(),
        errors: row.errors.as_bytes(),
        status: row.status,
    }
}

/// The answer with this fault.
pub fn refused(fault: &str) -> Answer {
    Answer {
        output: b"",
        errors: fault.as_bytes(),
        status: 2,
    }
}

/// Runs the program with this word, and gives its status.
pub fn run<R: AllocGlobal + Threads + Wait + Sync, I: Read>(
    rt: &R,
    word: &str,
    input: &mut I,
    sinks: &mut Sinks,
) -> u8 {
    let words = ["wcpwatch", word];
    drive(
        rt,
        words.as_slice(),
        input,
        &mut sinks.output,
        &mut sinks.errors,
    )
}

/// Runs the program with this word, and compares all that it gives. Where that differs, the case and the place in it
/// are told.
pub fn gives<R: AllocGlobal + Threads + Wait + Sync + Abort, I: Read>(
    rt: &R,
    word: &str,
    input: &mut I,
    sinks: &mut Sinks,
    answer: Answer,
    case: &str,
    place: usize,
) {
    let status = run(rt, word, input, sinks);
    is_given(rt, status, sinks, answer, case, place);
}

/// Compares all that the program gave.
pub fn is_given(
    rt: &impl Abort,
    status: u8,
    sinks: &Sinks,
    answer: Answer,
    case: &str,
    place: usize,
) {
    same_bytes(rt, &sinks.errors.taken, answer.errors, case, place);
    same_bytes(rt, &sinks.output.taken, answer.output, case, place);
    same_number(
        rt,
        usize::from(status),
        usize::from(answer.status),
        case,
        place,
    );
}

/// Compares what the program wrote or said.
pub fn same_bytes(rt: &impl Abort, found: &[u8], expected: &[u8], case: &str, place: usize) {
    assert_eq!(rt; found, expected, "{case}, {place}");
}

/// Compares a status, or how often something was done.
pub fn same_number(rt: &impl Abort, found: usize, expected: usize, case: &str, place: usize) {
    assert_eq!(rt; found, expected, "{case}, {place}");
}
