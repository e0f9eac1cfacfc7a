//! The answers to a file of questions where reads and writes fail.
use super::runs::{RUNS_OUT, told};
use std::alloc::Global;
use std::io::{ErrorKind, Read};
use std::process::Abort;
use test_streams::{Sink, Source, Trouble};
use trace_cli::drive;

/// A question that is answered with line 4 of the log, behind one that is answered with line 14.
const QUESTIONS: &str = "\
[[question]]
name = \"holders\"
while = [\"ann=holds\", \"ben=holds\"]

[[question]]
name = \"early\"
while = [\"keeper=opens\", \"ann=asks\"]
";

/// The answer that comes first.
const EARLY: &str = "early: found\nkeeper line 2 opens\nann line 4 asks for the lease\n";

/// Both answers.
const ANSWERS: &str = "early: found\nkeeper line 2 opens\nann line 4 asks for the lease\n\
holders: found\nann line 8 holds the lease\nben line 14 holds the lease\n";

/// The status, what is said, and what is written, in writes of eight bytes.
fn answers<Q: Read, I: Read>(
    rt: &impl Abort,
    alloc: Global,
    file: &mut Q,
    input: &mut I,
    trouble: Trouble,
) -> String {
    let words = ["wcptrace", "--questions", "two.toml"];
    let mut output = Sink::new(alloc, 8, trouble);
    let mut errors: Vec<u8> = Vec::new(alloc);
    let status = drive(
        alloc,
        &words,
        file,
        input,
        &mut output,
        &mut errors,
        &mut (),
    );
    told(rt, alloc, status, &errors, &output.taken)
}

/// What is told where this write fails.
fn failing_write(rt: &impl Abort, alloc: Global, write: usize, kind: ErrorKind) -> String {
    let mut file = QUESTIONS.as_bytes();
    let mut input = RUNS_OUT.as_bytes();
    answers(rt, alloc, &mut file, &mut input, Trouble::At(write, kind))
}

/// Whether this is told before a part of the answers.
fn is_cut(told: &str, before: &str) -> bool {
    let Some(written) = told.strip_prefix(before) else {
        return false;
    };
    ANSWERS.starts_with(written) && written.len() < ANSWERS.len()
}

/// The answers have 63 and 70 bytes: eight writes and nine.
#[test]
fn each_write_may_fail(rt: HostRuntime) {
    for write in 0..17usize {
        let told = failing_write(&rt, rt.alloc(), write, ErrorKind::Other);
        assert!(rt; is_cut(told.as_str(), "2 wcptrace: write\n"));
        let told = failing_write(&rt, rt.alloc(), write, ErrorKind::BrokenPipe);
        assert!(rt; is_cut(told.as_str(), "141 "));
    }
    let told = failing_write(&rt, rt.alloc(), 17, ErrorKind::Other);
    assert_eq!(rt; told.strip_prefix("0 "), Some(ANSWERS));
}

/// A read of the log gives thirty bytes: the second one reaches the end of line 4, and the eleventh that of line 14.
#[test]
fn each_read_of_the_log_may_fail(rt: HostRuntime) {
    for read in 0..11usize {
        let mut file = QUESTIONS.as_bytes();
        let trouble = Trouble::At(read, ErrorKind::Other);
        let mut input = Source::new(RUNS_OUT.as_bytes(), 30, trouble);
        let told = answers(&rt, rt.alloc(), &mut file, &mut input, Trouble::No);
        let written = if read < 2 { "" } else { EARLY };
        assert_eq!(rt; told.strip_prefix("2 wcptrace: read\n"), Some(written));
    }
}

/// Nothing is read of the log then.
#[test]
fn each_read_of_the_file_may_fail(rt: HostRuntime) {
    for read in 0..5usize {
        let trouble = Trouble::At(read, ErrorKind::Other);
        let mut file = Source::new(QUESTIONS.as_bytes(), 40, trouble);
        let mut input = Source::new(RUNS_OUT.as_bytes(), 30, Trouble::At(0, ErrorKind::Other));
        let told = answers(&rt, rt.alloc(), &mut file, &mut input, Trouble::No);
        assert_eq!(rt; told.as_str(), "2 wcptrace: two.toml: read\n");
    }
}
