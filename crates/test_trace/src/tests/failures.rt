//! Reads and writes that fail, and reads of one byte.
use super::runs::{ANSWER, FOUND, RUNS_OUT, answer};
use std::alloc::Global;
use std::io::ErrorKind;
use std::process::Abort;
use test_streams::{Sink, Source, Trouble};

/// The answer where reads give so many bytes at most, and have this trouble.
fn reading(rt: &impl Abort, alloc: Global, most: usize, trouble: Trouble) -> String {
    let mut input = Source::new(RUNS_OUT.as_bytes(), most, trouble);
    let mut output = Sink::new(alloc, 8, Trouble::No);
    answer(rt, alloc, &mut input, &mut output)
}

/// The answer where this write fails so, of writes of eight bytes.
fn failing_write(rt: &impl Abort, alloc: Global, write: usize, kind: ErrorKind) -> String {
    let mut input = Source::new(RUNS_OUT.as_bytes(), RUNS_OUT.len(), Trouble::No);
    let mut output = Sink::new(alloc, 8, Trouble::At(write, kind));
    answer(rt, alloc, &mut input, &mut output)
}

#[test]
fn one_byte_a_read_is_the_same(rt: HostRuntime) {
    let interrupted = Trouble::EveryOther(ErrorKind::Interrupted);
    let told = reading(&rt, rt.alloc(), 1, interrupted);
    assert_eq!(rt; told.as_str(), FOUND);
}

/// The moment is known with line 14 of the log, after 21 reads of sixteen bytes, and then nothing more is read.
#[test]
fn each_read_may_fail(rt: HostRuntime) {
    for read in 0..21usize {
        let told = reading(&rt, rt.alloc(), 16, Trouble::At(read, ErrorKind::Other));
        assert_eq!(rt; told.as_str(), "2 wcptrace: read\n");
    }
    let told = reading(&rt, rt.alloc(), 16, Trouble::At(21, ErrorKind::Other));
    assert_eq!(rt; told.as_str(), FOUND);
}

/// Whether this is told before the answer, of which so many writes came.
fn is_cut(told: &str, before: &str, writes: usize) -> bool {
    let Some(answer) = told.strip_prefix(before) else {
        return false;
    };
    ANSWER.starts_with(answer) && answer.len() == writes.saturating_mul(8)
}

#[test]
fn each_write_may_fail(rt: HostRuntime) {
    for write in 0..8usize {
        let told = failing_write(&rt, rt.alloc(), write, ErrorKind::Other);
        assert!(rt; is_cut(told.as_str(), "2 wcptrace: write\n", write));
    }
    let told = failing_write(&rt, rt.alloc(), 8, ErrorKind::Other);
    assert_eq!(rt; told.as_str(), FOUND);
}

/// The program ends without a word, and with the status of a closed pipe.
#[test]
fn each_write_may_meet_a_closed_pipe(rt: HostRuntime) {
    for write in 0..8usize {
        let told = failing_write(&rt, rt.alloc(), write, ErrorKind::BrokenPipe);
        assert!(rt; is_cut(told.as_str(), "141 ", write));
    }
}
