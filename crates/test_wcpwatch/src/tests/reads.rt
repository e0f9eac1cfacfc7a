//! Input that comes in pieces, that fails, or that is too large.

use super::rows::{Row, answered, refused_texts};
use super::runs::{Answer, answer_of, gives, refused, same_number};
use std::io::{self, ErrorKind, Read};
use std::process::Abort;
use std::sync::Wait;
use std::thread::Threads;
use test_streams::{Sinks, Source, Trouble};

/// What is said where a read fails.
const UNREAD: &str = "wcpwatch: read\n";

/// Gives a row's text to the program byte by byte, with this trouble.
fn by_bytes<R: AllocGlobal + Threads + Wait + Sync + Abort>(
    rt: &R,
    row: &Row,
    trouble: Trouble,
    answer: Answer,
    place: usize,
) {
    let mut input = Source::new(row.text.as_bytes(), 1, trouble);
    let mut sinks = Sinks::new(rt.alloc(), Trouble::No, Trouble::No);
    gives(
        rt, row.word, &mut input, &mut sinks, answer, row.name, place,
    );
}

/// Gives each text byte by byte, without a trouble, and with reads that are interrupted: each of them is made again.
fn same_by_bytes<R: AllocGlobal + Threads + Wait + Sync + Abort>(rt: &R, rows: &[Row]) {
    let interrupted = Trouble::EveryOther(ErrorKind::Interrupted);
    for row in rows {
        by_bytes(rt, row, Trouble::No, answer_of(row), 0);
        by_bytes(rt, row, interrupted, answer_of(row), 1);
    }
}

#[test]
fn one_byte_at_a_time_is_the_same(rt: HostRuntime) {
    same_by_bytes(&rt, answered());
    same_by_bytes(&rt, refused_texts());
}

/// Lets each read of a row's text fail in turn, that at its end too.
fn each_read_of<R: AllocGlobal + Threads + Wait + Sync + Abort>(rt: &R, row: &Row) {
    for read in 0..row.text.len().saturating_add(1) {
        let failing = Trouble::At(read, ErrorKind::Other);
        by_bytes(rt, row, failing, refused(UNREAD), read);
    }
}

/// Lets each read of each text fail in turn.
fn each_read_of_each<R: AllocGlobal + Threads + Wait + Sync + Abort>(rt: &R, rows: &[Row]) {
    for row in rows {
        each_read_of(rt, row);
    }
}

#[test]
fn each_read_may_fail(rt: HostRuntime) {
    each_read_of_each(&rt, answered());
    each_read_of_each(&rt, refused_texts());
}

#[test]
fn reads_are_tried_so_often(rt: HostRuntime) {
    let mut input = Source::new(b"", 1, Trouble::Always(ErrorKind::Interrupted));
    let mut sinks = Sinks::new(rt.alloc(), Trouble::No, Trouble::No);
    gives(
        &rt,
        "single",
        &mut input,
        &mut sinks,
        refused(UNREAD),
        "interrupted",
        0,
    );
    same_number(&rt, input.reads(), 4_194_304, "interrupted", 0);
}

/// Gives the program a text that stands in no row.
fn reads<R: AllocGlobal + Threads + Wait + Sync + Abort, I: Read>(
    rt: &R,
    word: &str,
    input: &mut I,
    fault: &str,
    case: &str,
) {
    let mut sinks = Sinks::new(rt.alloc(), Trouble::No, Trouble::No);
    gives(rt, word, input, &mut sinks, refused(fault), case, 0);
}

/// What is said of a text that is too large.
const TOO_LARGE: &str = "wcpwatch: toolarge\n";

/// A text that is a byte too large is refused before another read, which would fail, and so is a text without an end.
/// The largest text is read.
fn large_texts<R: AllocGlobal + Threads + Wait + Sync + Abort>(rt: &R, word: &str) {
    let mut broken = Source::new(b"", 1, Trouble::Always(ErrorKind::Other));
    let mut large = io::repeat(b'x').take(2_097_153).chain(&mut broken);
    reads(rt, word, &mut large, TOO_LARGE, "a byte too much");
    reads(rt, word, &mut io::repeat(b'x'), TOO_LARGE, "without an end");
    let mut full = io::repeat(b'x').take(2_097_152);
    reads(
        rt,
        word,
        &mut full,
        "wcpwatch: line 1: header\n",
        "the largest text",
    );
}

#[test]
fn one_byte_too_much_is_refused_at_once(rt: HostRuntime) {
    for word in ["single", "run", "replay"] {
        large_texts(&rt, word);
    }
}
