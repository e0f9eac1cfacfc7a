//! Output that is taken in pieces, or not taken.

use super::rows::{Row, answered, refused_texts};
use super::runs::{Answer, answer_of, gives, same_number};
use std::io::ErrorKind;
use std::process::Abort;
use std::sync::Wait;
use std::thread::Threads;
use test_streams::{Sinks, Trouble};

/// Runs the program on the row's text with these writers, compares all that it gives, and tells how often it flushed.
fn agrees<R: AllocGlobal + Threads + Wait + Sync + Abort>(
    rt: &R,
    row: &Row,
    mut sinks: Sinks,
    answer: Answer,
    place: usize,
) -> usize {
    let mut input = row.text.as_bytes();
    gives(
        rt, row.word, &mut input, &mut sinks, answer, row.name, place,
    );
    sinks.output.flushes()
}

/// The answer where no more than this is taken of the output.
fn unwritten(front: &[u8]) -> Answer {
    Answer {
        output: front,
        errors: b"wcpwatch: write\n",
        status: 2,
    }
}

/// The answer where no more than this is taken of the errors.
fn unsaid(front: &[u8]) -> Answer {
    Answer {
        output: b"",
        errors: front,
        status: 2,
    }
}

/// Takes the output byte by byte, with this trouble: it is whole, and flushed once.
fn same_by_bytes<R: AllocGlobal + Threads + Wait + Sync + Abort>(
    rt: &R,
    row: &Row,
    trouble: Trouble,
) {
    let sinks = Sinks::new(rt.alloc(), trouble, Trouble::No);
    let flushes = agrees(rt, row, sinks, answer_of(row), 0);
    same_number(rt, flushes, 1, row.name, 0);
}

/// Takes the output of each text byte by byte.
fn each_by_bytes<R: AllocGlobal + Threads + Wait + Sync + Abort>(rt: &R, rows: &[Row]) {
    for row in rows {
        same_by_bytes(rt, row, Trouble::No);
        same_by_bytes(rt, row, Trouble::EveryOther(ErrorKind::Interrupted));
    }
}

/// A write that is interrupted is made again.
#[test]
fn one_byte_at_a_time_is_the_same(rt: HostRuntime) {
    each_by_bytes(&rt, answered());
}

/// Lets each write of a row's output fail in turn.
fn each_write_of<R: AllocGlobal + Threads + Wait + Sync + Abort>(rt: &R, row: &Row) {
    let whole = row.output.as_bytes();
    for write in 0..whole.len() {
        let sinks = Sinks::new(
            rt.alloc(),
            Trouble::At(write, ErrorKind::Other),
            Trouble::No,
        );
        agrees(rt, row, sinks, unwritten(&whole[..write]), write);
    }
}

/// Lets each write of each output fail in turn.
fn each_write_of_each<R: AllocGlobal + Threads + Wait + Sync + Abort>(rt: &R, rows: &[Row]) {
    for row in rows {
        each_write_of(rt, row);
    }
}

#[test]
fn each_write_may_fail(rt: HostRuntime) {
    each_write_of_each(&rt, answered());
}

/// Lets the flush of each output fail.
fn each_flush<R: AllocGlobal + Threads + Wait + Sync + Abort>(rt: &R, rows: &[Row]) {
    for row in rows {
        let mut sinks = Sinks::new(rt.alloc(), Trouble::No, Trouble::No);
        sinks.output.flush_trouble = Trouble::At(0, ErrorKind::Other);
        agrees(rt, row, sinks, unwritten(row.output.as_bytes()), 0);
    }
}

#[test]
fn the_flush_may_fail(rt: HostRuntime) {
    each_flush(&rt, answered());
}

/// Takes nothing of the output, with this trouble of the errors, and compares what is said.
fn takes_nothing<R: AllocGlobal + Threads + Wait + Sync + Abort>(
    rt: &R,
    row: &Row,
    trouble: Trouble,
    answer: Answer,
) {
    let mut sinks = Sinks::new(rt.alloc(), Trouble::No, trouble);
    sinks.output.most = 0;
    agrees(rt, row, sinks, answer, 0);
}

/// Takes nothing of each output, where the errors are taken and where they aren't.
fn each_takes_nothing<R: AllocGlobal + Threads + Wait + Sync + Abort>(rt: &R, rows: &[Row]) {
    for row in rows {
        takes_nothing(rt, row, Trouble::No, unwritten(b""));
        takes_nothing(rt, row, Trouble::Always(ErrorKind::Other), unsaid(b""));
    }
}

/// The status stays where the errors aren't taken either.
#[test]
fn a_write_of_nothing_fails(rt: HostRuntime) {
    each_takes_nothing(&rt, answered());
}

/// Lets each write of the line that says why a text is refused fail in turn.
fn each_write_of_errors<R: AllocGlobal + Threads + Wait + Sync + Abort>(rt: &R, row: &Row) {
    let whole = row.errors.as_bytes();
    for write in 0..whole.len() {
        let sinks = Sinks::new(
            rt.alloc(),
            Trouble::No,
            Trouble::At(write, ErrorKind::Other),
        );
        agrees(rt, row, sinks, unsaid(&whole[..write]), write);
    }
}

/// Lets each write of each such line fail in turn.
fn each_write_of_all_errors<R: AllocGlobal + Threads + Wait + Sync + Abort>(rt: &R, rows: &[Row]) {
    for row in rows {
        each_write_of_errors(rt, row);
    }
}

/// The status stays, and a prefix of the line was taken.
#[test]
fn each_write_of_errors_may_fail(rt: HostRuntime) {
    each_write_of_all_errors(&rt, refused_texts());
}
