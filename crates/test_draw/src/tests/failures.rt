use super::runs::{Answer, FOUND, TWO, answer_to, assert_drawn, assert_refused, assert_text};
use draw_cli::drive;
use std::alloc::Global;
use std::io::{self, ErrorKind};
use std::process::Abort;
use test_streams::{Sink, Source, Trouble};

/// What the program answers where reads give so many bytes at most, and have this trouble.
fn troubled(alloc: Global, most: usize, trouble: Trouble) -> Answer {
    let mut input = Source::new(FOUND.as_bytes(), most, trouble);
    answer_to(alloc, &mut input)
}

/// What the program answers where this read fails, of reads of sixteen bytes.
fn failing_read(alloc: Global, read: usize) -> Answer {
    troubled(alloc, 16, Trouble::At(read, ErrorKind::Other))
}

/// Where this read fails, the program says so.
fn assert_failing_read(rt: &impl Abort, alloc: Global, read: usize) {
    assert_refused(rt, &failing_read(alloc, read), b"wcpdraw: read\n");
}

/// The text has four reads of sixteen bytes or less, and a fifth tells its end.
#[test]
fn each_read_may_fail(rt: HostRuntime) {
    for read in 0..5usize {
        assert_failing_read(&rt, rt.alloc(), read);
    }
    assert_drawn(&rt, &failing_read(rt.alloc(), 5));
}

#[test]
fn one_byte_a_read_is_the_same(rt: HostRuntime) {
    let whole = answer_to(rt.alloc(), &mut FOUND.as_bytes());
    assert_drawn(&rt, &whole);
    let trouble = Trouble::EveryOther(ErrorKind::Interrupted);
    let parts = troubled(rt.alloc(), 1, trouble);
    assert_drawn(&rt, &parts);
    assert_text(&rt, &parts.output, &whole.output);
}

#[test]
fn a_text_that_never_ends(rt: HostRuntime) {
    let answer = answer_to(rt.alloc(), &mut io::repeat(b'x'));
    assert_refused(&rt, &answer, b"wcpdraw: toolarge\n");
}

/// Where this write fails, of writes of 256 bytes, those before it are all that was written.
fn assert_failing_write(rt: &impl Abort, alloc: Global, write: usize) {
    let mut output = Sink::new(alloc, 256, Trouble::At(write, ErrorKind::Other));
    let mut errors: Vec<u8> = Vec::new(alloc);
    let status = drive(alloc, TWO, &mut FOUND.as_bytes(), &mut output, &mut errors);
    assert!(rt; status == 2 && output.taken.len() == write.saturating_mul(256));
    assert_text(rt, &errors, b"wcpdraw: write\n");
}

#[test]
fn each_write_may_fail(rt: HostRuntime) {
    for write in 0..6usize {
        assert_failing_write(&rt, rt.alloc(), write);
    }
}

/// Where this write finds that nobody reads, those before it are all that was written, and nothing is said.
fn assert_closed_pipe(rt: &impl Abort, alloc: Global, write: usize) {
    let mut output = Sink::new(alloc, 256, Trouble::At(write, ErrorKind::BrokenPipe));
    let mut errors: Vec<u8> = Vec::new(alloc);
    let status = drive(alloc, TWO, &mut FOUND.as_bytes(), &mut output, &mut errors);
    assert!(rt; status == 141 && output.taken.len() == write.saturating_mul(256));
    assert!(rt; errors.is_empty());
}

#[test]
fn each_write_may_meet_a_closed_pipe(rt: HostRuntime) {
    for write in 0..6usize {
        assert_closed_pipe(&rt, rt.alloc(), write);
    }
}
