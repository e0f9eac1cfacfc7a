use draw_cli::drive;
use std::alloc::Global;
use std::io::Read;
use std::process::Abort;

/// The words that ask for the picture of two processes.
pub const TWO: &[&str] = &["wcpdraw", "--names", "ann,ben"];

/// Both are true at once behind the message.
pub const FOUND: &str = "wcp 1\nprocs 2\np 0 true\np 0 send 1\np 0 true\np 1 recv 0\np 1 true\n";

/// What the program answers.
#[derive(Drop)]
pub struct Answer {
    pub status: u8,
    pub output: Vec<u8>,
    pub errors: Vec<u8>,
}

/// What it answers to this input, where it is asked for the picture of two processes.
pub fn answer_to<I: Read>(alloc: Global, input: &mut I) -> Answer {
    let mut output = Vec::new(alloc);
    let mut errors = Vec::new(alloc);
    let status = drive(alloc, TWO, input, &mut output, &mut errors);
    Answer {
        status,
        output,
        errors,
    }
}

/// Compares a text.
pub fn assert_text(rt: &impl Abort, text: &[u8], wanted: &[u8]) {
    assert_eq!(rt; text, wanted);
}

/// Nothing was printed, and the line of errors says why.
pub fn assert_refused(rt: &impl Abort, answer: &Answer, line: &[u8]) {
    assert!(rt; answer.status == 2 && answer.output.is_empty());
    assert_text(rt, &answer.errors, line);
}

/// A picture was printed, and no line of errors.
pub fn assert_drawn(rt: &impl Abort, answer: &Answer) {
    assert!(rt; answer.status == 0 && answer.errors.is_empty());
    assert!(rt; answer.output.starts_with(b"<svg "));
}
