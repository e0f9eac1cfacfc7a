use std::io::Write;
use std::time::{Clock, Duration, Instant};

/// Tells how many lines were read: `PROGRAM: N lines read`, a line each, the first a second after the first call of
/// `tell`, and then at most one a second. Where the clock can't be read or a line can't be written, nothing is told.
#[derive(Drop)]
pub struct ProgressTeller<'a, C, E> {
    program: &'a str,
    clock: &'a C,
    errors: E,
    lines: u64,
    last: Option<Instant>,
}

impl<'a, C: Clock, E: Write> ProgressTeller<'a, C, E> {
    /// Tells on `errors`.
    pub fn new(program: &'a str, clock: &'a C, errors: E) -> ProgressTeller<'a, C, E> {
        ProgressTeller {
            program,
            clock,
            errors,
            lines: 0,
            last: None,
        }
    }

    /// Counts the lines that end in these bytes, and tells how many there were, if it's time.
    pub fn tell(&mut self, bytes: &[u8]) {
        let ended = bytes.iter().filter(|byte| **byte == b'\n').count();
        self.lines = self.lines.saturating_add(ended as u64);
        let Ok(now) = Instant::now(self.clock) else {
            return;
        };
        if let Some(last) = self.last {
            if now.duration_since(last) < Duration::from_secs(1) {
                return;
            }
            let _ = writeln!(self.errors, "{}: {} lines read", self.program, self.lines);
        }
        self.last = Some(now);
    }
}
