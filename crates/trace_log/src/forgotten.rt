use thiserror::Error;

/// An event knows an event of another host, but not all that this knew: it forgets. The lines of both, counted from 1.
#[derive(Clone, Copy, Debug, PartialEq, Eq, Error)]
#[error("line {line}: forgets: it knows the event of line {of}, but not all that this knew")]
pub struct Forgotten {
    pub line: u64,
    pub of: u64,
}
