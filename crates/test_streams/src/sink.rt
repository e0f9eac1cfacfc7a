use crate::trouble::Trouble;
use std::alloc::Global;
use std::io::{Result, Write};

/// A writer that keeps what it takes.
#[derive(Drop)]
pub struct Sink {
    pub taken: Vec<u8>,
    /// The most bytes that a write takes.
    pub most: usize,
    trouble: Trouble,
    writes: usize,
    /// Which flush fails, and how.
    pub flush_trouble: Trouble,
    flushes: usize,
}

impl Sink {
    /// A writer that takes so many bytes a write at most.
    pub fn new(alloc: Global, most: usize, trouble: Trouble) -> Sink {
        Sink {
            taken: Vec::new(alloc),
            most,
            trouble,
            writes: 0,
            flush_trouble: Trouble::No,
            flushes: 0,
        }
    }

    /// How many flushes there were.
    pub fn flushes(&self) -> usize {
        self.flushes
    }
}

impl Write for Sink {
    fn write(&mut self, buf: &[u8]) -> Result<usize> {
        let write = self.writes;
        self.writes = write.saturating_add(1);
        self.trouble.at(write)?;
        let most = self.most.min(buf.len());
        self.taken.write(&buf[..most])
    }

    fn flush(&mut self) -> Result<()> {
        let flush = self.flushes;
        self.flushes = flush.saturating_add(1);
        self.flush_trouble.at(flush)
    }
}

/// Where a program writes, and where it says why there is no answer.
#[derive(Drop)]
pub struct Sinks {
    pub output: Sink,
    pub errors: Sink,
}

impl Sinks {
    /// Writers of a byte at a time, with these troubles.
    pub fn new(alloc: Global, output: Trouble, errors: Trouble) -> Sinks {
        Sinks {
            output: Sink::new(alloc, 1, output),
            errors: Sink::new(alloc, 1, errors),
        }
    }
}
