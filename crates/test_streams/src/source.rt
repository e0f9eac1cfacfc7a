use crate::trouble::Trouble;
use std::io::{Read, Result};

/// A reader over a text.
#[derive(Drop)]
pub struct Source<'a> {
    rest: &'a [u8],
    most: usize,
    trouble: Trouble,
    reads: usize,
}

impl<'a> Source<'a> {
    /// A reader of the whole text that gives so many bytes a read at most.
    pub fn new(text: &'a [u8], most: usize, trouble: Trouble) -> Source<'a> {
        Source {
            rest: text,
            most,
            trouble,
            reads: 0,
        }
    }

    /// How many reads there were.
    pub fn reads(&self) -> usize {
        self.reads
    }
}

impl Read for Source<'_> {
    fn read(&mut self, buf: &mut [u8]) -> Result<usize> {
        let read = self.reads;
        self.reads = read.saturating_add(1);
        self.trouble.at(read)?;
        let most = self.most.min(buf.len());
        self.rest.read(&mut buf[..most])
    }
}
