use std::io;
use wcp_clock::Note;

/// What was taken, so that no call is left out: how many notes, and the sum of their places.
#[derive(Clone, Copy)]
pub struct Taken {
    pub notes: u32,
    sum: u64,
}

impl Taken {
    pub fn nothing() -> Taken {
        Taken { notes: 0, sum: 0 }
    }

    pub fn add(&mut self, note: &Note) {
        self.notes = self.notes.wrapping_add(1);
        self.sum = self.sum.wrapping_add(u64::from(note.place()));
    }

    pub fn print<R: Print>(self, rt: &R) -> io::Result<()> {
        println!(rt; "taken {} sum {}", self.notes, self.sum)
    }
}
