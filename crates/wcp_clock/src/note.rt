ghost use Rattle.std.specs.Prelude.{◌≡◌};
ghost use Rattle.wcp_clock.specs.Notes.{is_last, place_of};

use crate::clock::Clock;

/// What a process emits.
#[derive(Clone, Copy, Debug, PartialEq, Eq)]
pub enum Note {
    /// The process's condition holds in a state that has this clock. Snapshots are numbered from 0.
    Snap { number: u32, clock: Clock },
    /// The process is closed, and has emitted `count` snapshots.
    Close { count: u32 },
    /// The process's probe was dropped before it closed; `count` of its snapshots came so far.
    Lost { count: u32 },
}

impl Note {
    /// Its place among the notes of its process: a snapshot's number, or the count of a mark that ends them.
    pub fn place(&self) -> u32
        ensures { result ≡ place_of self.now }
    {
        match *self {
            Note::Snap { number, .. } => number,
            Note::Close { count } | Note::Lost { count } => count,
        }
    }

    /// Whether no note of its process may follow it.
    pub fn is_last(&self) -> bool
        ensures { result ≡ is_last self.now }
    {
        matches!(self, Note::Close { .. } | Note::Lost { .. })
    }
}

/// A note, and the process that emitted it.
#[derive(Clone, Copy, Debug, PartialEq, Eq)]
pub struct Item {
    pub from: u32,
    pub note: Note,
}
