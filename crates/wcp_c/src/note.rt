//! A note for the checker, in a caller's memory.
ghost use Rattle.std.specs.Prelude.{◌≡◌, ◌<◌, ◌↔◌, IsSome, IfSome, IsTrue, ◌==◌, if◌then◌else◌, nat_eq};
ghost use Rattle.wcp_c.specs.Notes.{HoldsNote, item_of};

use wcp_clock::{Clock, Item, MAX_PROCS, Note};

/// The first word of a note.
pub const NOTE_MAGIC: u32 = 0x5743_4E32;

/// A snapshot. The probe numbers what is pending in the same way.
const SNAPSHOT: u32 = 1;

/// A close mark.
const CLOSE_MARK: u32 = 2;

/// The mark of a process that was lost.
const LOST_MARK: u32 = 3;

/// What a process emits, as it is sent to the checker, with a tag of the caller's own.
#[repr(C)]
#[derive(Clone, Copy)]
pub struct WcpNote {
    pub magic: u32,
    pub processes: u32,
    pub process: u32,
    pub kind: u32,
    pub number: u32,
    pub watched: u32,
    pub watch: u64,
    pub tag: u64,
    pub clock: [u32; MAX_PROCS],
}

impl WcpNote {
    /// The note and its process, if the memory holds one.
    pub fn item(&self) -> Option<Item>
        ensures held { IsSome result ↔ HoldsNote self.now }
        ensures item { IfSome result (λ item. item ≡ item_of self.now) }
    {
        if !self.is_laid_out() {
            return None;
        }
        let (from, count) = (self.process, self.number);
        match self.kind {
            SNAPSHOT => Some(Item {
                from,
                note: Note::Snap {
                    number: count,
                    clock: Clock::from_padded(&self.clock, self.processes),
                },
            }),
            CLOSE_MARK => Some(Item {
                from,
                note: Note::Close { count },
            }),
            _ => Some(Item {
                from,
                note: Note::Lost { count },
            }),
        }
    }

    /// Whether the memory is laid out as a note's is.
    fn is_laid_out(&self) -> bool
        ensures { IsTrue result ↔ HoldsNote self.now }
    {
        if self.magic != NOTE_MAGIC
            || self.processes as usize > MAX_PROCS
            || self.process >= self.processes
        {
            return false;
        }
        if self.kind < SNAPSHOT || self.kind > LOST_MARK || self.watched > 1 {
            return false;
        }
        self.clock[self.components()..]
            .iter()
            .all(|count| *count == 0)
    }

    /// How many components its clock has: only a snapshot has any.
    fn components(&self) -> usize
        ensures { result ≡ (if self.now.kind == 1 then self.now.processes else 0) }
    {
        if self.kind == SNAPSHOT {
            self.processes as usize
        } else {
            0
        }
    }
}
