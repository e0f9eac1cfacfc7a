ghost use Rattle.std.specs.Prelude.{◌≡◌, ◌↔◌, length, IfOk, IfSome, IsSome, IsTrue};
ghost use Rattle.wcp_clock.specs.Limits.{most_processes};
ghost use Rattle.wcp_queue.specs.Checker.{IsSoundChecker};
ghost use Rattle.wcp_queue.specs.Parts.{state_of, HaveSoundCounts};

use super::{Checker, members_of};
use crate::floor::Floor;
use crate::queue::Queues;
use crate::sound::{are_apart, are_few_taken, are_some_watched, is_sound_search};
use std::alloc::{AllocError, Global};
use wcp_clock::{Clock, MAX_PROCS, PerProcess};
use wcp_model::Watched;

/// What a checker holds, in plain values, so that it can be saved and made again. Each watched process
/// has a row, by rising number.
#[derive(Debug, Drop)]
pub struct CheckerParts {
    /// How many processes there are.
    pub processes: u32,
    /// Which of them are watched.
    pub watched: Watched,
    /// The clocks of the snapshots of each row that wait to be its head, the oldest first.
    pub queues: Vec<Vec<Clock>>,
    /// The floor under the heads, for each row.
    pub floor: [u32; MAX_PROCS],
    /// Whether a row has a head, whose interval is then the floor's.
    pub heads: [bool; MAX_PROCS],
    /// How many component tests were made.
    pub tests: u64,
    /// How many snapshots of each process were taken.
    pub taken: [u64; MAX_PROCS],
    /// Whether the close mark of each process was taken.
    pub closed: [bool; MAX_PROCS],
    /// Whether the mark that each process was lost was taken.
    pub lost: [bool; MAX_PROCS],
    /// The interval of each row in the cut that was found.
    pub found: Option<PerProcess<u32>>,
    /// Whether the checker was starved.
    pub starved: bool,
}

impl Checker {
    /// The parts of the checker. `Err` where memory runs out.
    pub fn parts(&self, alloc: Global) -> Result<CheckerParts, AllocError>
        ensures value { IfOk result (λ parts. state_of parts ≡ self.now) }
        ensures sound { IfOk result (λ parts. IsSoundChecker (state_of parts)) }
    {
        let queues = self.queues.to_rows(alloc)?;
        Ok(CheckerParts {
            processes: self.processes,
            watched: self.watched,
            queues,
            floor: self.floor.components,
            heads: self.floor.heads,
            tests: self.floor.tests,
            taken: self.taken,
            closed: self.closed,
            lost: self.lost,
            found: self.found,
            starved: self.starved,
        })
    }

    /// The checker of these parts: that of which they are the parts, if there is one. `None` where they are
    /// not sound: then no checker has them. Sound parts that were made up, and are not those of a checker,
    /// make one that stands for no list of items. `Err` where memory runs out.
    pub fn from_parts(alloc: Global, parts: &CheckerParts) -> Result<Option<Checker>, AllocError>
        ensures value { IfOk result (λ made. IfSome made (λ checker. checker ≡ state_of parts.now)) }
        ensures sound { IfOk result (λ made. IsSome made ↔ IsSoundChecker (state_of parts.now)) }
    {
        if !have_sound_counts(parts) {
            return Ok(None);
        }
        let members = members_of(parts.processes, &parts.watched);
        let queues = Queues::of(alloc, &parts.queues)?;
        let floor = Floor {
            components: parts.floor,
            heads: parts.heads,
            tests: parts.tests,
        };
        if !is_sound_search(members.len(), &queues, &floor, &parts.found, &parts.taken) {
            return Ok(None);
        }
        Ok(Some(Checker {
            processes: parts.processes,
            watched: parts.watched,
            members,
            queues,
            floor,
            taken: parts.taken,
            closed: parts.closed,
            lost: parts.lost,
            found: parts.found,
            starved: parts.starved,
        }))
    }
}

/// Whether the numbers of processes, the counts and the marks are those of a checker.
fn have_sound_counts(parts: &CheckerParts) -> bool
    ensures sound { IsTrue result ↔ HaveSoundCounts (state_of parts.now) }
    ensures counts { IsTrue result → length parts.now.taken ≡ most_processes }
    ensures marks { IsTrue result → length parts.now.closed ≡ most_processes }
    ensures losses { IsTrue result → length parts.now.lost ≡ most_processes }
{
    parts.processes as usize <= MAX_PROCS
        && are_some_watched(parts.processes, &parts.watched)
        && are_few_taken(&parts.taken)
        && are_apart(&parts.closed, &parts.lost)
}
