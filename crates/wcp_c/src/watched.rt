//! The processes that a checker watches, as a caller names them.
ghost use Rattle.std.specs.Prelude.{◌<◌, ◌≤◌, ◌↔◌, IsTrue};
ghost use Rattle.wcp_clock.specs.Limits.{most_processes};
ghost use Rattle.wcp_model.specs.Watched.{AreSomeWatched};
ghost use Rattle.wcp_c.specs.Checkers.{IsSetOf, NamesProcesses};

use wcp_clock::ProcessSet;
use wcp_model::Watched;

/// Whether each of these, of which there is one at least, is the number of a process.
pub fn are_processes(processes: u32, numbers: &[u32]) -> bool
    ensures { IsTrue result ↔ NamesProcesses processes numbers.now }
{
    !numbers.is_empty() && numbers.iter().all(|number| *number < processes)
}

/// The set of these numbers, which name processes of so many.
pub fn watched_of(processes: u32, numbers: &[u32]) -> Watched
    requires few { processes ≤ most_processes }
    requires processes { NamesProcesses processes numbers.now }
    ensures set { IsSetOf numbers.now result }
    ensures some { AreSomeWatched processes result }
{
    set_of(processes, numbers)
}

/// The set of these numbers.
#[tactic(auto, using(crate::proofs::Members::members_more))]
fn set_of(processes: u32, numbers: &[u32]) -> ProcessSet
    requires few { processes ≤ most_processes }
    requires processes { NamesProcesses processes numbers.now }
    ensures { IsSetOf numbers.now result }
{
    let mut set = ProcessSet::none();
    for number in numbers {
        set = set.with(*number);
    }
    set
}
