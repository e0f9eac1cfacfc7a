//! Listings of tasks that are in a fit order as they stand.
ghost use Rattle.std.specs.Prelude.{◌≡◌, ◌*◌, ◌≤◌, ◌↔◌, length, replicate, All, IsTrue};
ghost use Rattle.wcp_clock.specs.Limits.{most_processes};
ghost use Rattle.wcp_model.specs.WorkloadComputation.{IsFitOrder, IsWithin};

use crate::channels::{count, is_ready};
use wcp_clock::MAX_PROCS;
use wcp_model::Task;

/// The most channels that there are between processes.
const MOST_CHANNELS: usize = MAX_PROCS * MAX_PROCS;

/// Whether the tasks of n processes are in a fit order as they are listed: one look at each task.
pub fn is_fit(n: u32, tasks: &[Task]) -> bool
    requires few { n ≤ most_processes }
    requires within { All (IsWithin n) tasks.now }
    ensures { IsTrue result ↔ IsFitOrder tasks.now tasks.now }
{
    let mut in_transit = [0; MOST_CHANNELS];
    follows(&mut in_transit[..(n * n) as usize], n, tasks)
}

/// Whether each receive follows its send, where nothing is in transit before the first task.
fn follows(in_transit: &mut [usize], n: u32, tasks: &[Task]) -> bool
    requires few { n ≤ most_processes }
    requires within { All (IsWithin n) tasks.now }
    requires none { in_transit.old ≡ replicate (n * n) 0 }
    ensures { IsTrue result ↔ IsFitOrder tasks.now tasks.now }
{
    for task in tasks {
        if !is_ready(in_transit, n, task.p, task.action) {
            return false;
        }
        count(in_transit, n, task.p, task.action);
    }
    true
}
