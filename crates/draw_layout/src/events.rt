//! The communication events of an order, and the intervals between them.
ghost use Rattle.std.specs.Prelude.{◌≡◌, ◌≤◌, cond, length, All, IfOk};
ghost use Rattle.wcp_clock.specs.Limits.{most_processes, most_steps};
ghost use Rattle.draw_layout.specs.Events.{is_event, AreIntervals};
ghost use Rattle.wcp_model.specs.WorkloadComputation.{IsWithin};

use std::alloc::{AllocError, Global};
use wcp_clock::MAX_PROCS;
use wcp_model::{Action, Task};

/// Whether the action is a communication event: a send or a receive.
pub fn is_event(action: Action) -> bool
    ensures { result ≡ is_event action }
{
    match action {
        Action::Observe(_) => false,
        Action::Send(_) | Action::Recv(_) => true,
    }
}

/// For each task of a fit order of `n` processes the interval that its process is in. `Err` where
/// memory runs out.
pub fn intervals(alloc: Global, n: u32, order: &[Task]) -> Result<Vec<u32>, AllocError>
    requires few { n ≤ most_processes }
    requires few_tasks { length order.now ≤ most_steps }
    requires within { All (IsWithin n) order.now }
    ensures { IfOk result (λ intervals. AreIntervals n order.now intervals.items) }
{
    let mut events = [0; MAX_PROCS];
    let mut intervals = Vec::with_capacity(alloc, order.len())?;
    for task in order {
        let p = task.p as usize;
        intervals.push(events[p])?;
        events[p] += ended(task.action);
    }
    Ok(intervals)
}

/// How many intervals the action ends.
fn ended(action: Action) -> u32
    ensures { result ≡ cond (is_event action) 1 0 }
{
    if is_event(action) { 1 } else { 0 }
}
