//! The send of each receive.
ghost use Rattle.std.specs.Prelude.{◌+◌, ◌≤◌, List, All, IfOk};
ghost use Rattle.wcp_clock.specs.Limits.{most_processes};
ghost use Rattle.draw_layout.specs.Messages.{AreInTransit, AreSends, IsNext, IsSendOf};
ghost use Rattle.wcp_model.specs.declared.workload.Task.{Task};
ghost use Rattle.wcp_model.specs.WorkloadComputation.{IsFitOrder, IsWithin};

use crate::place_queue::PlaceQueue;
use std::alloc::{AllocError, Global};
use wcp_model::{Action, Task};
use wcp_order::channel;

/// For each task of a fit order of `n` processes a place in it: for a receive, the place of the send
/// of its message, and for all others their own. `Err` where memory runs out.
pub fn sends(alloc: Global, n: u32, order: &[Task]) -> Result<Vec<usize>, AllocError>
    requires few { n ≤ most_processes }
    requires within { All (IsWithin n) order.now }
    requires fit { IsFitOrder order.now order.now }
    ensures { IfOk result (λ sent. AreSends order.now sent.items) }
{
    let mut in_transit = channels(alloc, n)?;
    follow(alloc, &mut in_transit, n, order)
}

/// The same over channels with nothing in transit.
fn follow(
    alloc: Global,
    in_transit: &mut [PlaceQueue],
    n: u32,
    order: &[Task],
) -> Result<Vec<usize>, AllocError>
    requires few { n ≤ most_processes }
    requires within { All (IsWithin n) order.now }
    requires fit { IsFitOrder order.now order.now }
    requires none { AreInTransit n order.now 0 in_transit.old }
    ensures { IfOk result (λ sent. AreSends order.now sent.items) }
{
    let mut sent = Vec::with_capacity(alloc, order.len())?;
    for (place, task) in order.iter().enumerate() {
        sent.push(send_of(in_transit, n, place, *task)?)?;
    }
    Ok(sent)
}

/// The channels between `n` processes, with nothing in transit. `Err` where memory runs out.
fn channels(alloc: Global, n: u32) -> Result<Vec<PlaceQueue>, AllocError>
    requires { n ≤ most_processes }
    ensures { IfOk result (λ queues. (order : List Task) → AreInTransit n order 0 queues.items) }
{
    let mut in_transit = Vec::with_capacity(alloc, (n * n) as usize)?;
    for _ in 0..n * n {
        in_transit.push(PlaceQueue::new(alloc))?;
    }
    Ok(in_transit)
}

/// The place of the send of the message, where the task at this place receives one, and else the place
/// itself. `Err` where memory runs out.
fn send_of(
    in_transit: &mut [PlaceQueue],
    n: u32,
    place: usize,
    task: Task,
) -> Result<usize, AllocError>
    requires few { n ≤ most_processes }
    requires next { (order : List Task) × IsNext n order place task × AreInTransit n order place in_transit.old }
    ensures { IfOk result (λ sent. (order : List Task) → IsNext n order place task
        → AreInTransit n order place in_transit.old
        → AreInTransit n order (place + 1) in_transit.new × IsSendOf order place task.action sent) }
{
    match task.action {
        Action::Observe(_) => {}
        Action::Send(to) => in_transit[channel(n, task.p, to)].push(place)?,
        Action::Recv(from) => return Ok(in_transit[channel(n, from, task.p)].pop()),
    }
    Ok(place)
}
