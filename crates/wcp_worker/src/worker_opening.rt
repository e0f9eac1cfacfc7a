ghost use Rattle.std.specs.Prelude.{◌≡◌, ℕ, ◌<◌, ◌≤◌, [], length, map, slice_index_or, All, IfOk, OnOk};
ghost use Rattle.wcp_clock.specs.Limits.{most_processes, most_steps};
ghost use Rattle.wcp_model.specs.WorkloadComputation.{CouldBeRead};
ghost use Rattle.wcp_relay.specs.LiveProbe.{AreFreshProbes};
ghost use Rattle.wcp_worker.specs.declared.worker.Worker.{Worker};
ghost use Rattle.wcp_worker.specs.Opening.{IsIdle, HasTasks, HasRow, HaveLanes};
ghost use Rattle.wcp_worker.specs.Workers.{AreWorkersOf};

use crate::lane_ends::Outbox;
use crate::mailbox::Mailbox;
use crate::new_lane::{count_sends, new_lane};
use crate::player::Player;
use crate::worker::Worker;
use std::alloc::{AllocError, Global};
use wcp_model::{Task, Workload};
use wcp_relay::LiveProbe;

/// The workers of a workload, by the numbers of its processes: each has the probe of its process, what it does, and
/// the lanes to those that it sends to and from those that send to it. A lane has room for all that is sent on it.
/// `Err` where memory runs out.
pub fn open_workers(
    alloc: Global,
    workload: &Workload,
    probes: Vec<LiveProbe>,
) -> Result<Vec<Worker>, AllocError>
    requires read { CouldBeRead workload.now.plan.n workload.now.tasks.items }
    requires probes { AreFreshProbes workload.now.plan.n workload.now.plan.watched workload.now.plan.flag probes.items }
    ensures { IfOk result (λ workers. AreWorkersOf workload.now.tasks.items probes.items workers.items) }
{
    let mut workers = idle_workers(alloc, probes)?;
    give_tasks(&mut workers, &workload.tasks)?;
    open_lanes(alloc, &mut workers)?;
    Ok(workers)
}

fn idle_workers(alloc: Global, probes: Vec<LiveProbe>) -> Result<Vec<Worker>, AllocError>
    ensures { IfOk result (λ workers.
        (map (λ worker. worker.player.probe) workers.items ≡ probes.items) × All IsIdle workers.items) }
{
    let mut workers = Vec::with_capacity(alloc, probes.len())?;
    for probe in probes {
        workers.push(Worker {
            player: new_player(alloc, probe),
            actions: Vec::new(alloc),
        })?;
    }
    Ok(workers)
}

/// A player without lanes, whose probe tells its relay late.
fn new_player(alloc: Global, probe: LiveProbe) -> Player
    ensures probe { result.probe ≡ probe }
    ensures outboxes { result.mailbox.outboxes.items ≡ [] }
    ensures inboxes { result.mailbox.inboxes.items ≡ [] }
{
    Player {
        probe: probe.telling_late(),
        mailbox: Mailbox {
            outboxes: Vec::new(alloc),
            inboxes: Vec::new(alloc),
        },
    }
}

/// Gives each task to the worker of its process, in order.
fn give_tasks(workers: &mut Vec<Worker>, tasks: &[Task]) -> Result<(), AllocError>
    requires { All (λ task. task.p < length workers.old.items) tasks.now }
    ensures count { OnOk result (length workers.new.items ≡ length workers.old.items) }
    ensures each { OnOk result ((p : ℕ) (d : Worker) → p < length workers.old.items
        → HasTasks p tasks.now (slice_index_or workers.old.items p d) (slice_index_or workers.new.items p d)) }
{
    for task in tasks {
        workers[task.p as usize].actions.push(task.action)?;
    }
    Ok(())
}

/// Opens a lane for each two processes of which the one sends to the other.
fn open_lanes(alloc: Global, workers: &mut Vec<Worker>) -> Result<(), AllocError>
    requires few { length workers.old.items ≤ most_processes }
    requires few_actions { All (λ worker. length worker.actions.items ≤ most_steps) workers.old.items }
    requires none { All (λ worker. worker.player.mailbox.inboxes.items ≡ []) workers.old.items }
    ensures { OnOk result (HaveLanes (length workers.old.items) workers.old.items workers.new.items) }
{
    for p in 0..workers.len() {
        let row = open_row(alloc, workers, p)?;
        workers[p].player.mailbox.outboxes = row;
    }
    Ok(())
}

/// Opens the lanes by which process `p` sends, and gives the ends by which the messages come to their workers.
fn open_row(
    alloc: Global,
    workers: &mut Vec<Worker>,
    p: usize,
) -> Result<Vec<Option<Outbox>>, AllocError>
    requires within { p < length workers.old.items }
    requires few { length workers.old.items ≤ most_processes }
    requires few_actions { All (λ worker. length worker.actions.items ≤ most_steps) workers.old.items }
    ensures count { OnOk result (length workers.new.items ≡ length workers.old.items) }
    ensures row { IfOk result (λ row. length row.items ≡ length workers.old.items) }
    ensures each { IfOk result (λ row. (q : ℕ) (d : Worker) → q < length workers.old.items
        → HasRow p (slice_index_or workers.old.items p d).actions.items row.items q
        (slice_index_or workers.old.items q d) (slice_index_or workers.new.items q d)) }
{
    let mut row = Vec::with_capacity(alloc, workers.len())?;
    for q in 0..workers.len() {
        let count = count_sends(&workers[p].actions, q as u32);
        let (outbox, inbox) = new_lane(alloc, p as u32, count as u32, &workers[q].player.probe)?;
        row.push(outbox)?;
        workers[q].player.mailbox.inboxes.push(inbox)?;
    }
    Ok(row)
}
