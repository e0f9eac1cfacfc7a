//! What is known of each task of a workload: its interval, its clock, and the message that it receives.

use draw_layout::Layout;
use std::alloc::{AllocError, Global};
use wcp_clock::MAX_PROCS;
use wcp_model::{Action, Task};

/// How many tasks of each process are known.
pub(crate) type TaskCounts = [u32; MAX_PROCS];

/// A task of a workload.
#[derive(Clone, Copy)]
pub(crate) struct Tracked {
    pub task: Task,
    /// The interval that its process is in.
    pub interval: u32,
    /// How many tasks of each process are known at it, itself counted.
    pub clock: TaskCounts,
    /// The place of the send of the message that it receives, where it is a receive.
    pub sent: Option<usize>,
}

/// The tasks of a workload, in the order in which they are listed, by a fit order of them and its layout.
pub(crate) fn track(
    alloc: Global,
    tasks: &[Task],
    order: &[Task],
    layout: &Layout,
) -> Result<Vec<Tracked>, AllocError> {
    let mut tracked = Vec::with_capacity(alloc, tasks.len())?;
    for task in tasks {
        tracked.push(untracked(*task))?;
    }
    let mut places = places_in_order(alloc, tasks, order)?;
    let mut clocks = [[0; MAX_PROCS]; MAX_PROCS];
    for at in 0..order.len() {
        track_one(&mut tracked, &mut clocks, &places, layout, at);
    }
    places.clear();
    Ok(tracked)
}

/// A task of which nothing is known yet.
fn untracked(task: Task) -> Tracked {
    Tracked {
        task,
        interval: 0,
        clock: [0; MAX_PROCS],
        sent: None,
    }
}

/// For each task of a fit order, its place among the tasks as they are listed: each process has its own in one order.
fn places_in_order(
    alloc: Global,
    tasks: &[Task],
    order: &[Task],
) -> Result<Vec<usize>, AllocError> {
    let mut next = [0; MAX_PROCS];
    let mut places = Vec::with_capacity(alloc, order.len())?;
    for task in order {
        let place = next_of(tasks, task.p, from_of(&next, task.p));
        if let Some(from) = next.get_mut(task.p as usize) {
            *from = place.saturating_add(1);
        }
        places.push(place)?;
    }
    Ok(places)
}

/// For each task of a fit order the line of the text that says it, where the first task as they are listed stands in
/// this line.
pub(crate) fn lines_of(
    alloc: Global,
    first_line: u64,
    tasks: &[Task],
    order: &[Task],
) -> Result<Vec<u64>, AllocError> {
    let places = places_in_order(alloc, tasks, order)?;
    let mut lines = Vec::with_capacity(alloc, places.len())?;
    for place in &places {
        lines.push(first_line.saturating_add(*place as u64))?;
    }
    Ok(lines)
}

/// From where on the next task of a process is looked for.
fn from_of(next: &[usize], p: u32) -> usize {
    next.get(p as usize).copied().unwrap_or(0)
}

/// The place of the first task of process `p` from a place on, and the number of all tasks where it has none there.
fn next_of(tasks: &[Task], p: u32, from: usize) -> usize {
    for place in from..tasks.len() {
        if tasks[place].p == p {
            return place;
        }
    }
    tasks.len()
}

/// Notes what is known of the task at this place of the order, where all before it was noted. `clocks` has what each
/// process knows.
fn track_one(
    tracked: &mut [Tracked],
    clocks: &mut [TaskCounts],
    places: &[usize],
    layout: &Layout,
    at: usize,
) {
    let place = places.get(at).copied().unwrap_or(0);
    let Some(own) = tracked.get(place).copied() else {
        return;
    };
    let sent = sent_place(own.task, places, layout, at);
    let heard = match sent {
        Some(sent) => clock_at(tracked, sent),
        None => [0; MAX_PROCS],
    };
    let p = own.task.p as usize;
    let Some(known) = clocks.get_mut(p) else {
        return;
    };
    learn(known, &heard);
    count(known, p);
    if let Some(one) = tracked.get_mut(place) {
        one.interval = layout.intervals.get(at).copied().unwrap_or(0);
        one.clock = *known;
        one.sent = sent;
    }
}

/// The place, as it is listed, of the send of the message that this task receives, where it is a receive.
fn sent_place(task: Task, places: &[usize], layout: &Layout, at: usize) -> Option<usize> {
    let Action::Recv(_) = task.action else {
        return None;
    };
    let sent = layout.sent.get(at).copied()?;
    places.get(sent).copied()
}

/// The clock of the task at this place.
fn clock_at(tracked: &[Tracked], place: usize) -> TaskCounts {
    match tracked.get(place) {
        Some(one) => one.clock,
        None => [0; MAX_PROCS],
    }
}

/// Adds what a message tells to what is known.
fn learn(known: &mut TaskCounts, heard: &TaskCounts) {
    for p in 0..MAX_PROCS {
        known[p] = known[p].max(heard[p]);
    }
}

/// Counts the next task of process `p`.
fn count(known: &mut TaskCounts, p: usize) {
    if let Some(number) = known.get_mut(p) {
        *number = number.saturating_add(1);
    }
}
