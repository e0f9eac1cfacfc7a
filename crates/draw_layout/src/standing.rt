//! The columns in which events stand.
ghost use Rattle.std.specs.Prelude.{◌≡◌, ◌+◌, ◌<◌, ◌≤◌, ◌^◌, ℕ, length, replicate, true, slice_index, All, IfOk};
ghost use Rattle.wcp_clock.specs.Limits.{most_processes, most_steps};
ghost use Rattle.draw_layout.specs.Columns.{AreColumns, IsClosed, IsLaid, MayStand};
ghost use Rattle.draw_layout.specs.Messages.{AreSends};
ghost use Rattle.wcp_model.specs.WorkloadComputation.{IsFitOrder};

use crate::events::is_event;
use std::alloc::{AllocError, Global};
use wcp_clock::MAX_PROCS;
use wcp_model::Task;

/// Where the tasks of an order stand: columns are numbered from 1.
#[derive(Debug, Drop)]
pub struct Columns {
    /// The column of each task that is a communication event, and 0 of each other one.
    pub of_tasks: Vec<u32>,
    /// The column between those of the first half and all others.
    pub line: u32,
}

/// The columns of the events of a fit order: of each 1 and the greatest of its predecessor's and its
/// message's send. `halves` says of each task whether it is of the first half, behind which all others
/// stand. `Err` where memory runs out.
pub fn stand_in_columns(
    alloc: Global,
    order: &[Task],
    sent: &[usize],
    halves: &[bool],
) -> Result<Columns, AllocError>
    requires few_tasks { length order.now ≤ most_steps }
    requires few { All (λ task. task.p < most_processes) order.now }
    requires fit { IsFitOrder order.now order.now }
    requires sends { AreSends order.now sent.now }
    requires halves { length halves.now ≡ length order.now }
    requires closed { IsClosed order.now halves.now }
    ensures { IfOk result
        (λ columns. AreColumns order.now halves.now columns.of_tasks.items columns.line) }
{
    let mut of_tasks = vec![in alloc; 0; order.len()]?;
    let line = lay_halves(order, sent, halves, &mut of_tasks);
    Ok(Columns { of_tasks, line })
}

/// The same over columns that are all 0: gives the line.
fn lay_halves(order: &[Task], sent: &[usize], halves: &[bool], columns: &mut [u32]) -> u32
    requires few_tasks { length order.now ≤ most_steps }
    requires few { All (λ task. task.p < most_processes) order.now }
    requires fit { IsFitOrder order.now order.now }
    requires sends { AreSends order.now sent.now }
    requires halves { length halves.now ≡ length order.now }
    requires closed { IsClosed order.now halves.now }
    requires none { columns.old ≡ replicate (length order.now) 0 }
    ensures { AreColumns order.now halves.now columns.new result }
{
    let mut last = [0; MAX_PROCS];
    lay(order, sent, halves, true, 0, columns, &mut last);
    let line = 1 + greatest(columns);
    lay(order, sent, halves, false, line, columns, &mut last);
    line
}

/// Puts the events of a half in columns right of the floor: of each 1 and the greatest of its
/// predecessor's and its message's send. `last` has the last column of each process.
fn lay(
    order: &[Task],
    sent: &[usize],
    halves: &[bool],
    half: bool,
    floor: u32,
    columns: &mut [u32],
    last: &mut [u32],
)
    requires few_tasks { floor + length order.now < 2 ^ 32 }
    requires few { All (λ task. task.p < most_processes) order.now }
    requires fit { IsFitOrder order.now order.now }
    requires sends { AreSends order.now sent.now }
    requires halves { length halves.now ≡ length order.now }
    requires may { MayStand order.now halves.now half columns.old }
    requires start { IsLaid order.now halves.now half floor columns.old 0 columns.old last.old }
    ensures { IsLaid order.now halves.now half floor columns.old (length order.now) columns.new last.new }
{
    for (place, task) in order.iter().enumerate() {
        if is_event(task.action) && halves[place] == half {
            let p = task.p as usize;
            let column = 1 + floor.max(last[p]).max(columns[sent[place]]);
            columns[place] = column;
            last[p] = column;
        }
    }
}

/// The greatest of these columns, or 0.
pub fn greatest(columns: &[u32]) -> u32
    ensures above { (i : ℕ) → slice_index columns.now i ≤ result }
    ensures one { (limit : ℕ) → ((i : ℕ) → slice_index columns.now i ≤ limit) → result ≤ limit }
{
    let mut greatest = 0u32;
    for column in columns {
        greatest = greatest.max(*column);
    }
    greatest
}
