//! What each process does, in a row of its own.
ghost use Rattle.std.specs.Prelude.{◌≡◌, [], length, replicate, All, IfOk, OnOk};
ghost use Rattle.draw_layout.specs.Events.{AreIntervals};
ghost use Rattle.draw_layout.specs.Rows.{AreEventColumns, AreTrueRows, finds_true};
ghost use Rattle.wcp_model.specs.WorkloadComputation.{IsWithin};

use crate::events::is_event;
use crate::row::Row;
use std::alloc::{AllocError, Global};
use wcp_model::{Action, Task};

/// For each of `n` processes the columns of its communication events, where the tasks of the order have
/// these columns. `Err` where memory runs out.
pub(crate) fn event_columns(
    alloc: Global,
    n: u32,
    order: &[Task],
    columns: &[u32],
) -> Result<Vec<Row>, AllocError>
    requires within { All (IsWithin n) order.now }
    requires columns { length columns.now ≡ length order.now }
    ensures { IfOk result (λ rows. AreEventColumns n order.now columns.now rows.items) }
{
    let mut rows = empty_rows(alloc, n)?;
    list_columns(&mut rows, n, order, columns)?;
    Ok(rows)
}

/// For each of `n` processes the intervals in which it is observed true, where the processes of the
/// tasks are in these intervals. `Err` where memory runs out.
pub(crate) fn true_states(
    alloc: Global,
    n: u32,
    order: &[Task],
    intervals: &[u32],
) -> Result<Vec<Row>, AllocError>
    requires within { All (IsWithin n) order.now }
    requires intervals { AreIntervals n order.now intervals.now }
    ensures { IfOk result (λ rows. AreTrueRows n order.now rows.items) }
{
    let mut rows = empty_rows(alloc, n)?;
    list_truths(&mut rows, n, order, intervals)?;
    Ok(rows)
}

/// A row without numbers for each of `n` processes. `Err` where memory runs out.
fn empty_rows(alloc: Global, n: u32) -> Result<Vec<Row>, AllocError>
    ensures { IfOk result (λ rows. rows.items ≡ replicate n []) }
{
    let mut rows = Vec::with_capacity(alloc, n as usize)?;
    for _ in 0..n {
        rows.push(Row::new(alloc))?;
    }
    Ok(rows)
}

/// Lists the columns in rows that are empty.
fn list_columns(rows: &mut [Row], n: u32, order: &[Task], columns: &[u32]) -> Result<(), AllocError>
    requires within { All (IsWithin n) order.now }
    requires columns { length columns.now ≡ length order.now }
    requires none { rows.old ≡ replicate n [] }
    ensures { OnOk result (AreEventColumns n order.now columns.now rows.new) }
{
    for (place, task) in order.iter().enumerate() {
        if is_event(task.action) {
            rows[task.p as usize].push(columns[place])?;
        }
    }
    Ok(())
}

/// Lists the intervals of the observations that find the condition true, in rows that are empty.
fn list_truths(
    rows: &mut [Row],
    n: u32,
    order: &[Task],
    intervals: &[u32],
) -> Result<(), AllocError>
    requires within { All (IsWithin n) order.now }
    requires intervals { AreIntervals n order.now intervals.now }
    requires none { rows.old ≡ replicate n [] }
    ensures { OnOk result (AreTrueRows n order.now rows.new) }
{
    for (place, task) in order.iter().enumerate() {
        if finds_true(task.action) {
            rows[task.p as usize].insert(intervals[place])?;
        }
    }
    Ok(())
}

/// Whether the action observes that the condition holds.
fn finds_true(action: Action) -> bool
    ensures { result ≡ finds_true action }
{
    match action {
        Action::Observe(holds) => holds,
        Action::Send(_) | Action::Recv(_) => false,
    }
}
