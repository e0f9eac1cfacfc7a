//! The layout of a workload.
ghost use Rattle.std.specs.Prelude.{◌≤◌, length, All, IfOk};
ghost use Rattle.wcp_clock.specs.Limits.{most_processes, most_steps};
ghost use Rattle.draw_layout.specs.Halves.{MaySplit};
ghost use Rattle.draw_layout.specs.Layout.{IsLayout};
ghost use Rattle.wcp_model.specs.WorkloadComputation.{IsFitOrder, IsWithin};

use crate::cut_halves::halves;
use crate::events::intervals;
use crate::messages::sends;
use crate::row::Row;
use crate::rows::{event_columns, true_states};
use crate::standing::{Columns, stand_in_columns};
use std::alloc::{AllocError, Global};
use wcp_model::{GlobalCut, Task};

/// Where the tasks of a fit order stand in a picture. The first three lists have an element for each task.
#[derive(Debug, Drop)]
pub struct Layout {
    /// The interval that the process of each task is in: its communication event k ends its interval k.
    pub intervals: Vec<u32>,
    /// For each receive the place, in the order, of the send of its message.
    pub sent: Vec<usize>,
    /// The column of each communication event, from 1, and 0 of each observation.
    pub columns: Vec<u32>,
    /// For each process the columns of its communication events.
    pub events: Vec<Row>,
    /// For each process the intervals in which it is observed true, rising.
    pub truths: Vec<Row>,
    /// The column of the cut's line. All that stands before the cut is left of it, and all else right.
    pub line: u32,
}

/// The layout of a fit order of the tasks of `n` processes about a satisfying cut, or without one. It
/// takes one look at each task for each of its lists. `Err` where memory runs out.
pub fn lay_out(
    alloc: Global,
    n: u32,
    order: &[Task],
    cut: &Option<GlobalCut>,
) -> Result<Layout, AllocError>
    requires few { n ≤ most_processes }
    requires few_tasks { length order.now ≤ most_steps }
    requires within { All (IsWithin n) order.now }
    requires fit { IsFitOrder order.now order.now }
    requires cut { MaySplit n order.now cut.now }
    ensures { IfOk result (IsLayout n order.now cut.now) }
{
    let intervals = intervals(alloc, n, order)?;
    let sent = sends(alloc, n, order)?;
    let halves = halves(alloc, n, order, &intervals, &sent, cut)?;
    let Columns {
        of_tasks: columns,
        line,
    } = stand_in_columns(alloc, order, &sent, &halves)?;
    let events = event_columns(alloc, n, order, &columns)?;
    let truths = true_states(alloc, n, order, &intervals)?;
    Ok(Layout {
        intervals,
        sent,
        columns,
        events,
        truths,
        line,
    })
}
