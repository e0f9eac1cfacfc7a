//! The outcome of a workload, from what a checker takes of the probes of its processes.
ghost use Rattle.std.specs.Prelude.{◌<◌, ◌≤◌, length, All, IfOk};
ghost use Rattle.wcp_clock.specs.Limits.{most_events, most_processes};
ghost use Rattle.wcp_model.specs.WorkloadOutcome.{IsWorkloadOutcome};
ghost use Rattle.wcp_model.specs.Watched.{AreSomeWatched};
ghost use Rattle.wcp_model.specs.WorkloadComputation.{CouldBeRead, IsFitOrder, IsWithin};

use crate::workload_run::WorkloadRun;
use std::alloc::{AllocError, Global};
use wcp_model::{Outcome, Plan, Task, Workload};
use wcp_order::{FitOrder, fit_order};

/// The outcome of these tasks of the plan's processes, which are a fit order.
fn outcome(alloc: Global, plan: &Plan, order: &[Task]) -> Result<Outcome, AllocError>
    requires few { plan.now.n ≤ most_processes }
    requires watched { AreSomeWatched plan.now.n plan.now.watched }
    requires few_tasks { length order.now < most_events }
    requires within { All (IsWithin plan.now.n) order.now }
    requires fit { IsFitOrder order.now order.now }
    ensures { IfOk result (IsWorkloadOutcome plan.now.n plan.now.watched plan.now.flag order.now) }
{
    let mut run = WorkloadRun::new(alloc, plan)?;
    for task in order {
        run.perform(plan.n, *task)?;
    }
    for p in 0..plan.n {
        run.close(p)?;
    }
    Ok(run.outcome())
}

/// The outcome of a workload: of one fit order, and so of each. `Err` where memory runs out.
pub fn single(alloc: Global, workload: &Workload) -> Result<Outcome, AllocError>
    requires read { CouldBeRead workload.now.plan.n workload.now.tasks.items }
    requires watched { AreSomeWatched workload.now.plan.n workload.now.plan.watched }
    ensures { IfOk result (IsWorkloadOutcome workload.now.plan.n workload.now.plan.watched workload.now.plan.flag
        workload.now.tasks.items) }
{
    match fit_order(alloc, workload.plan.n, &workload.tasks)? {
        FitOrder::AsListed => single_in_order(alloc, workload, &workload.tasks),
        FitOrder::Order(order) => single_in_order(alloc, workload, &order),
        FitOrder::Stuck(_) => unreachable!(),
    }
}

/// The outcome of a workload whose tasks have this fit order: what `single` answers where a fit order
/// is known already. `Err` where memory runs out.
#[inline(never)]
pub fn single_in_order(
    alloc: Global,
    workload: &Workload,
    order: &[Task],
) -> Result<Outcome, AllocError>
    requires read { CouldBeRead workload.now.plan.n workload.now.tasks.items }
    requires watched { AreSomeWatched workload.now.plan.n workload.now.plan.watched }
    requires fit { IsFitOrder workload.now.tasks.items order.now }
    ensures { IfOk result (IsWorkloadOutcome workload.now.plan.n workload.now.plan.watched workload.now.plan.flag
        workload.now.tasks.items) }
{
    outcome(alloc, &workload.plan, order)
}
