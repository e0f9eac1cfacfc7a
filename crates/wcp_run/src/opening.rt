ghost use Rattle.std.specs.Prelude.{IfOk};
ghost use Rattle.wcp_model.specs.PlanFault.{IsCheckedPlan};
ghost use Rattle.wcp_model.specs.WorkloadComputation.{CouldBeRead};
ghost use Rattle.wcp_run.specs.RunWorkload.{ArePartsOf};

use std::alloc::{AllocError, Global};
use wcp_model::Workload;
use wcp_queue::Panel;
use wcp_tree::{Watch, watch};
use wcp_watch::{Checking, Parts};
use wcp_worker::{Worker, open_workers};

/// Opens the tree of a workload's plan, a worker for each process, and a panel of its one question. `Err` where memory runs out.
pub(crate) fn open_parts(alloc: Global, workload: &Workload) -> Result<Parts<Worker>, AllocError>
    requires read { CouldBeRead workload.now.plan.n workload.now.tasks.items }
    requires checked { IsCheckedPlan workload.now.plan }
    ensures { IfOk result (ArePartsOf workload.now.plan workload.now.tasks.items) }
{
    let Watch {
        probes,
        relays,
        inbox,
    } = watch(alloc, &workload.plan, 0)?;
    let workers = open_workers(alloc, workload, probes)?;
    let panel = Panel::new(alloc, workload.plan.n, &[workload.plan.watched])?;
    Ok(Parts {
        workers,
        relays,
        checking: Checking { inbox, panel },
    })
}
