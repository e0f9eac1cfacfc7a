ghost use Rattle.std.specs.Prelude.{◌≡◌, List, IfOk, IfErr};
ghost use Rattle.wcp_model.specs.declared.plan.Plan.{Plan};
ghost use Rattle.wcp_model.specs.declared.workload.Task.{Task};
ghost use Rattle.wcp_model.specs.PlanFault.{IsCheckedPlan};
ghost use Rattle.wcp_model.specs.PlainPlan.{IsSamePlan};
ghost use Rattle.wcp_model.specs.Watched.{AreSomeWatched};
ghost use Rattle.wcp_model.specs.WorkloadComputation.{CouldBeRead};
ghost use Rattle.wcp_script.specs.declared.fault.ScriptFault.{ScriptFault};
ghost use Rattle.wcp_script.specs.TextFault.{workloads, Spells, HasWorkloadFault};
ghost use Rattle.wcp_script.specs.ReadAnswers.{IsReadAs, IsRefusedFor, IsFaultOf, ReadsInOrder, ReadsWorkload};
ghost use Rattle.wcp_script.specs.ReadAnswers.{order_of};

use crate::fault::{FaultKind, ReadFault, ScriptFault};
use crate::text::{Text, read_text};
use std::alloc::Global;
use wcp_model::{Task, Workload};
use wcp_order::{FitOrder, fit_order};

/// The workload that a text spells. `Err` says which fault the text has, or that memory ran out.
pub fn read_workload(alloc: Global, bytes: &[u8]) -> Result<Workload, ReadFault>
    // What is read is spelled so and could be read, and its plan passed the check.
    ensures spelled { IfOk result (λ workload. Spells workloads bytes.now workload.plan workload.tasks.items) }
    ensures could_be_read { IfOk result (λ workload. CouldBeRead workload.plan.n workload.tasks.items) }
    ensures checked { IfOk result (λ workload. IsCheckedPlan workload.plan) }
    ensures watched { IfOk result (λ workload. AreSomeWatched workload.plan.n workload.plan.watched) }

    // What spells a workload that could be read is read as it, unless memory runs out.
    ensures only { (plan : Plan) (tasks : List Task) →
        Spells workloads bytes.now plan tasks → CouldBeRead plan.n tasks →
        IsReadAs (λ workload. IsSamePlan workload.plan plan × (workload.tasks.items ≡ tasks)) result }

    // A text is refused for the fault that it has, and one that has a fault is refused, unless memory runs out.
    ensures fault { IfErr result (IsFaultOf (HasWorkloadFault bytes.now)) }
    ensures refused { (fault : ScriptFault) → HasWorkloadFault bytes.now fault → IsRefusedFor fault result }
{
    read(alloc, bytes)
}

fn read(alloc: Global, bytes: &[u8]) -> Result<Workload, ReadFault>
    ensures { ReadsWorkload bytes.now result }
{
    let ordered = read_ordered(alloc, bytes)?;
    Ok(ordered.workload)
}

/// A workload that was read, with a fit order of its tasks.
#[derive(Debug, Drop)]
pub struct OrderedWorkload {
    pub workload: Workload,
    /// A fit order of the tasks; none where they are listed in one.
    order: Option<Vec<Task>>,
}

impl OrderedWorkload {
    /// The tasks in the fit order.
    pub fn in_order(&self) -> &[Task]
        ensures { result.now ≡ order_of self.now }
    {
        match &self.order {
            Some(order) => order.as_slice(),
            None => self.workload.tasks.as_slice(),
        }
    }
}

/// What `read_workload` reads, with the fit order that shows that it could be read.
pub fn read_ordered(alloc: Global, bytes: &[u8]) -> Result<OrderedWorkload, ReadFault>
    ensures exact { ReadsInOrder bytes.now result }
    ensures could_be_read { IfOk result (λ ordered. CouldBeRead ordered.workload.plan.n ordered.workload.tasks.items) }
    ensures watched { IfOk result (λ ordered. AreSomeWatched ordered.workload.plan.n ordered.workload.plan.watched) }
{
    let Text { plan, last, steps } = read_text(alloc, bytes)?;
    let order = match fit_order(alloc, plan.n, &steps)? {
        FitOrder::AsListed => None,
        FitOrder::Order(order) => Some(order),
        FitOrder::Stuck(place) => {
            let line = last + place as u32 + 1;
            let kind = FaultKind::Stuck;
            return Err(ReadFault::Script(ScriptFault { line, kind }));
        }
    };
    let tasks = steps;
    Ok(OrderedWorkload {
        workload: Workload { plan, tasks },
        order,
    })
}
