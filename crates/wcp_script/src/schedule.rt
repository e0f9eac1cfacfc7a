ghost use Rattle.std.specs.Prelude.{◌≡◌, List, IfOk, IfErr, length, ◌≤◌};
ghost use Rattle.wcp_model.specs.declared.plan.Plan.{Plan};
ghost use Rattle.wcp_model.specs.declared.step.Step.{Step};
ghost use Rattle.wcp_clock.specs.Limits.{most_steps};
ghost use Rattle.wcp_model.specs.PlanFault.{IsCheckedPlan};
ghost use Rattle.wcp_model.specs.PlainPlan.{IsSamePlan};
ghost use Rattle.wcp_script.specs.declared.fault.ScriptFault.{ScriptFault};
ghost use Rattle.wcp_script.specs.TextFault.{schedules, Spells, HasTextFault};
ghost use Rattle.wcp_script.specs.ReadAnswers.{IsReadAs, IsRefusedFor, IsFaultOf, ReadsSchedule};

use crate::fault::ReadFault;
use crate::text::{Text, read_text};
use std::alloc::Global;
use wcp_model::{Plan, Step};

/// One interleaving of a computation and its detector, step by step, under a plan for the detector.
#[derive(Debug, Drop)]
pub struct Schedule {
    pub plan: Plan,
    /// At most 65,536 steps. Which processes, relays and messages they name isn't tested.
    pub steps: Vec<Step>,
}

/// The schedule that a text spells. `Err` says which fault the text has, or that memory ran out.
pub fn read_schedule(alloc: Global, bytes: &[u8]) -> Result<Schedule, ReadFault>
    // What is read is spelled so, and its plan passed the check.
    ensures spelled { IfOk result (λ schedule. Spells schedules bytes.now schedule.plan schedule.steps.items) }
    ensures checked { IfOk result (λ schedule. IsCheckedPlan schedule.plan) }
    ensures few { IfOk result (λ schedule. length schedule.steps.items ≤ most_steps) }

    // What spells a schedule is read as it, unless memory runs out.
    ensures only { (plan : Plan) (steps : List Step) → Spells schedules bytes.now plan steps →
        IsReadAs (λ schedule. IsSamePlan schedule.plan plan × (schedule.steps.items ≡ steps)) result }

    // A text is refused for the fault that it has, and one that has a fault is refused, unless memory runs out.
    ensures fault { IfErr result (IsFaultOf (HasTextFault schedules bytes.now)) }
    ensures refused { (fault : ScriptFault) → HasTextFault schedules bytes.now fault → IsRefusedFor fault result }
{
    read(alloc, bytes)
}

fn read(alloc: Global, bytes: &[u8]) -> Result<Schedule, ReadFault>
    ensures { ReadsSchedule bytes.now result }
{
    let Text { plan, steps, .. } = read_text(alloc, bytes)?;
    Ok(Schedule { plan, steps })
}
