//! Ring workloads: a message goes around all processes, round after round.
ghost use Rattle.std.specs.Prelude.{◌≡◌, ◌<◌, ◌≤◌, ◌++◌, length, IfOk, OnOk};
ghost use Rattle.wcp_clock.specs.Limits.{most_processes};
ghost use Rattle.wcp_model.specs.PlanFault.{IsCheckedPlan};
ghost use Rattle.wcp_model.specs.Watched.{AreSomeWatched};
ghost use Rattle.wcp_model.specs.WorkloadComputation.{CouldBeRead};
ghost use Rattle.std.specs.List.{flat_map, range_with_len};
ghost use Rattle.wcp_script.specs.Ring.{IsRingPlan, finds_both, most_rounds, received, sent, ring_turn, ring_round};
ghost use Rattle.wcp_script.specs.Ring.{ring_fault, ring_length, ring_tasks};

use crate::head::{PLAIN_CAP, PLAIN_HOLD};
use std::alloc::{AllocError, Global};
use wcp_model::{Action, Task, Workload, plain_plan};

/// The most rounds of a ring.
pub const MAX_ROUNDS: u32 = 1000;

/// The workload of a ring of `n` processes: in each round each process receives from the one before
/// it, finds its condition true and then false, and sends to the one after it. With `fault` each
/// process but the first finds its condition true before any message, so that there is a bad moment.
/// `Err` where memory runs out.
pub fn ring_workload(
    alloc: Global,
    n: u32,
    rounds: u32,
    fault: bool,
) -> Result<Workload, AllocError>
    requires several { 2 ≤ n }
    requires few { n ≤ most_processes }
    requires some_rounds { 1 ≤ rounds }
    requires few_rounds { rounds ≤ most_rounds }
    ensures plan { IfOk result (λ workload. IsRingPlan n workload.plan) }
    ensures checked { IfOk result (λ workload. IsCheckedPlan workload.plan) }
    ensures watched { IfOk result (λ workload. AreSomeWatched workload.plan.n workload.plan.watched) }
    ensures tasks { IfOk result (λ workload. workload.tasks.items ≡ ring_tasks n rounds fault) }
    ensures count { IfOk result (λ workload. length workload.tasks.items ≡ ring_length n rounds fault) }
    ensures could_be_read { IfOk result (λ workload. CouldBeRead n workload.tasks.items) }
{
    let plan = plain_plan(alloc, n, PLAIN_CAP, PLAIN_HOLD)?;
    let mut tasks = Vec::new(alloc);
    push_fault(&mut tasks, n, fault)?;
    push_rounds(&mut tasks, n, rounds)?;
    Ok(Workload { plan, tasks })
}

fn push_fault(tasks: &mut Vec<Task>, n: u32, fault: bool) -> Result<(), AllocError>
    requires { 2 ≤ n }
    ensures { OnOk result (tasks.new.items ≡ tasks.old.items ++ ring_fault n fault) }
{
    if !fault {
        return Ok(());
    }
    for p in 1..n {
        push_findings(tasks, p)?;
    }
    Ok(())
}

#[tactic(auto, using(crate::proofs::Ranges::pieces_more))]
fn push_rounds(tasks: &mut Vec<Task>, n: u32, rounds: u32) -> Result<(), AllocError>
    requires several { 2 ≤ n }
    requires few { n ≤ most_processes }
    requires few_rounds { rounds ≤ most_rounds }
    ensures { OnOk result (tasks.new.items
        ≡ tasks.old.items ++ flat_map (ring_round n rounds) (range_with_len 0 rounds)) }
{
    for round in 0..rounds {
        push_round(tasks, n, rounds, round)?;
    }
    Ok(())
}

#[tactic(auto, using(crate::proofs::Ranges::pieces_more))]
fn push_round(tasks: &mut Vec<Task>, n: u32, rounds: u32, round: u32) -> Result<(), AllocError>
    requires several { 2 ≤ n }
    requires few { n ≤ most_processes }
    requires round { round < rounds }
    requires few_rounds { rounds ≤ most_rounds }
    ensures { OnOk result (tasks.new.items ≡ tasks.old.items ++ ring_round n rounds round) }
{
    for p in 0..n {
        push_turn(tasks, n, rounds, round, p)?;
    }
    Ok(())
}

fn push_turn(
    tasks: &mut Vec<Task>,
    n: u32,
    rounds: u32,
    round: u32,
    p: u32,
) -> Result<(), AllocError>
    requires process { p < n }
    requires few { n ≤ most_processes }
    requires round { round < rounds }
    requires few_rounds { rounds ≤ most_rounds }
    ensures { OnOk result (tasks.new.items ≡ tasks.old.items ++ ring_turn n rounds round p) }
{
    if round > 0 || p > 0 {
        let from = if p == 0 { n - 1 } else { p - 1 };
        let action = Action::Recv(from);
        tasks.push(Task { p, action })?;
    }
    push_findings(tasks, p)?;
    if round + 1 < rounds || p + 1 < n {
        let to = if p + 1 == n { 0 } else { p + 1 };
        let action = Action::Send(to);
        tasks.push(Task { p, action })?;
    }
    Ok(())
}

/// Process `p` finds its condition true, and then false.
fn push_findings(tasks: &mut Vec<Task>, p: u32) -> Result<(), AllocError>
    ensures { OnOk result (tasks.new.items ≡ tasks.old.items ++ finds_both p) }
{
    let (holds, fails) = (Action::Observe(true), Action::Observe(false));
    tasks.push(Task { p, action: holds })?;
    tasks.push(Task { p, action: fails })?;
    Ok(())
}
