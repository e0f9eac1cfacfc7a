//! A workload that runs in threads, to its outcome.
ghost use Rattle.std.specs.Prelude.{◌≡◌, List, IfOk, Err};
ghost use Rattle.wcp_model.specs.declared.plan.Plan.{Plan};
ghost use Rattle.wcp_model.specs.declared.workload.Task.{Task};
ghost use Rattle.wcp_model.specs.WorkloadOutcome.{IsWorkloadOutcome};
ghost use Rattle.wcp_model.specs.PlanFault.{IsCheckedPlan};
ghost use Rattle.wcp_model.specs.WorkloadComputation.{CouldBeRead};
ghost use Rattle.wcp_run.specs.declared.run_fault.RunFault.{RunFault};
ghost use Rattle.wcp_run.specs.RunFaults.{IsFirstRunFault};
ghost use Rattle.wcp_run.specs.RunWorkload.{AreEndsOfRun};

use crate::first_fault::fault_of_run;
use crate::opening::open_parts;
use crate::played_ends::{PlayedEnds, take_apart};
use crate::run_fault::RunFault;
use std::alloc::Global;
use std::sync::{Mutex, Wait};
use std::thread::Threads;
use wcp_book::Book;
use wcp_model::{Outcome, Workload};
use wcp_watch::{Ends, StartFault, run_parts, settle};
use wcp_worker::{Gate, WorkerEnd, match_lanes};

/// Runs a workload: a thread plays each process, one runs each relay, and one runs the checker. The gate says when a
/// worker may make its next step. All threads have ended when this returns, and what they left proves the outcome.
pub fn run<R: Threads + Wait + Sync, G: Gate + Sync>(
    rt: &R,
    alloc: Global,
    workload: &Workload,
    gate: &G,
) -> Result<Outcome, RunFault>
    requires read { CouldBeRead workload.now.plan.n workload.now.tasks.items }
    requires checked { IsCheckedPlan workload.now.plan }
    ensures { IfOk result (IsWorkloadOutcome workload.now.plan.n workload.now.plan.watched workload.now.plan.flag
        workload.now.tasks.items) }
{
    let Ok(parts) = open_parts(alloc, workload) else {
        return Err(RunFault::Memory);
    };
    let book = Mutex::new(Book::new(workload.plan.n));
    match run_parts(rt, alloc, parts, gate, &book) {
        Ok(ends) => conclude(alloc, ends, book.into_inner()),
        Err(StartFault::Memory) => Err(RunFault::Memory),
        Err(StartFault::Spawn) => Err(RunFault::Spawn),
    }
}

/// The outcome of a run whose parts left these ends.
fn conclude(alloc: Global, ends: Ends<WorkerEnd>, book: Book) -> Result<Outcome, RunFault>
    requires { (plan : Plan) × (tasks : List Task) × AreEndsOfRun plan tasks ends }
    ensures outcome { IfOk result (λ outcome. (plan : Plan) (tasks : List Task) → AreEndsOfRun plan tasks ends
        → IsWorkloadOutcome plan.n plan.watched plan.flag tasks outcome) }
    ensures first { (first : RunFault) → IsFirstRunFault ends first → result ≡ Err first }
{
    if let Some(fault) = fault_of_run(&ends) {
        return Err(fault);
    }
    let Ends {
        workers,
        relays,
        checker,
    } = ends;
    let PlayedEnds { probes, mailboxes } = take_apart(alloc, workers)?;
    if let Err(_) = match_lanes(mailboxes) {
        return Err(RunFault::Unfinished);
    }
    match settle(probes, relays, checker, book) {
        Ok(outcome) => Ok(outcome),
        Err(_) => Err(RunFault::Unfinished),
    }
}
