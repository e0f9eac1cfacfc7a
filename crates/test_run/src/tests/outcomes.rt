ghost use Rattle.wcp_model.specs.PlanFault.{IsCheckedPlan};
ghost use Rattle.wcp_model.specs.Watched.{AreSomeWatched};
ghost use Rattle.wcp_model.specs.WorkloadComputation.{CouldBeRead};

use std::alloc::Global;
use std::process::Abort;
use std::sync::Wait;
use std::thread::Threads;
use wcp_model::{GlobalCut, Outcome, Report, Tallies, Tally, Workload};
use wcp_run::{RunFault, run};
use wcp_script::read_workload;
use wcp_worker::Gate;

/// The workload of a text.
pub fn workload_of(rt: &impl Abort, alloc: Global, text: &[u8]) -> Workload
    ensures read { CouldBeRead result.plan.n result.tasks.items }
    ensures checked { IsCheckedPlan result.plan }
    ensures watched { AreSomeWatched result.plan.n result.plan.watched }
{
    read_workload(alloc, text).expect(rt, "a workload")
}

/// Two processes emitted so many snapshots, all of which were taken, and this is the first cut.
pub fn found(cut: [u32; 2], emitted: [u64; 2]) -> Outcome {
    let [first, second] = cut;
    Outcome {
        report: Report::Found(GlobalCut::new(&[Some(first), Some(second)])),
        tallies: Tallies::new(&emitted.map(all_taken)),
    }
}

/// So many snapshots were emitted, and all were taken.
fn all_taken(emitted: u64) -> Tally {
    Tally {
        emitted,
        taken: emitted,
    }
}

/// This workload comes to this outcome in threads whose steps go through this gate.
pub fn assert_comes_to<R: Threads + Wait + Sync + Abort, G: Gate + Sync>(
    rt: &R,
    alloc: Global,
    workload: &Workload,
    gate: &G,
    outcome: &Outcome,
)
    requires read { CouldBeRead workload.now.plan.n workload.now.tasks.items }
    requires checked { IsCheckedPlan workload.now.plan }
{
    let ran = run(rt, alloc, workload, gate).expect(rt, "an outcome");
    assert!(rt; ran == *outcome);
}

/// Why a run of this workload gives no outcome, where it gives none.
pub fn fault_of<R: Threads + Wait + Sync, G: Gate + Sync>(
    rt: &R,
    alloc: Global,
    workload: &Workload,
    gate: &G,
) -> Option<RunFault>
    requires read { CouldBeRead workload.now.plan.n workload.now.tasks.items }
    requires checked { IsCheckedPlan workload.now.plan }
{
    run(rt, alloc, workload, gate).err()
}
