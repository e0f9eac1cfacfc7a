//! The run of a workload: one probe for each process, a queue for each channel between two, and a
//! checker of what the probes emit.
ghost use Rattle.std.specs.Prelude.{◌≡◌, ℕ, ◌+◌, ◌<◌, ◌≤◌, List, [], ◌∷◌, ◌++◌, length, All, Some, IfOk, OnOk};
ghost use Rattle.std.specs.List.{slice_get, slice_index_or};
ghost use Rattle.wcp_clock.specs.Limits.{most_processes};
ghost use Rattle.wcp_model.specs.declared.outcome.Tally.{Tally};
ghost use Rattle.wcp_model.specs.declared.workload.Task.{Task};
ghost use Rattle.wcp_model.specs.WorkloadOutcome.{IsWorkloadOutcome};
ghost use Rattle.wcp_clock.specs.ProcessNumbers.{NumberSet};
ghost use Rattle.wcp_model.specs.declared.flag.Flag.{Flag};
ghost use Rattle.wcp_model.specs.Watched.{AreSomeWatched};
ghost use Rattle.wcp_model.specs.WorkloadComputation.{IsWithin};
ghost use Rattle.wcp_queue.specs.Checker.{processes, taken_of};
ghost use Rattle.wcp_single.specs.declared.workload_process.WorkloadProcess.{WorkloadProcess};
ghost use Rattle.wcp_single.specs.WorkloadRun.{IsEnding, IsNextTask, HasDone, MayDoNext};

use crate::stamp_queue::StampQueue;
use crate::workload_process::WorkloadProcess;
use std::alloc::{AllocError, Global};
use wcp_clock::MAX_PROCS;
use wcp_model::{Action, Outcome, Plan, Tallies, Tally, Task};
use wcp_order::channel;
use wcp_queue::Checker;

/// How far the run of a workload has come.
#[derive(Drop)]
pub struct WorkloadRun {
    processes: Vec<WorkloadProcess>,
    /// The messages in transit on each channel.
    in_transit: Vec<StampQueue>,
    checker: Checker,
}

impl WorkloadRun {
    /// The run before the first task. `Err` where memory runs out.
    pub fn new(alloc: Global, plan: &Plan) -> Result<WorkloadRun, AllocError>
        requires few { plan.now.n ≤ most_processes }
        requires watched { AreSomeWatched plan.now.n plan.now.watched }
        ensures { IfOk result (λ run.
            HasDone plan.now.n plan.now.watched plan.now.flag [] run.processes.items run.in_transit.items run.checker) }
    {
        let n = plan.n;
        let mut processes = Vec::with_capacity(alloc, n as usize)?;
        for id in 0..n {
            processes.push(WorkloadProcess::new(plan.probe_setup(id)))?;
        }
        let mut in_transit = Vec::with_capacity(alloc, (n * n) as usize)?;
        for _ in 0..n * n {
            in_transit.push(StampQueue::new(alloc))?;
        }
        Ok(WorkloadRun {
            processes,
            in_transit,
            checker: Checker::new(alloc, n, plan.watched)?,
        })
    }

    /// Does the next task. `Err` where memory runs out.
    #[tactic(auto, using(crate::proofs::NextTask::ends_within))]
    pub fn perform(&mut self, n: u32, task: Task) -> Result<(), AllocError>
        requires few { n ≤ most_processes }
        requires next { MayDoNext n task self.old.processes.items self.old.in_transit.items self.old.checker }
        ensures { OnOk result ((watched : NumberSet) (flag : Flag) (done : List Task) → IsNextTask n done task
            → HasDone n watched flag done self.old.processes.items self.old.in_transit.items self.old.checker
            → HasDone n watched flag (done ++ task ∷ [])
            self.new.processes.items self.new.in_transit.items self.new.checker) }
    {
        let p = task.p as usize;
        match task.action {
            Action::Observe(holds) => self.processes[p].observe(holds, &mut self.checker)?,
            Action::Send(to) => {
                let message = self.processes[p].send(to);
                self.in_transit[channel(n, task.p, to)].push(message)?;
            }
            Action::Recv(from) => {
                let message = self.in_transit[channel(n, from, task.p)].pop();
                self.processes[p].receive(message);
            }
        }
        Ok(())
    }

    /// Closes process `p`, after all tasks. `Err` where memory runs out.
    pub fn close(&mut self, p: u32) -> Result<(), AllocError>
        requires next { (n : ℕ) × (watched : NumberSet) × (flag : Flag) × (tasks : List Task) × (p < n)
            × IsEnding n watched flag tasks p self.old.processes.items self.old.checker }
        ensures { OnOk result ((n : ℕ) (watched : NumberSet) (flag : Flag) (tasks : List Task) → p < n
            → IsEnding n watched flag tasks p self.old.processes.items self.old.checker
            → IsEnding n watched flag tasks (p + 1) self.new.processes.items self.new.checker) }
    {
        self.processes[p as usize].close(&mut self.checker)?;
        Ok(())
    }

    /// The outcome, once each process has closed.
    pub fn outcome(&self) -> Outcome
        requires some { 0 < length self.now.processes.items }
        requires few { length self.now.processes.items ≤ most_processes }
        requires processes { processes self.now.checker ≡ length self.now.processes.items }
        ensures { (n : ℕ) (watched : NumberSet) (flag : Flag) (tasks : List Task) → All (IsWithin n) tasks
            → IsEnding n watched flag tasks n self.now.processes.items self.now.checker
            → IsWorkloadOutcome n watched flag tasks result }
    {
        Outcome {
            report: self.checker.report(),
            tallies: self.tallies(),
        }
    }

    /// How many snapshots each process has emitted, and the checker has taken of it.
    fn tallies(&self) -> Tallies
        requires some { 0 < length self.now.processes.items }
        requires few { length self.now.processes.items ≤ most_processes }
        requires processes { processes self.now.checker ≡ length self.now.processes.items }
        ensures processes { length result ≡ length self.now.processes.items }
        ensures emitted { (p : ℕ) (tally : Tally) (process : WorkloadProcess) → slice_get result p ≡ Some tally
            → tally.emitted ≡ (slice_index_or self.now.processes.items p process).probe.emitted }
        ensures taken { (p : ℕ) (tally : Tally) → slice_get result p ≡ Some tally
            → tally.taken ≡ taken_of self.now.checker p }
    {
        let mut tallies = [Tally {
            emitted: 0,
            taken: 0,
        }; MAX_PROCS];
        for (p, process) in self.processes.iter().enumerate() {
            tallies[p] = Tally {
                emitted: u64::from(process.emitted()),
                taken: self.checker.taken(p as u32),
            };
        }
        Tallies::new(&tallies[..self.processes.len()])
    }
}
