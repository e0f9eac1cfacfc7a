//! Why a run gives no outcome, as the ends of its parts tell.
ghost use Rattle.std.specs.Prelude.{◌≡◌, ℕ, ◌<◌, ◌≤◌, ◌↔◌, Some, length, position, IsTrue, IfSome, IfNone};
ghost use Rattle.std.specs.List.{list_any};
ghost use Rattle.wcp_clock.specs.Limits.{most_processes};
ghost use Rattle.wcp_watch.specs.declared.checker_end.CheckFault.TheVariants as check_fault;
ghost use Rattle.wcp_run.specs.declared.run_fault.RunFault.{RunFault};
ghost use Rattle.wcp_run.specs.declared.run_fault.RunFault.TheVariants as run_fault;
ghost use Rattle.wcp_run.specs.RunFaults.{IsFirstRunFault, IsReasonOf, IsToldWithin, was_held, was_lost};
ghost use Rattle.wcp_run.specs.RunFaults.{is_cut_of_checker, relay_was_cut, worker_was_cut};

use crate::run_fault::RunFault;
use wcp_tree::{RelayEnd, RelayFault};
use wcp_watch::{CheckFault, CheckerEnd, Ends};
use wcp_worker::{WorkerEnd, WorkerFault};

/// Why a run fails whose parts left these ends, if one of them tells: the first reason that applies.
pub(crate) fn fault_of_run(ends: &Ends<WorkerEnd>) -> Option<RunFault>
    requires few { length ends.now.workers.items ≤ most_processes }
    requires told { IsToldWithin ends.now }
    ensures first { IfSome result (IsFirstRunFault ends.now) }
    ensures none { IfNone result ((fault : RunFault) → ¬ IsReasonOf ends.now fault) }
{
    if ran_out(&ends.checker) {
        return Some(RunFault::Memory);
    }
    if let Some(p) = lowest_held(ends) {
        return Some(RunFault::Held(p as u32));
    }
    if let Some(p) = lowest_lost(ends) {
        return Some(RunFault::Lost(p as u32));
    }
    if met_cut(ends) {
        return Some(RunFault::Cut);
    }
    None
}

/// Whether the checker ran out of memory.
fn ran_out(checker: &CheckerEnd) -> bool
    ensures { IsTrue result ↔ (checker.now.fault ≡ Some check_fault.Memory) }
{
    matches!(checker.fault(), Some(CheckFault::Memory))
}

/// The lowest process whose worker its gate held back.
fn lowest_held(ends: &Ends<WorkerEnd>) -> Option<usize>
    ensures found { result ≡ position was_held ends.now.workers.items }
    ensures within { IfSome result (λ p. p < length ends.now.workers.items) }
{
    ends.workers.iter().position(held_back)
}

/// The lowest process that was lost.
fn lowest_lost(ends: &Ends<WorkerEnd>) -> Option<usize>
    requires few { length ends.now.workers.items ≤ most_processes }
    requires told { IsToldWithin ends.now }
    ensures within { IfSome result (λ p. p < length ends.now.workers.items) }
    ensures lost { IfSome result (λ p. IsReasonOf ends.now (run_fault.Lost p)) }
    ensures lowest { IfSome result (λ p. (q : ℕ) → q < p → ¬ IsReasonOf ends.now (run_fault.Lost q)) }
    ensures none { IfNone result ((p : ℕ) → ¬ IsReasonOf ends.now (run_fault.Lost p)) }
{
    for p in 0..ends.workers.len() {
        if is_lost(ends, p) {
            return Some(p);
        }
    }
    None
}

/// Whether this process was lost: its worker left no end of its probe, or the checker's fault tells so.
fn is_lost(ends: &Ends<WorkerEnd>, p: usize) -> bool
    requires within { p < length ends.now.workers.items }
    ensures { IsTrue result ↔ IsReasonOf ends.now (run_fault.Lost p) }
{
    left_no_probe(&ends.workers[p]) || checker_tells_lost(&ends.checker, p)
}

/// Whether the checker's fault tells that this process was lost.
fn checker_tells_lost(checker: &CheckerEnd, p: usize) -> bool
    ensures { IsTrue result ↔ (checker.now.fault ≡ Some (check_fault.Lost p)) }
{
    matches!(checker.fault(), Some(CheckFault::Lost(lost)) if lost as usize == p)
}

/// Whether a worker, a relay or the checker met a cut.
fn met_cut(ends: &Ends<WorkerEnd>) -> bool
    ensures { IsTrue result ↔ IsReasonOf ends.now run_fault.Cut }
{
    a_worker_met_cut(ends) || a_relay_met_cut(ends) || checker_met_cut(&ends.checker)
}

fn a_worker_met_cut(ends: &Ends<WorkerEnd>) -> bool
    ensures { result ≡ list_any worker_was_cut ends.now.workers.items }
{
    ends.workers.iter().any(worker_met_cut)
}

fn a_relay_met_cut(ends: &Ends<WorkerEnd>) -> bool
    ensures { result ≡ list_any relay_was_cut ends.now.relays.items }
{
    ends.relays.iter().any(relay_met_cut)
}

fn held_back(worker: &WorkerEnd) -> bool
    ensures { result ≡ was_held worker.now }
{
    matches!(
        worker,
        WorkerEnd::GaveUp {
            fault: WorkerFault::Held,
            ..
        }
    )
}

fn left_no_probe(worker: &WorkerEnd) -> bool
    ensures { result ≡ was_lost worker.now }
{
    matches!(worker, WorkerEnd::GaveUp { probe: None, .. })
}

fn worker_met_cut(worker: &WorkerEnd) -> bool
    ensures { result ≡ worker_was_cut worker.now }
{
    matches!(
        worker,
        WorkerEnd::GaveUp {
            fault: WorkerFault::Cut(_),
            ..
        }
    )
}

fn relay_met_cut(relay: &RelayEnd) -> bool
    ensures { result ≡ relay_was_cut relay.now }
{
    matches!(relay.fault(), Some(RelayFault::Cut(_)))
}

fn checker_met_cut(checker: &CheckerEnd) -> bool
    ensures { result ≡ is_cut_of_checker checker.now.fault }
{
    matches!(checker.fault(), Some(CheckFault::Cut(_)))
}
