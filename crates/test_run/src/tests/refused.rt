//! Runs that the system gives no memory or no threads for: the address space of the process is taken up but for a gap.
ghost use Rattle.wcp_model.specs.PlanFault.{IsCheckedPlan};
ghost use Rattle.wcp_model.specs.WorkloadComputation.{CouldBeRead};

use super::outcomes::{fault_of, workload_of};
use std::alloc::Global;
use std::process::Abort;
use std::sync::Wait;
use std::thread::Threads;
use wcp_model::Workload;
use wcp_run::RunFault;
use wcp_worker::Open;

/// The largest block that takes up address space, and how many blocks there are at most.
const LARGEST: usize = 1 << 46;

const MOST_BLOCKS: usize = 200_000;

/// A block that is too small for any list.
const TINY: usize = 8;

/// Room for the lists of a run and the stacks of a few threads.
const GAP: usize = 1 << 24;

/// A block that is too small for a stack.
const SMALL: usize = 1 << 20;

/// A run of eighteen threads.
const SIXTEEN_PROCESSES: &[u8] = b"wcp 1\nprocs 16\np 0 true\n";

/// Takes up what is left of the address space by blocks of at least `smallest` bytes, and then lets go a gap of `gap`
/// bytes. Nothing is written to the blocks, so they take no memory.
fn take_up(rt: &impl Abort, alloc: Global, gap: usize, smallest: usize) -> Vec<Vec<u8>> {
    let mut blocks = Vec::with_capacity(alloc, MOST_BLOCKS).expect(rt, "memory");
    let kept = Vec::<u8>::with_capacity(alloc, gap).expect(rt, "memory");
    let mut size = LARGEST;
    for _ in 0..MOST_BLOCKS {
        match Vec::with_capacity(alloc, size) {
            Ok(block) => blocks.push(block).expect(rt, "room"),
            Err(_) => size /= 2,
        }
        if size < smallest {
            break;
        }
    }
    drop(kept);
    blocks
}

/// Why a run of this workload gives no outcome where no more than such a gap and smaller ones are left.
fn fault_in_gap<R: Threads + Wait + Sync + Abort>(
    rt: &R,
    alloc: Global,
    workload: &Workload,
    gap: usize,
    smallest: usize,
) -> Option<RunFault>
    requires read { CouldBeRead workload.now.plan.n workload.now.tasks.items }
    requires checked { IsCheckedPlan workload.now.plan }
{
    let blocks = take_up(rt, alloc, gap, smallest);
    let fault = fault_of(rt, alloc, workload, &Open);
    drop(blocks);
    fault
}

/// Where there is no memory a run says so, and not that it got no threads either.
#[test]
fn a_run_says_what_it_is_refused(rt: HostRuntime) {
    let workload = workload_of(&rt, rt.alloc(), SIXTEEN_PROCESSES);
    let without_memory = fault_in_gap(&rt, rt.alloc(), &workload, 0, TINY);
    let without_threads = fault_in_gap(&rt, rt.alloc(), &workload, GAP, SMALL);
    assert_eq!(rt; without_memory, Some(RunFault::Memory));
    assert_eq!(rt; without_threads, Some(RunFault::Spawn));
}
