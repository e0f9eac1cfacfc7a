//! A workload that runs in threads once, slowly: `bench_calls slow MILLISECONDS FILE`. Each worker waits so long before
//! each of its steps. It prints whether the run came to the outcome of one thread.
use crate::words::{number_at, word_at};
use std::alloc::Global;
use std::fs;
use std::rt::Files;
use std::sync::Wait;
use std::thread::{Threads, sleep};
use std::time::{Clock, Duration};
use wcp_run::run;
use wcp_script::{read_workload, single};
use wcp_worker::Gate;

/// A gate that lets each step pass after a while.
#[derive(Drop)]
struct Late<'a, C> {
    clock: &'a C,
    pause: Duration,
}

impl<C: Clock> Gate for Late<'_, C> {
    fn pass(&self, _p: u32, _step: u64) -> bool {
        sleep(self.clock, self.pause);
        true
    }
}

/// Whether a slow run of the workload of a text comes to the outcome of one thread.
fn run_late<R: Threads + Wait + Sync + Clock>(
    rt: &R,
    alloc: Global,
    text: &[u8],
    pause: Duration,
) -> anyhow::Result<bool> {
    let workload = read_workload(alloc, text)?;
    let outcome = single(alloc, &workload)?;
    let gate = Late { clock: rt, pause };
    Ok(run(rt, alloc, &workload, &gate)? == outcome)
}

/// Runs the workload that the words name, and prints what came of it.
pub fn make_calls<R: Threads + Wait + Clock + Files + Print + AllocGlobal + Sync>(
    rt: &R,
    words: &[String],
) -> anyhow::Result<()> {
    let pause = Duration::from_millis(u64::from(number_at(words, 0)));
    let text = fs::read(rt, word_at(words, 1))?;
    if run_late(rt, rt.alloc(), &text, pause)? {
        println!(rt; "the run agrees")?;
    } else {
        println!(rt; "the run doesn't agree")?;
    }
    Ok(())
}
