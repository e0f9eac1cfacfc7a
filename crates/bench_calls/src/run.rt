//! A workload that runs in threads so many times: `bench_calls run COUNT FILE`. It prints how many of the runs came to
//! the outcome of one thread, and, as errors are printed, the best and the median time of a run.

ghost use Rattle.wcp_model.specs.PlanFault.{IsCheckedPlan};
ghost use Rattle.wcp_model.specs.Watched.{AreSomeWatched};
ghost use Rattle.wcp_model.specs.WorkloadComputation.{CouldBeRead};

use crate::words::{number_at, word_at};
use std::alloc::{AllocError, Global};
use std::fs;
use std::rt::Files;
use std::sync::Wait;
use std::thread::Threads;
use std::time::{Clock, Duration, Instant};
use wcp_model::{Outcome, Workload};
use wcp_run::run;
use wcp_script::{read_workload, single};
use wcp_worker::Open;

/// What came of some runs.
#[derive(Drop)]
struct Runs {
    /// How many came to the outcome of one thread.
    agreeing: u32,
    /// How long each took.
    spans: Vec<Duration>,
}

impl Runs {
    fn add(&mut self, span: Duration, agrees: bool) -> Result<(), AllocError> {
        self.agreeing = self.agreeing.wrapping_add(u32::from(agrees));
        Ok(self.spans.push(span)?)
    }
}

/// Runs a workload in threads once more.
fn run_once<R: Threads + Wait + Sync + Clock>(
    rt: &R,
    alloc: Global,
    workload: &Workload,
    outcome: &Outcome,
    runs: &mut Runs,
) -> anyhow::Result<()>
    requires read { CouldBeRead workload.now.plan.n workload.now.tasks.items }
    requires checked { IsCheckedPlan workload.now.plan }
    requires watched { AreSomeWatched workload.now.plan.n workload.now.plan.watched }
{
    let start = Instant::now(rt)?;
    let ran = run(rt, alloc, workload, &Open)?;
    runs.add(start.elapsed(rt)?, ran == *outcome)?;
    Ok(())
}

/// Runs the workload of a text so often.
fn run_often<R: Threads + Wait + Sync + Clock>(
    rt: &R,
    alloc: Global,
    text: &[u8],
    count: u32,
    runs: &mut Runs,
) -> anyhow::Result<()> {
    let workload = read_workload(alloc, text)?;
    let outcome = single(alloc, &workload)?;
    for _ in 0..count {
        run_once(rt, alloc, &workload, &outcome, runs)?;
    }
    Ok(())
}

/// Prints what came of so many runs.
fn print<R: Print + Eprint>(rt: &R, runs: &mut Runs, count: u32) -> anyhow::Result<()> {
    println!(rt; "{} of {count} runs agree", runs.agreeing)?;
    runs.spans.sort_unstable();
    let median = runs.spans.get(runs.spans.len() / 2);
    if let (Some(best), Some(median)) = (runs.spans.first(), median) {
        eprintln!(rt;
            "best {} us median {} us",
            best.as_micros(),
            median.as_micros()
        )?;
    }
    Ok(())
}

/// Runs what the words ask for, and prints what came of it.
pub fn make_calls<R: Threads + Wait + Clock + Files + Print + Eprint + AllocGlobal + Sync>(
    rt: &R,
    words: &[String],
) -> anyhow::Result<()> {
    let count = number_at(words, 0);
    let text = fs::read(rt, word_at(words, 1))?;
    let mut runs = Runs {
        agreeing: 0,
        spans: Vec::new(rt.alloc()),
    };
    run_often(rt, rt.alloc(), &text, count, &mut runs)?;
    print(rt, &mut runs, count)
}
