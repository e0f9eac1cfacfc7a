use crate::dispatcher::{Pace, REPLICAS};
use crate::pool::run_pool;
use crate::pool_fault::PoolFault;
use crate::pool_text::{lost_text, pool_text};
use std::env;
use std::io::ErrorKind;
use std::rt::Env;
use std::sync::Wait;
use std::thread::Threads;
use std::time::Clock;
use wullaphi::Report;

/// How many rounds there are.
const ROUNDS: u16 = 2;

/// The program: it runs the pool, with the word `safe` in turn, and prints what came of it. With the word `lost` the
/// last replica vanishes at its first job, and it prints who was lost and what is known then. A fault is one line on
/// standard error. The answer is the exit status: 0 where the replicas could all have been at work in one moment, 1
/// where they couldn't or that isn't known, and 2 after a fault.
pub fn run_program<R: Threads + Wait + Clock + Env + Print + Eprint + AllocGlobal + Sync>(
    rt: &R,
) -> u8 {
    match run_and_print(rt) {
        Ok(status) => status,
        Err(fault) => {
            let _ = eprintln!(rt; "example_pool: {fault}");
            2
        }
    }
}

fn run_and_print<R: Threads + Wait + Clock + Env + Print + AllocGlobal + Sync>(
    rt: &R,
) -> Result<u8, PoolFault> {
    let words = words(rt)?;
    let alloc = rt.alloc();
    let (pace, vanishing) = asked_for(&words)?;
    let (text, report) = match run_pool(rt, alloc, pace, ROUNDS, vanishing) {
        Ok(run) => (pool_text(alloc, &run)?, run.outcome.report),
        Err(PoolFault::Lost { process, report }) => (lost_text(alloc, process, &report)?, report),
        Err(fault) => return Err(fault),
    };
    if rt.print(text.as_str()).is_err() {
        return Err(PoolFault::Write);
    }
    Ok(match report {
        Report::Found(_) => 0,
        Report::Nothing | Report::Undecided => 1,
    })
}

/// The words of the command line, of which the first is the program's name.
fn words<R: Env + AllocGlobal>(rt: &R) -> Result<Vec<String>, PoolFault> {
    match env::args(rt) {
        Ok(words) => Ok(words.collect(rt.alloc())?),
        Err(error) if error.kind() == ErrorKind::OutOfMemory => Err(PoolFault::Memory),
        Err(_) => Err(PoolFault::Usage),
    }
}

/// What these words ask for: how the jobs are given out, and which replica vanishes, if one does.
fn asked_for(words: &[String]) -> Result<(Pace, Option<u32>), PoolFault> {
    match words {
        [] | [_] => Ok((Pace::Together, None)),
        [_, word] if word.as_str() == "safe" => Ok((Pace::InTurn, None)),
        [_, word] if word.as_str() == "lost" => Ok((Pace::Together, Some(REPLICAS))),
        _ => Err(PoolFault::Usage),
    }
}
