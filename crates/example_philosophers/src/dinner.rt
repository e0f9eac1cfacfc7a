use crate::PHILOSOPHERS;
use crate::philosopher::{Philosopher, Table};
use anyhow::Result;
use std::alloc::Global;
use std::sync::atomic::{AtomicBool, AtomicU32, Ordering};
use std::sync::{Mutex, Wait};
use std::thread::Threads;
use wullaphi::{Book, Report, Watched, WatchedMutex, plain_plan, watch_processes};

/// How often each of them eats.
const MEALS: u32 = 3;

/// What came of a dinner.
#[derive(Drop)]
pub(crate) struct Dinner {
    /// Whether two philosophers could have eaten at once.
    pub(crate) report: Report,
    /// Whether they did, as they saw each other eat.
    pub(crate) at_once: bool,
}

/// Has five philosophers dine, and asks whether `a` and `b` could have eaten at once. Each takes two forks, or the first
/// one that on its right alone.
pub(crate) fn dine<R: Threads + Wait + Sync>(
    rt: &R,
    alloc: Global,
    each_takes_both: bool,
    a: u32,
    b: u32,
) -> Result<Dinner> {
    let mut forks = Vec::with_capacity(alloc, PHILOSOPHERS as usize)?;
    let mut philosophers = Vec::with_capacity(alloc, PHILOSOPHERS as usize)?;
    for number in 0..PHILOSOPHERS {
        forks.push(WatchedMutex::new(0))?;
        philosophers.push(Philosopher {
            right: number as usize,
            left: (number as usize + 1) % PHILOSOPHERS as usize,
            takes_both: each_takes_both || number != 0,
            is_asked: number == a || number == b,
            meals: MEALS,
        })?;
    }
    let table = Table {
        forks,
        eating: AtomicU32::new(0),
        at_once: AtomicBool::new(false),
    };
    let mut plan = plain_plan(alloc, PHILOSOPHERS, 64, 64)?;
    plan.watched = Watched::pair(a, b);
    let book = Mutex::new(Book::new(PHILOSOPHERS));
    let watched = watch_processes(rt, alloc, &plan, 1, philosophers, &table, &book)?;
    for answer in watched.answers {
        answer?;
    }
    Ok(Dinner {
        report: watched.outcome.report,
        at_once: table.at_once.load(Ordering::SeqCst),
    })
}
