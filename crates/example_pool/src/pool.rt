//! A run of the pool, from the plan of its watch to the report.
ghost use Rattle.std.specs.Prelude.{◌≡◌, [], ◌∷◌, map, IfOk, Ok};
ghost use Rattle.example_pool.specs.Members.{LeavesPart};
ghost use Rattle.example_pool.specs.Pools.{IsPoolReport};
ghost use Rattle.wullaphi.specs.WatchOutcomes.{IsWatchOutcome};

use crate::dispatcher::{Pace, REPLICAS};
use crate::job::JobNumbers;
use crate::member::{PoolMember, Share, Stop};
use crate::opening::{open_members, pool_plan};
use crate::pool_fault::PoolFault;
use std::alloc::{AllocError, Global};
use std::sync::atomic::{AtomicBool, Ordering};
use std::sync::{Mutex, Wait};
use std::thread::{Threads, join, sleep};
use std::time::{Clock, Duration};
use wullaphi::{Book, Outcome, Plan, Tally, WatchFault, WatchOutcome, watch_processes};

/// The number of the watch: stamps of another one are refused.
const WATCH: u64 = 1;

/// How many milliseconds the reader of the totals sleeps between two looks.
const PAUSE: u64 = 1;

/// What a run of the pool gave.
#[derive(Drop)]
pub struct PoolReport {
    /// The share of the work of each process.
    pub shares: Vec<Share>,
    pub outcome: Outcome,
    /// The totals of the book.
    pub totals: Tally,
    /// The totals of the book, as they were last read beside the run.
    pub seen: Tally,
}

/// Runs so many rounds of the pool and its watch, each part in a thread of its own. This replica vanishes at its first
/// job, if one is named.
pub fn run_pool<R: Threads + Wait + Clock + Sync>(
    rt: &R,
    alloc: Global,
    pace: Pace,
    rounds: u16,
    vanishing: Option<u32>,
) -> Result<PoolReport, PoolFault>
    ensures { IfOk result (IsPoolReport 3 rounds pace) }
{
    let plan = pool_plan(alloc)?;
    let members = open_members(alloc, pace, rounds, vanishing)?;
    let numbers = JobNumbers::new(alloc, u32::from(rounds) * REPLICAS)?;
    let (watched, seen) = watch_and_read(rt, alloc, &plan, WATCH, members, &numbers)?;
    let shares = shares_of(alloc, watched.answers)?;
    Ok(PoolReport {
        shares,
        outcome: watched.outcome,
        totals: watched.totals,
        seen,
    })
}

/// Watches the members under this number, and beside them reads the totals.
fn watch_and_read<R: Threads + Wait + Clock + Sync>(
    rt: &R,
    alloc: Global,
    plan: &Plan,
    watch: u64,
    members: Vec<PoolMember>,
    numbers: &JobNumbers,
) -> Result<(WatchOutcome<Result<Share, Stop>>, Tally), WatchFault>
    ensures { IfOk result (λ run. IsWatchOutcome LeavesPart watch plan.now (plan.now.watched ∷ []) members.items run.0) }
{
    let book = Mutex::new(Book::new(REPLICAS + 1));
    let ended = AtomicBool::new(false);
    let (seen, watched) = join(
        rt,
        || last_totals(rt, &book, &ended),
        || -> Result<WatchOutcome<Result<Share, Stop>>, WatchFault>
            ensures { IfOk result (IsWatchOutcome LeavesPart watch plan.entry.now (plan.entry.now.watched ∷ []) members.items) }
        {
            let watched = watch_processes(rt, alloc, plan, watch, members, numbers, &book);
            ended.store(true, Ordering::SeqCst);
            watched
        },
    );
    match watched {
        Ok(watched) => Ok((watched, seen)),
        Err(fault) => Err(fault),
    }
}

/// Reads the totals now and then until the run has ended, and gives the last ones.
fn last_totals<R: Wait + Clock>(rt: &R, book: &Mutex<Book>, ended: &AtomicBool) -> Tally {
    for _ in rt.forever() {
        let last = ended.load(Ordering::SeqCst);
        let totals = book.lock(rt).totals();
        if last {
            return totals;
        }
        sleep(rt, Duration::from_millis(PAUSE));
    }
    unreachable!()
}

/// The shares that these members answered. `Err` where memory runs out, or a member stopped before its part was done:
/// then it names the lowest that was refused a message, or else the lowest.
fn shares_of(alloc: Global, answers: Vec<Result<Share, Stop>>) -> Result<Vec<Share>, PoolFault>
    ensures { IfOk result (λ shares. answers.items ≡ map Ok shares.items) }
{
    if let Some(fault) = first_refused(&answers) {
        return Err(fault);
    }
    let mut shares = Vec::with_capacity(alloc, answers.len())?;
    let mut process = 0u32;
    for answer in answers {
        match answer {
            Ok(share) => shares.push(share)?,
            Err(stop) => return Err(PoolFault::Stopped(process, stop)),
        }
        process = process.wrapping_add(1);
    }
    Ok(shares)
}

/// The lowest member that was refused a message, if there is one.
fn first_refused(answers: &[Result<Share, Stop>]) -> Option<PoolFault> {
    let mut process = 0u32;
    for answer in answers {
        if let Err(Stop::Refused(refusal)) = answer {
            return Some(PoolFault::Stopped(process, Stop::Refused(*refusal)));
        }
        process = process.wrapping_add(1);
    }
    None
}
