//! What locks and queues cost whose order a watch sees, beside plain ones: `bench_calls locks CALLS RUNS`.
//!
//! Two processes of a watch make the calls, so many at a time, plain and watched in turn. One of them locks and lets go
//! of a free lock, and puts an item into a queue and gets it again. Then it passes items to the other, each in its own
//! thread. No condition holds, so nothing is emitted.
//!
//! It prints how many calls were made in all. As errors are printed, a table has the medians of the time of a call, by
//! the wall and by the processor, which is that of all threads.

use crate::stopwatch::{Spendings, Spent, Stopwatch};
use crate::words::number_at;
use anyhow::{Result, anyhow};
use crossbeam_channel::{Receiver, Sender, bounded};
use std::alloc::Global;
use std::rt::Runtime;
use std::sync::{Barrier, Mutex, Wait};
use std::thread::Threads;
use std::time::{Clock, CpuClock};
use wullaphi::{
    Book, LentProbe, Loan, Process, WatchedMutex, WatchedQueue, plain_plan, watch_processes,
};

/// The room of the channel and of the queue.
const ROOM: usize = 64;

/// What is measured.
#[derive(Clone, Copy, PartialEq, Eq)]
enum Kind {
    Lock,
    WatchedLock,
    Hop,
    WatchedHop,
    Pass,
    WatchedPass,
}

/// Everything that is measured, with what the table calls it.
const KINDS: [(Kind, &str); 6] = [
    (Kind::Lock, "lock and release"),
    (Kind::WatchedLock, "the same, watched"),
    (Kind::Hop, "put and get, one thread"),
    (Kind::WatchedHop, "the same, watched"),
    (Kind::Pass, "put and get, two threads"),
    (Kind::WatchedPass, "the same, watched"),
];

/// What the two processes share.
#[derive(Drop)]
struct Shared {
    lock: Mutex<u64>,
    watched_lock: WatchedMutex<u64>,
    sender: Sender<u64>,
    receiver: Receiver<u64>,
    queue: WatchedQueue<u64>,
    both: Barrier,
}

impl Shared {
    fn new(alloc: Global) -> Result<Shared> {
        let (sender, receiver) = bounded(alloc, ROOM)?;
        Ok(Shared {
            lock: Mutex::new(0),
            watched_lock: WatchedMutex::new(0),
            sender,
            receiver,
            queue: WatchedQueue::new(alloc, ROOM)?,
            both: Barrier::new(2),
        })
    }

    /// How often both locks were had.
    fn locked<R: Wait>(self, rt: &R) -> u64 {
        let plain = *self.lock.lock(rt);
        plain.wrapping_add(self.watched_lock.into_inner())
    }
}

/// What some calls took.
#[derive(Clone, Copy)]
struct Measured {
    kind: Kind,
    spent: Spent,
}

/// A process, and how many calls it makes at a time, in how many runs.
#[derive(Drop)]
struct Caller<C> {
    clock: C,
    alloc: Global,
    calls: u32,
    runs: u32,
    /// Whether it makes the calls of one process, and puts what the other gets.
    leads: bool,
}

impl<C: Clock + CpuClock> Caller<C> {
    /// Makes its calls of one kind.
    fn make_calls<L: Loan, R: Wait>(
        &self,
        rt: &R,
        probe: &mut LentProbe<L>,
        shared: &Shared,
        kind: Kind,
    ) -> Result<()> {
        for call in 0..self.calls {
            let item = u64::from(call);
            match kind {
                Kind::Lock => lock(rt, &shared.lock),
                Kind::WatchedLock => lock_watched(rt, probe, &shared.watched_lock)?,
                Kind::Hop => {
                    put(rt, shared, item)?;
                    shared.receiver.recv(rt)?;
                }
                Kind::WatchedHop => {
                    put_watched(rt, probe, shared, item)?;
                    shared.queue.get(rt, probe)?;
                }
                Kind::Pass if self.leads => put(rt, shared, item)?,
                Kind::Pass => {
                    shared.receiver.recv(rt)?;
                }
                Kind::WatchedPass if self.leads => put_watched(rt, probe, shared, item)?,
                Kind::WatchedPass => {
                    shared.queue.get(rt, probe)?;
                }
            }
        }
        Ok(())
    }
}

fn lock<R: Wait>(rt: &R, lock: &Mutex<u64>) {
    let mut held = lock.lock(rt);
    *held = held.wrapping_add(1);
}

fn lock_watched<L: Loan, R: Wait>(
    rt: &R,
    probe: &mut LentProbe<L>,
    lock: &WatchedMutex<u64>,
) -> Result<()> {
    let mut guard = lock.lock(rt, probe)?;
    let held = guard.value();
    *held = held.wrapping_add(1);
    Ok(guard.unlock(rt, probe)?)
}

fn put<R: Wait>(rt: &R, shared: &Shared, item: u64) -> Result<()> {
    shared
        .sender
        .send(rt, item)
        .map_err(|_| anyhow!("nobody receives"))
}

fn put_watched<L: Loan, R: Wait>(
    rt: &R,
    probe: &mut LentProbe<L>,
    shared: &Shared,
    item: u64,
) -> Result<()> {
    shared
        .queue
        .put(rt, probe, item)
        .map_err(|(refusal, _)| refusal.into())
}

impl<C: Clock + CpuClock + Send + Drop> Process for Caller<C> {
    type Shared = Shared;

    type Answer = Result<Vec<Measured>>;

    fn run<L: Loan, R: Wait>(
        self,
        rt: &R,
        probe: &mut LentProbe<L>,
        shared: &Shared,
    ) -> Result<Vec<Measured>> {
        let mut measured = Vec::new(self.alloc);
        for _ in 0..self.runs {
            for (kind, _) in KINDS {
                let is_of_two = matches!(kind, Kind::Pass | Kind::WatchedPass);
                shared.both.wait(rt);
                let stopwatch = Stopwatch::start(&self.clock)?;
                if self.leads || is_of_two {
                    self.make_calls(rt, probe, shared, kind)?;
                }
                if is_of_two {
                    shared.both.wait(rt);
                }
                let spent = stopwatch.stop(&self.clock)?;
                measured.push(Measured { kind, spent })?;
            }
        }
        Ok(measured)
    }
}

/// Prints what the calls of each kind took, as lines of a table.
fn print<R: Eprint>(rt: &R, alloc: Global, measured: &[Measured], calls: u32) -> Result<()> {
    eprintln!(rt; "| | wall time | processor time |\n|---|---|---|")?;
    for (kind, name) in KINDS {
        let mut spendings = Spendings::none(alloc);
        for each in measured {
            if each.kind == kind {
                spendings.add(each.spent)?;
            }
        }
        if let Some(spent) = spendings.medians() {
            let wall = nanoseconds(spent.wall, calls);
            let processor = nanoseconds(spent.processor, calls);
            eprintln!(rt; "| {name} | {wall} ns | {processor} ns |")?;
        }
    }
    Ok(())
}

/// The nanoseconds of a call, of so many that took these microseconds.
fn nanoseconds(microseconds: u64, calls: u32) -> u64 {
    microseconds.saturating_mul(1_000) / u64::from(calls.max(1))
}

/// Makes the calls that the words ask for, and prints what they took.
pub fn make_calls<R: Runtime + Threads + Wait + CpuClock + AllocGlobal + Send + Sync + 'static>(
    rt: &R,
    words: &[String],
) -> Result<()> {
    let alloc = rt.alloc();
    let calls = number_at(words, 0);
    let runs = number_at(words, 1);
    let mut callers = Vec::new(alloc);
    for leads in [true, false] {
        callers.push(Caller {
            clock: rt.clone()?,
            alloc,
            calls,
            runs,
            leads,
        })?;
    }
    let shared = Shared::new(alloc)?;
    let plan = plain_plan(alloc, 2, 64, 64)?;
    let book = Mutex::new(Book::new(2));
    let watched = watch_processes(rt, alloc, &plan, 1, callers, &shared, &book)?;
    let mut leads = true;
    for answer in watched.answers {
        let measured = answer?;
        if leads {
            print(rt, alloc, measured.as_slice(), calls)?;
        }
        leads = false;
    }
    println!(rt; "locked {} times", shared.locked(rt))?;
    Ok(())
}
