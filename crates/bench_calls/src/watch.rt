//! How much slower a program gets that is watched: `bench_calls watch PROGRAM MESSAGES MICROSECONDS EVERY RUNS`.
//!
//! The program is `ping-pong` of two processes, `pipeline` of four, `ring` of sixteen, or `pool` of a giver and three
//! takers. Its processes send about so many messages in all, over channels of `crossbeam_channel`. At each message that
//! it takes a process works for so many microseconds, and so does the source of a pipeline at each that it makes. The
//! condition of a process holds at one of EVERY messages, or at none where that is 0. The program runs so many times
//! unwatched, over plain messages and without probes, and as often watched, in turn.
//!
//! The conditions are such that no moment is ever found: a checker that has found one only counts what it takes, which
//! would make the watched program cheaper than one whose bad moment never comes. In a ring, of two or sixteen, the
//! condition is that the process has the token; in a pool, that a taker has a job, and that the giver has all answers.
//! The messages put any two such states of a ring in order, and any of the giver and of a taker, so each snapshot drops
//! those before it. In a pipeline the sink's condition never holds, so the snapshots of the other stages wait in the
//! checker's queues, which grow until the end.
//!
//! It prints how many runs agree: both ways came to the same values, and no moment was found. It prints also how many
//! snapshots the checker took in a watched run. As errors are printed, a table has the medians of wall time and of
//! processor time, which is that of all threads, and their ratios.

use crate::player::{Player, Task, play_all};
use crate::program::Program;
use crate::stopwatch::{Spendings, Spent, Stopwatch};
use crate::words::{number_at, word_at};
use crate::work::Work;
use anyhow::{Result, bail};
use std::alloc::Global;
use std::sync::{Mutex, Wait};
use std::thread::Threads;
use std::time::{Clock, CpuClock};
use wullaphi::{Book, Plan, Report, plain_plan, watch_processes};

/// The number of each watch: they run one after another.
const WATCH: u64 = 1;

/// How many notes each link and each hold of a watch has room for.
const ROOM: u32 = 64;

/// What is to be measured.
#[derive(Drop)]
struct Measure {
    program: Program,
    plan: Plan,
    messages: u32,
    task: Task,
}

/// What came of the runs.
#[derive(Drop)]
struct Measured {
    plain: Spendings,
    watched: Spendings,
    /// How many times both came to the same values, and there was no moment.
    agreeing: u32,
    /// How many snapshots were taken, in all watched runs.
    taken: u64,
}

impl Measure {
    /// Runs the program unwatched: what its processes came to.
    fn run_plain<R: Threads + Wait + Clock + CpuClock + Sync>(
        &self,
        rt: &R,
        alloc: Global,
        measured: &mut Measured,
    ) -> Result<u64> {
        let players: Vec<Player<u64>> = self.program.players(alloc, self.messages)?;
        let stopwatch = Stopwatch::start(rt)?;
        let answers = play_all(rt, players, &self.task)?;
        measured.plain.add(stopwatch.stop(rt)?)?;
        combine(answers)
    }

    /// Runs the program watched: what its processes came to, where there was no moment.
    fn run_watched<R: Threads + Wait + Clock + CpuClock + Sync>(
        &self,
        rt: &R,
        alloc: Global,
        measured: &mut Measured,
    ) -> Result<Option<u64>> {
        let players = self.program.players(alloc, self.messages)?;
        // The watch begins the book anew, for as many processes as it has.
        let book = Mutex::new(Book::new(1));
        let stopwatch = Stopwatch::start(rt)?;
        let watched = watch_processes(rt, alloc, &self.plan, WATCH, players, &self.task, &book)?;
        measured.watched.add(stopwatch.stop(rt)?)?;
        measured.taken = measured.taken.wrapping_add(watched.totals.taken);
        let value = combine(watched.answers)?;
        match watched.outcome.report {
            Report::Nothing => Ok(Some(value)),
            Report::Found(_) | Report::Undecided => Ok(None),
        }
    }

    /// Runs the program once more each way.
    fn run_both<R: Threads + Wait + Clock + CpuClock + Sync>(
        &self,
        rt: &R,
        alloc: Global,
        measured: &mut Measured,
    ) -> Result<()> {
        let plain = self.run_plain(rt, alloc, measured)?;
        let watched = self.run_watched(rt, alloc, measured)?;
        measured.agreeing = measured
            .agreeing
            .wrapping_add(u32::from(watched == Some(plain)));
        Ok(())
    }
}

/// What the processes came to together.
fn combine(answers: Vec<Result<u64>>) -> Result<u64> {
    let mut all = 0u64;
    for answer in answers {
        all = all.rotate_left(1) ^ answer?;
    }
    Ok(all)
}

/// Prints what came of so many runs.
fn print<R: Print + Eprint>(rt: &R, measured: &mut Measured, runs: u32) -> Result<()> {
    let each = measured.taken / u64::from(runs.max(1));
    println!(rt;
        "{} of {runs} runs agree, with {each} snapshots",
        measured.agreeing
    )?;
    let (Some(plain), Some(watched)) = (measured.plain.medians(), measured.watched.medians()) else {
        return Ok(());
    };
    eprintln!(rt; "| | wall time | processor time |\n|---|---|---|")?;
    print_times(rt, "plain", plain)?;
    print_times(rt, "watched", watched)?;
    print_ratios(rt, plain, watched)
}

/// Prints times as a line of a table.
fn print_times<R: Eprint>(rt: &R, name: &str, spent: Spent) -> Result<()> {
    eprintln!(rt;
        "| {name} | {}.{:03} ms | {}.{:03} ms |",
        spent.wall / 1_000,
        spent.wall % 1_000,
        spent.processor / 1_000,
        spent.processor % 1_000
    )?;
    Ok(())
}

/// Prints the ratios of times as a line of a table.
fn print_ratios<R: Eprint>(rt: &R, plain: Spent, watched: Spent) -> Result<()> {
    let wall = hundredths(watched.wall, plain.wall);
    let processor = hundredths(watched.processor, plain.processor);
    eprintln!(rt;
        "| ratio | {}.{:02} | {}.{:02} |",
        wall / 100,
        wall % 100,
        processor / 100,
        processor % 100
    )?;
    Ok(())
}

/// How many hundredths of the second number the first is.
fn hundredths(some: u64, whole: u64) -> u64 {
    some.saturating_mul(100) / whole.max(1)
}

/// What these words ask for.
fn measure_of<R: Clock>(rt: &R, alloc: Global, words: &[String]) -> Result<Measure> {
    let Some(program) = Program::named(word_at(words, 0)) else {
        bail!("no such program");
    };
    let work = Work::lasting(rt, number_at(words, 2))?;
    Ok(Measure {
        program,
        plan: plain_plan(alloc, program.processes(), ROOM, ROOM)?,
        messages: number_at(words, 1),
        task: Task {
            work,
            every: number_at(words, 3),
        },
    })
}

/// Runs what the words ask for, and prints what came of it.
pub fn make_calls<R: Threads + Wait + Clock + CpuClock + Print + Eprint + AllocGlobal + Sync>(
    rt: &R,
    words: &[String],
) -> Result<()> {
    let alloc = rt.alloc();
    let measure = measure_of(rt, alloc, words)?;
    let runs = number_at(words, 4);
    let mut measured = Measured {
        plain: Spendings::none(alloc),
        watched: Spendings::none(alloc),
        agreeing: 0,
        taken: 0,
    };
    for _ in 0..runs {
        measure.run_both(rt, alloc, &mut measured)?;
    }
    print(rt, &mut measured, runs)
}
