//! A ring of three workers that pass a token, watched while it runs: could two of them have held one at once? One run
//! answers for each two of them. The word `two` lets in a second token by mistake. With `--meet` each two try to hold one
//! at the same time, at the moment that was found. With `log` it prints what each worker of a run did, as a log with
//! vector clocks.
#![tactic(auto)]

mod ring;
mod worker;

use crate::ring::{PAIRS, run_ring};
use anyhow::{Result, bail};
use std::env;
use std::rt::Env;
use std::sync::{Arc, Wait};
use std::thread::Threads;
use std::time::Clock;
use wullaphi::{Attendance, Meeting, Report, Watched};
use wullaphi_record::recorded_log;

/// How often two workers try to meet at most.
const TRIES: u32 = 4;

fn main(rt: HostRuntime) -> Result<()> {
    run_program(&rt)
}

/// Asks of each two workers whether both could have held a token at once, or has them meet, or prints the log of a run.
fn run_program<
    R: Threads + Wait + Clock + Env + Print + AllocGlobal + Send + Sync + Clone + Drop + 'static,
>(rt: &R) -> Result<()> {
    let words: Vec<String> = env::args(rt)?.collect(rt.alloc())?;
    let (mut two, mut meets, mut logs) = (false, false, false);
    for word in words.iter().skip(1) {
        match word.as_str() {
            "two" => two = true,
            "--meet" if !logs => meets = true,
            "log" if !meets => logs = true,
            _ => bail!("usage: example_ring [two] [--meet | log]"),
        }
    }
    if logs {
        return print_log(rt, two);
    }
    let (reports, _) = run_ring(rt, rt.alloc(), two, None)?;
    for ((a, b), report) in PAIRS.into_iter().zip(&reports) {
        if meets {
            let there = meet_again(rt, two, Watched::pair(a, b), report)?;
            println!(rt; "workers {a} and {b}: {there}")?;
        } else {
            print_report(rt, a, b, report)?;
        }
    }
    Ok(())
}

/// Prints the log of a run.
fn print_log<
    R: Threads + Wait + Clock + Print + AllocGlobal + Send + Sync + Clone + Drop + 'static,
>(rt: &R, two: bool) -> Result<()> {
    let (_, records) = run_ring(rt, rt.alloc(), two, None)?;
    let log = recorded_log(rt.alloc(), &records)?;
    rt.print(log.as_str())?;
    Ok(())
}

/// Runs the ring again until these workers have met: in the intervals of the cut that was found, and wherever they hold
/// a token, in turn. Where no cut was found they try it once, anywhere.
fn meet_again<R: Threads + Wait + Clock + AllocGlobal + Send + Sync + Clone + Drop + 'static>(
    rt: &R,
    two: bool,
    watched: Watched,
    report: &Report,
) -> Result<Attendance> {
    let mut there = Attendance::new(watched);
    for attempt in 0..TRIES {
        let meeting = match report.cut() {
            Some(cut) if attempt % 2 == 0 => shared(rt, Meeting::at_cut(&cut))?,
            _ => shared(rt, Meeting::new(watched))?,
        };
        run_ring(rt, rt.alloc(), two, Some(&meeting))?;
        there = meeting.attendance(rt);
        if there.met().is_some() || report.cut().is_none() {
            break;
        }
    }
    Ok(there)
}

/// A meeting for all workers.
fn shared<R: AllocGlobal>(rt: &R, meeting: Meeting) -> Result<Arc<Meeting>> {
    match Arc::new(rt.alloc(), meeting) {
        Ok(meeting) => Ok(meeting),
        Err(_) => bail!("memory"),
    }
}

/// Prints whether these two workers could have held a token at once.
fn print_report<R: Print>(rt: &R, a: u32, b: u32, report: &Report) -> Result<()> {
    match report {
        Report::Found(cut) => {
            print!(rt; "workers {a} and {b} held a token at once")?;
            for worker in 0..cut.len() {
                if let Some(messages) = cut.get(worker) {
                    print!(rt; ", worker {worker} after {messages} of its messages")?;
                }
            }
            println!(rt; "")?;
        }
        Report::Nothing => println!(rt; "workers {a} and {b} never held a token at once")?,
        Report::Undecided => println!(rt; "workers {a} and {b}: undecided")?,
    }
    Ok(())
}
