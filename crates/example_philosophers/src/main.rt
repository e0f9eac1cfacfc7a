//! Five philosophers dine at a round table, watched while they do: could two neighbours have eaten at once? The word
//! `table` has one of them eat without the fork that it shares with its neighbour, in as many dinners as are asked for.
#![tactic(auto)]

mod dinner;
mod philosopher;

use crate::dinner::{Dinner, dine};
use anyhow::{Result, bail};
use std::env;
use std::rt::Env;
use std::sync::Wait;
use std::thread::Threads;
use wullaphi::Report;

/// How many dine.
const PHILOSOPHERS: u32 = 5;

fn main(rt: HostRuntime) -> Result<()> {
    run_program(&rt)
}

/// Prints of each two neighbours whether both could have eaten at once, or with the word `table` in how many of so many
/// dinners the first two could have, and in how many they did.
fn run_program<R: Threads + Wait + Env + Print + AllocGlobal + Sync>(rt: &R) -> Result<()> {
    let words: Vec<String> = env::args(rt)?.collect(rt.alloc())?;
    match words.as_slice() {
        [] | [_] => neighbours(rt),
        [_, word] if word.as_str() == "table" => table(rt, 1),
        [_, word, count] if word.as_str() == "table" => table(rt, count.as_str().parse()?),
        _ => bail!("usage: example_philosophers [table [DINNERS]]"),
    }
}

/// Each dinner asks of one pair.
fn neighbours<R: Threads + Wait + Print + AllocGlobal + Sync>(rt: &R) -> Result<()> {
    for a in 0..PHILOSOPHERS {
        let b = (a + 1) % PHILOSOPHERS;
        match dine(rt, rt.alloc(), true, a, b)?.report {
            Report::Found(_) => println!(rt; "philosophers {a} and {b} could have eaten at once")?,
            Report::Nothing => println!(rt; "philosophers {a} and {b} never ate at once")?,
            Report::Undecided => println!(rt; "philosophers {a} and {b}: undecided")?,
        }
    }
    Ok(())
}

/// Each dinner asks of the first two, who don't share a fork.
fn table<R: Threads + Wait + Print + AllocGlobal + Sync>(rt: &R, dinners: u32) -> Result<()> {
    let mut found: u32 = 0;
    let mut together: u32 = 0;
    for _ in 0..dinners {
        let Dinner { report, at_once } = dine(rt, rt.alloc(), false, 0, 1)?;
        found = found.saturating_add(u32::from(matches!(report, Report::Found(_))));
        together = together.saturating_add(u32::from(at_once));
    }
    println!(rt;
        "philosophers 0 and 1 could have eaten at once in {found} of {dinners} dinners, and did in {together}"
    )?;
    Ok(())
}
