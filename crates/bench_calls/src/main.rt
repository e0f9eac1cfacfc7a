//! Makes many calls, so that what they cost can be measured: `bench_calls PART WORD..`. The part is `probe`, `ring`,
//! `lane`, `locks`, `tree`, `run`, `slow` or `watch`; the words behind it are those of the module that is named so.
#![tactic(auto)]

mod attending;
mod lane;
mod locks;
mod player;
mod probe;
mod program;
mod ring;
mod run;
mod slow;
mod stopwatch;
mod taken;
mod tree;
mod watch;
mod words;
mod work;

use anyhow::{Result, bail};
use std::env;
use std::rt::Runtime;
use std::sync::Wait;
use std::thread::Threads;
use std::time::CpuClock;

/// Makes the calls that the words behind the program's name ask for.
fn make_calls<R: Runtime + Threads + Wait + CpuClock + AllocGlobal + Send + Sync + 'static>(
    rt: &R,
    words: &[String],
) -> Result<()> {
    let [_, part, words @ ..] = words else {
        bail!("no part");
    };
    match part.as_str() {
        "probe" => probe::make_calls(rt, words),
        "ring" => ring::make_calls(rt, words),
        "lane" => lane::make_calls(rt, words),
        "locks" => locks::make_calls(rt, words),
        "tree" => tree::make_calls(rt, words),
        "run" => run::make_calls(rt, words),
        "slow" => slow::make_calls(rt, words),
        "watch" => watch::make_calls(rt, words),
        _ => bail!("no such part"),
    }
}

fn main(rt: HostRuntime) -> Result<()> {
    let words: Vec<String> = env::args(&rt)?.collect(rt.alloc())?;
    make_calls(&rt, words.as_slice())
}
