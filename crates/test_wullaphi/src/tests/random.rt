//! Random programs whose threads really run: what was true at once, as the threads saw each other, is never told to be
//! impossible.
use super::actors::{Actor, Stage};
use super::programs::random_program;
use std::alloc::Global;
use std::process::Abort;
use std::sync::atomic::Ordering;
use std::sync::{Mutex, Wait};
use std::thread::Threads;
use wullaphi::{Book, Report, Watched, plain_plan, watch_processes};

/// How many programs run.
const PROGRAMS: u32 = 1000;

/// What a program was told, and whether its first two processes were true at once.
#[derive(Drop)]
struct Told {
    report: Report,
    at_once: bool,
}

/// Watches the program with this seed, and asks of its first two processes.
fn watch<R: Threads + Wait + Sync + Abort>(rt: &R, alloc: Global, seed: u32) -> Told {
    let [first, second, third] = random_program(alloc, seed).expect(rt, "memory");
    let mut actors = Vec::new(alloc);
    for (steps, is_asked) in [(first, true), (second, true), (third, false)] {
        actors
            .push(Actor::new(steps, is_asked))
            .expect(rt, "memory");
    }
    let stage = Stage::new(alloc).expect(rt, "memory");
    let mut plan = plain_plan(alloc, 3, 8, 4).expect(rt, "memory");
    plan.watched = Watched::pair(0, 1);
    let book = Mutex::new(Book::new(3));
    let Ok(watched) = watch_processes(rt, alloc, &plan, 1, actors, &stage, &book) else {
        panic!(rt; "no answer")
    };
    for answer in watched.answers {
        assert!(rt; answer == Ok(()));
    }
    Told {
        report: watched.outcome.report,
        at_once: stage.at_once.load(Ordering::SeqCst),
    }
}

#[test]
fn what_was_at_once_is_never_ruled_out(rt: HostRuntime) {
    let mut at_once: u32 = 0;
    let mut ruled_out: u32 = 0;
    for seed in 0..PROGRAMS {
        let told = watch(&rt, rt.alloc(), seed);
        let is_ruled_out = told.report == Report::Nothing;
        assert!(rt; !(told.at_once && is_ruled_out), "program {seed}");
        at_once = at_once.wrapping_add(u32::from(told.at_once));
        ruled_out = ruled_out.wrapping_add(u32::from(is_ruled_out));
    }
    assert!(rt; at_once >= 50 && ruled_out >= 5, "{at_once} {ruled_out}");
}
