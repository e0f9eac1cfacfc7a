//! A relay that runs beside its processes: what they emit comes to the checker before the relay is joined.
ghost use Rattle.std.specs.Prelude.{◌≡◌, Some};

use super::opened::{True, plan_of_two};
use std::alloc::Global;
use std::marker::Brand;
use std::process::Abort;
use std::sync::{Mutex, Wait};
use std::thread::{Threads, join, sleep};
use std::time::{Clock, Duration};
use wullaphi::{Book, OpenWatch, Opening, WatchChecker, WatchParts, WatchProbe, WatchRelay};

/// How often the book is looked at, and how many milliseconds pass behind each look.
const LOOKS: u32 = 500;

const BETWEEN_LOOKS: u64 = 10;

/// Whether the cut is told while it is waited for.
fn is_told<R: Wait + Clock>(rt: &R, book: &Mutex<Book>) -> bool {
    for _ in 0..LOOKS {
        if book.lock(rt).found().is_some() {
            return true;
        }
        let _ = sleep(rt, Duration::from_millis(BETWEEN_LOOKS));
    }
    false
}

/// Runs two processes that are true once, one after the other, and then waits for the cut: whether it is told.
fn run_and_wait<W: Opening, R: Wait + Clock>(
    rt: &R,
    first: WatchProbe<W>,
    second: WatchProbe<W>,
    book: &Mutex<Book>,
) -> bool {
    drop(first.run(rt, True, &()));
    drop(second.run(rt, True, &()));
    is_told(rt, book)
}

/// Runs the checker, and the relay beside the processes: whether the cut is told before the relay is joined.
fn run_all<W: Opening + Send + Sync, R: Threads + Wait + Sync + Clock>(
    rt: &R,
    first: WatchProbe<W>,
    second: WatchProbe<W>,
    relay: WatchRelay<W>,
    checker: WatchChecker<W>,
    book: &Mutex<Book>,
) -> bool {
    let (_, (_, told)) = join(
        rt,
        move || checker.run(rt, book),
        move || relay.run_beside(rt, move || run_and_wait(rt, first, second, book)),
    );
    told
}

/// Runs this watch of two processes: whether the cut is told before its relay is joined.
fn is_told_beside<W: Opening + Send + Sync, R: Threads + Wait + Sync + Clock + Abort>(
    rt: &R,
    alloc: Global,
    watch: OpenWatch,
) -> bool
    requires { W.opened ≡ Some watch }
{
    let book = Mutex::new(watch.book());
    let WatchParts {
        mut probes,
        mut relays,
        checker,
        ..
    } = watch.parts::<W>(alloc).expect(rt, "memory");
    let second = probes.pop().expect(rt, "the probe of process 1");
    let first = probes.pop().expect(rt, "the probe of process 0");
    let relay = relays.pop().expect(rt, "a relay");
    run_all(rt, first, second, relay, checker, &book)
}

/// Opens a watch of two processes, and runs it: whether the cut is told before its relay is joined.
fn opened<R: Threads + Wait + Sync + Clock + Abort>(rt: &R, alloc: Global) -> bool {
    let plan = plan_of_two(rt, alloc);
    let watch = OpenWatch::open(alloc, &plan, 1).expect(rt, "memory");
    is_told_beside::<Brand, R>(rt, alloc, watch)
}

#[test]
fn a_relay_runs_beside_the_others(rt: HostRuntime) {
    assert!(rt; opened(&rt, rt.alloc()));
}
