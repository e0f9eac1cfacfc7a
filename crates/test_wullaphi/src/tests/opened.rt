//! Watches whose threads are run here, and whose ends settle by themselves, unless process 0 is lost.
ghost use Rattle.std.specs.Prelude.{◌≡◌, Some};

use super::lost::Member;
use std::alloc::Global;
use std::marker::Brand;
use std::process::Abort;
use std::sync::{Mutex, Wait};
use std::thread::{Threads, join};
use wullaphi::{
    Book, GlobalCut, LentProbe, Loan, OpenWatch, Opening, Outcome, Plan, Process, Report,
    SettleFault, Tallies, Tally, WatchChecker, WatchCheckerEnd, WatchEnds, WatchParts, WatchProbe,
    WatchProbeEnd, WatchRelay, WatchRelayEnd, plain_plan, watch_processes,
};

/// A process that is true once.
#[derive(Drop)]
pub struct True;

impl Process for True {
    type Shared = ();

    type Answer = ();

    fn run<L: Loan, R: Wait>(self, rt: &R, probe: &mut LentProbe<L>, _shared: &()) {
        probe.observe(rt, true);
    }
}

/// What the checker's end tells, and what the ends are settled to.
#[derive(Clone, Copy, PartialEq, Eq)]
struct Told {
    report: Report,
    lost: Option<u32>,
    settled: Result<Outcome, SettleFault>,
}

/// What is left of a watch of two processes, of which the first may have no end.
#[derive(Drop)]
struct Left<W: Opening> {
    first: Option<WatchProbeEnd<W>>,
    second: WatchProbeEnd<W>,
    relay: WatchRelayEnd<W>,
    checker: WatchCheckerEnd<W>,
}

/// Runs a member with this probe, or drops the probe in place of that.
fn run_first<W: Opening, R: Wait>(
    rt: &R,
    probe: WatchProbe<W>,
    member: Option<Member>,
) -> Option<WatchProbeEnd<W>> {
    let (_, end) = probe.run_or_lose(rt, member?, &());
    end
}

/// Runs a process that is true once with this probe.
fn run_second<W: Opening, R: Wait>(rt: &R, probe: WatchProbe<W>) -> WatchProbeEnd<W> {
    let ((), end) = probe.run(rt, True, &());
    end
}

/// Runs this member as process 0, another as process 1, the relay and the checker, in four threads. Where one can't be
/// made its part is run after those that it waits for: the links have room for all that the members emit.
fn run_all<W: Opening + Send + Sync, R: Threads + Wait + Sync>(
    rt: &R,
    first: WatchProbe<W>,
    member: Option<Member>,
    second: WatchProbe<W>,
    relay: WatchRelay<W>,
    checker: WatchChecker<W>,
    book: &Mutex<Book>,
) -> Left<W> {
    let (checker, (relay, (first, second))) = join(
        rt,
        move || checker.run(rt, book),
        move || {
            relay.run_beside(rt, move || {
                join(
                    rt,
                    move || run_first(rt, first, member),
                    move || run_second(rt, second),
                )
            })
        },
    );
    Left {
        first,
        second,
        relay,
        checker,
    }
}

/// Settles what is left of a watch, and gives what its checker's end tells with that.
fn settled<W: Opening, R: Abort>(
    rt: &R,
    mut ends: WatchEnds<W>,
    left: Left<W>,
    book: Book,
) -> Told {
    let (report, lost) = (left.checker.report(), left.checker.lost());
    ends.add_checker(left.checker);
    ends.add_relay(left.relay).expect(rt, "memory");
    ends.add_probe(left.second).expect(rt, "memory");
    if let Some(first) = left.first {
        ends.add_probe(first).expect(rt, "memory");
    }
    Told {
        report,
        lost,
        settled: ends.settle(book),
    }
}

/// Runs a watch of two processes, of which this member is the first, and settles it.
fn watched<W: Opening + Send + Sync, R: Threads + Wait + Sync + Abort>(
    rt: &R,
    alloc: Global,
    watch: OpenWatch,
    member: Option<Member>,
) -> Told
    requires { W.opened ≡ Some watch }
{
    let book = Mutex::new(watch.book());
    let WatchParts {
        mut probes,
        mut relays,
        checker,
        ends,
    } = watch.parts::<W>(alloc).expect(rt, "memory");
    let second = probes.pop().expect(rt, "the probe of process 1");
    let first = probes.pop().expect(rt, "the probe of process 0");
    let relay = relays.pop().expect(rt, "a relay");
    let left = run_all(rt, first, member, second, relay, checker, &book);
    settled(rt, ends, left, book.into_inner())
}

/// A plan of two processes.
pub fn plan_of_two(rt: &impl Abort, alloc: Global) -> Plan {
    plain_plan(alloc, 2, 8, 4).expect(rt, "memory")
}

/// Opens a watch of two processes, and runs it here.
fn opened<R: Threads + Wait + Sync + Abort>(rt: &R, alloc: Global, member: Option<Member>) -> Told {
    let plan = plan_of_two(rt, alloc);
    let watch = OpenWatch::open(alloc, &plan, 1).expect(rt, "memory");
    watched::<Brand, R>(rt, alloc, watch, member)
}

/// What `watch_processes` tells of two processes that are true once.
fn called<R: Threads + Wait + Sync + Abort>(rt: &R, alloc: Global) -> Outcome {
    let plan = plan_of_two(rt, alloc);
    let book = Mutex::new(Book::new(2));
    let both = vec![in alloc; True, True].expect(rt, "memory");
    let watched = watch_processes(rt, alloc, &plan, 1, both, &(), &book);
    watched.expect(rt, "a watch").outcome
}

/// The cut of two processes that have sent and received nothing.
fn found() -> Report {
    Report::Found(GlobalCut::new(&[Some(0), Some(0)]))
}

#[test]
fn threads_of_ones_own_tell_what_the_call_tells(rt: HostRuntime) {
    let once = Tally {
        emitted: 1,
        taken: 1,
    };
    let outcome = Outcome {
        report: found(),
        tallies: Tallies::new(&[once, once]),
    };
    let told = Told {
        report: found(),
        lost: None,
        settled: Ok(outcome),
    };
    assert!(rt; opened(&rt, rt.alloc(), Some(Member::Whole)) == told);
    assert!(rt; called(&rt, rt.alloc()) == outcome);
}

/// Where this member is process 0, it is lost, the report is this one, and the ends lack its own.
fn assert_lost<R: Threads + Wait + Sync + Abort>(
    rt: &R,
    alloc: Global,
    member: Option<Member>,
    report: Report,
) {
    let told = Told {
        report,
        lost: Some(0),
        settled: Err(SettleFault::Missing),
    };
    assert!(rt; opened(rt, alloc, member) == told);
}

#[test]
fn a_lost_process_of_threads_of_ones_own_has_no_end(rt: HostRuntime) {
    assert_lost(&rt, rt.alloc(), Some(Member::Lost), found());
    assert_lost(&rt, rt.alloc(), Some(Member::Absent), Report::Undecided);
    assert_lost(&rt, rt.alloc(), None, Report::Undecided);
}
