ghost use Rattle.std.specs.Prelude.{◌≤◌};
ghost use Rattle.wcp_clock.specs.Limits.{most_processes};
ghost use Rattle.wcp_script.specs.Ring.{most_rounds};

use Given::{Close, First, Lost, Starved};
use std::alloc::Global;
use std::process::Abort;
use wcp_clock::{CLOCK_LIMIT, Clock, Item, Note};
use wcp_model::{Action, Flag, GlobalCut, ProbeSetup, Report, Task, Watched};
use wcp_probe::{ProbeCore, Stamped};
use wcp_queue::Checker;
use wcp_script::ring_workload;

/// A checker of two processes. Where memory runs out, asking again makes it.
fn checker_of_two(rt: &impl Abort, alloc: Global) -> Checker {
    match Checker::new(alloc, 2, Watched::all(2)) {
        Ok(checker) => checker,
        Err(_) => Checker::new(alloc, 2, Watched::all(2)).expect(rt, "memory"),
    }
}

/// Asks the checker once to take an item. Where memory runs out it comes back.
fn takes(rt: &impl Abort, checker: &mut Checker, item: &Item) -> bool {
    let item = *item;
    assert!(rt; item.from < checker.processes());
    assert!(rt; !checker.closed(item.from));
    assert!(rt; !checker.lost(item.from));
    let place = item.note.place();
    assert_eq!(rt; u64::from(place), checker.taken(item.from));
    match checker.take(item) {
        Ok(()) => true,
        Err((_, handed_back)) => {
            assert_eq!(rt; handed_back, item);
            false
        }
    }
}

/// Takes an item. Where memory runs out, asking again takes it.
fn take(rt: &impl Abort, checker: &mut Checker, item: &Item) {
    if !takes(rt, checker, item) {
        assert!(rt; takes(rt, checker, item));
    }
}

fn snapshot(from: u32, number: u32, clock: Clock) -> Item {
    Item {
        from,
        note: Note::Snap { number, clock },
    }
}

/// A snapshot before any event.
fn first_snapshot() -> Note {
    Note::Snap {
        number: 0,
        clock: Clock::new(2),
    }
}

/// Takes a snapshot of process 0 before and after each of its sends; its clock after the last.
fn take_sends(rt: &impl Abort, checker: &mut Checker, sends: u32) -> Clock {
    let mut sent = Clock::new(2);
    for number in 0..sends {
        take(rt, checker, &snapshot(0, number, sent));
        assert_eq!(rt; sent.len(), 2);
        assert!(rt; sent.tick(0, sends));
    }
    take(rt, checker, &snapshot(0, sends, sent));
    sent
}

/// The clock of process 1 after it received a message with this one.
fn received(rt: &impl Abort, sent: &Clock) -> Clock {
    let mut first = Clock::new(2);
    assert!(rt; first.tick(1, 1));
    assert!(rt; first.len() == 2 && sent.len() == 2);
    first.merge(sent)
}

/// Compares the report of a checker.
fn assert_report(rt: &impl Abort, checker: &Checker, report: Report) {
    assert_eq!(rt; checker.report(), report);
}

/// A checker took a snapshot of process 0 before and after each of so many sends, and one of process 1, and compared
/// components for them.
fn assert_taken(rt: &impl Abort, checker: &Checker, sends: u32) {
    assert_eq!(rt; checker.processes(), 2);
    let sends = u64::from(sends);
    assert_eq!(rt; (checker.taken(0), checker.taken(1)), (sends + 1, 1));
    assert!(rt; (1..=2 * (sends + 2)).contains(&checker.tests()));
}

/// Process 0 takes a snapshot before and after each of its sends, and process 1 one after it
/// received the last. Each head of process 0 but the last precedes that of process 1.
fn check_sends(rt: &impl Abort, alloc: Global, sends: u32) {
    let mut checker = checker_of_two(rt, alloc);
    let sent = take_sends(rt, &mut checker, sends);
    assert_report(rt, &checker, Report::Undecided);
    take(rt, &mut checker, &snapshot(1, 0, received(rt, &sent)));
    let cut = GlobalCut::new(&[Some(sends), Some(1)]);
    assert_report(rt, &checker, Report::Found(cut));
    assert_taken(rt, &checker, sends);
}

#[test]
fn a_head_that_precedes_another_is_dropped(rt: HostRuntime) {
    check_sends(&rt, rt.alloc(), 1);
    check_sends(&rt, rt.alloc(), 20);
}

/// How many snapshots of one process wait for the other, which has none.
const WAITING: u32 = 32_768;

/// All snapshots of one process wait: the first is its head, which costs a component test for each process, and the
/// others are compared with nothing.
#[test]
fn a_process_waits_for_long(rt: HostRuntime) {
    let mut checker = checker_of_two(&rt, rt.alloc());
    let _ = take_sends(&rt, &mut checker, WAITING - 1);
    assert_report(&rt, &checker, Report::Undecided);
    assert_eq!(rt; checker.tests(), 2);
}

/// A process observes its condition. The checker takes the snapshot that it emits, if it emits one.
fn observe(rt: &impl Abort, probe: &mut ProbeCore, checker: &mut Checker, from: u32, holds: bool) {
    let number = probe.emitted();
    if let Ok(true) = probe.observe(holds) {
        assert!(rt; probe.pending().is_some());
        probe.was_put();
        take(rt, checker, &snapshot(from, number, probe.clock()));
    }
}

/// The probes of `n` processes, all of them watched.
fn new_probes(rt: &impl Abort, alloc: Global, n: u32) -> Vec<ProbeCore>
    requires { n ≤ most_processes }
{
    let mut probes = Vec::new(alloc);
    for id in 0..n {
        let setup = ProbeSetup {
            processes: n,
            process: id,
            watched: true,
            flag: Flag::Event,
        };
        assert!(rt; probes.push(ProbeCore::new(0, setup, CLOCK_LIMIT)).is_ok());
    }
    probes
}

/// The process of this probe does its task.
fn perform(
    rt: &impl Abort,
    probe: &mut ProbeCore,
    checker: &mut Checker,
    task: &Task,
    message: &mut Option<Stamped<()>>,
) {
    match task.action {
        Action::Observe(holds) => observe(rt, probe, checker, task.p, holds),
        Action::Send(to) => *message = probe.stamp(to, ()).ok(),
        Action::Recv(_) => {
            let sent = message.take().expect(rt, "a message");
            assert!(rt; probe.receive(sent).is_ok());
        }
    }
}

/// The processes of these probes do their tasks, of a workload with at most one message on its way.
fn perform_all(rt: &impl Abort, probes: &mut [ProbeCore], checker: &mut Checker, tasks: &[Task]) {
    let mut message = None;
    for task in tasks {
        let probe = probes.get_mut(task.p as usize).expect(rt, "a process");
        perform(rt, probe, checker, task, &mut message);
    }
}

/// The component tests that a checker of `n` processes makes of the snapshots of a ring, of which
/// there is one for each process in each round.
fn tests_of_ring(rt: &impl Abort, alloc: Global, n: u32, rounds: u32) -> u64
    requires several { 2 ≤ n }
    requires few { n ≤ most_processes }
    requires some_rounds { 1 ≤ rounds }
    requires few_rounds { rounds ≤ most_rounds }
{
    let ring = ring_workload(alloc, n, rounds, false).expect(rt, "memory");
    let mut checker = Checker::new(alloc, n, Watched::all(n)).expect(rt, "memory");
    let mut probes = new_probes(rt, alloc, n);
    perform_all(rt, &mut probes, &mut checker, &ring.tasks);
    assert_report(rt, &checker, Report::Undecided);
    assert_eq!(rt; checker.processes(), n);
    assert_eq!(rt; checker.taken(n - 1), u64::from(rounds));
    checker.tests()
}

/// A snapshot costs at most as many component tests as there are processes.
#[test]
fn a_ring_costs_few_tests(rt: HostRuntime) {
    assert_eq!(rt; tests_of_ring(&rt, rt.alloc(), 4, 100), 1_600);
    assert_eq!(rt; tests_of_ring(&rt, rt.alloc(), 16, 1_000), 256_000);
}

/// What a checker of two processes is given.
#[derive(Drop)]
enum Given {
    /// The first snapshot of a process, before any event.
    First(u32),
    /// The close mark of a process that emitted so many snapshots.
    Close(u32, u32),
    /// The mark that a process was lost after so many snapshots.
    Lost(u32, u32),
    /// It gets no more memory.
    Starved,
}

/// What a checker is given, and whether it then has a cut. Else it is undecided.
#[derive(Drop)]
struct Ending<'a> {
    given: &'a [Given],
    has_cut: bool,
}

static ENDINGS: [Ending<'static>; 4] = [
    Ending {
        given: &[First(0), Starved, First(1), Close(0, 1), Close(1, 1)],
        has_cut: false,
    },
    Ending {
        given: &[First(0), First(1), Starved, Close(0, 1)],
        has_cut: true,
    },
    Ending {
        given: &[First(0), Lost(0, 1), Close(1, 0)],
        has_cut: false,
    },
    Ending {
        given: &[First(0), Lost(0, 1), First(1)],
        has_cut: true,
    },
];

/// Gives it to the checker. Where memory runs out, asking again does.
fn give(rt: &impl Abort, checker: &mut Checker, given: &Given) {
    let (from, note) = match given {
        First(from) => (*from, first_snapshot()),
        Close(from, count) => (*from, Note::Close { count: *count }),
        Lost(from, count) => (*from, Note::Lost { count: *count }),
        Starved => return checker.starve(),
    };
    take(rt, checker, &Item { from, note });
}

/// Gives all to a checker, and compares its report.
fn check_ending(rt: &impl Abort, alloc: Global, ending: &Ending) {
    let mut checker = checker_of_two(rt, alloc);
    for given in ending.given {
        give(rt, &mut checker, given);
    }
    let cut = GlobalCut::new(&[Some(0), Some(0)]);
    let report = if ending.has_cut {
        Report::Found(cut)
    } else {
        Report::Undecided
    };
    assert_report(rt, &checker, report);
}

/// A checker that was starved keeps the cut that it had found before and finds none, and one that took the mark of a
/// lost process goes on searching. Each is undecided without a cut, also where all others are closed.
#[test]
fn a_starved_checker_or_one_of_a_lost_process_tells_a_cut_alone(rt: HostRuntime) {
    for ending in &ENDINGS {
        check_ending(&rt, rt.alloc(), ending);
    }
}
