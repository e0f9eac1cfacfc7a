//! Runs in each of which some process is lost somewhere. The report is that of a checker that took the notes that were
//! put, which is a cut or undecided.
ghost use Rattle.std.specs.Prelude.{◌<◌};
ghost use Rattle.wcp_model.specs.PlanFault.{IsCheckedPlan};
ghost use Rattle.wcp_watch.specs.CheckerEnds.{IsFreshFor};

use super::plans::plan_of;
use super::watches::{Opened, open, run_whole};
use std::alloc::Global;
use std::process::Abort;
use std::sync::{Mutex, Wait};
use std::thread::{Threads, join, map_vec};
use wcp_book::Book;
use wcp_clock::{CLOCK_LIMIT, Item, Note};
use wcp_model::{Flag, Parent, Plan, ProbeSetup, Report, Watched};
use wcp_probe::ProbeCore;
use wcp_queue::{Checker, Panel};
use wcp_tree::{CheckerInbox, LiveProbe, Relay, Watch};
use wcp_watch::{CheckFault, CheckerEnd, check_loop};

/// How many runs there are.
const RUNS: u64 = 1_000;

const PROCESSES: u32 = 3;

/// The processes make fewer calls than this before one of them is lost, and again afterwards: there is room in each
/// link for all that they emit.
const CALLS: u32 = 12;

/// Numbers drawn by a linear congruential generator, with the factor and the increment of Knuth's MMIX.
#[derive(Drop)]
struct Draws {
    state: u64,
}

impl Draws {
    /// The next number, which is below this one.
    fn below(&mut self, bound: u32) -> u32
        requires { 0 < bound }
        ensures { result < bound }
    {
        let product = self.state.wrapping_mul(6_364_136_223_846_793_005);
        self.state = product.wrapping_add(1_442_695_040_888_963_407);
        ((self.state >> 33) % u64::from(bound)) as u32
    }
}

/// The probe of a process, and beside it a core that makes the same calls, which shows the notes.
#[derive(Drop)]
struct Twin {
    probe: LiveProbe,
    core: ProbeCore,
}

/// What the processes of a run do: any of them may make the next call.
#[derive(Drop)]
struct Play {
    draws: Draws,
    /// The processes that weren't lost yet.
    twins: Vec<Twin>,
    /// It takes each note as it is put.
    checker: Checker,
}

/// Gives the checker the next note of a process.
fn give(rt: &impl Abort, checker: &mut Checker, from: u32, note: Note) {
    assert!(rt; from < checker.processes());
    assert!(rt; !checker.closed(from) && !checker.lost(from));
    assert_eq!(rt; u64::from(note.place()), checker.taken(from));
    assert!(rt; checker.take(Item { from, note }).is_ok());
}

/// The probe, and beside it a core of the same process.
fn twin_of(rt: &impl Abort, probe: LiveProbe) -> Twin {
    let process = probe.id();
    assert!(rt; process < PROCESSES);
    let setup = ProbeSetup {
        processes: PROCESSES,
        process,
        watched: true,
        flag: Flag::Event,
    };
    let core = ProbeCore::new(7, setup, CLOCK_LIMIT);
    Twin { probe, core }
}

impl Play {
    /// The run of this number, with these probes.
    fn new(rt: &impl Abort, alloc: Global, number: u64, probes: Vec<LiveProbe>) -> Play {
        let mut twins = Vec::new(alloc);
        for probe in probes {
            twins.push(twin_of(rt, probe)).expect(rt, "memory");
        }
        let checker = Checker::new(alloc, PROCESSES, Watched::all(PROCESSES));
        Play {
            draws: Draws { state: number },
            twins,
            checker: checker.expect(rt, "memory"),
        }
    }

    /// The process at this place observes that its condition holds.
    fn observe(&mut self, rt: &(impl Abort + Wait), place: usize) {
        let Some(twin) = self.twins.get_mut(place) else {
            return;
        };
        twin.probe.observe(true);
        twin.probe.flush_in_watch(rt);
        let _ = twin.core.observe(true);
        let Some(note) = twin.core.pending().copied() else {
            return;
        };
        twin.core.was_put();
        give(rt, &mut self.checker, twin.probe.id(), note);
    }

    /// The process at one place sends a message, which that at another receives. `None` where one of them refuses it.
    fn send(&mut self, from: usize, to: usize) -> Option<()> {
        let receiver = self.twins.get(to)?.probe.id();
        let sender = self.twins.get_mut(from)?;
        let message = sender.core.stamp(receiver, ()).ok()?;
        let message = sender.probe.stamp(receiver, message).ok()?;
        let receiver = self.twins.get_mut(to)?;
        let message = receiver.probe.receive(message).ok()?;
        receiver.core.receive(message).ok()
    }

    /// One of so many processes makes a call.
    fn call(&mut self, rt: &(impl Abort + Wait), processes: u32)
        requires { 0 < processes }
    {
        let place = self.draws.below(processes) as usize;
        if self.draws.below(3) == 0 {
            self.observe(rt, place);
        } else {
            let to = self.draws.below(processes) as usize;
            let _ = self.send(place, to);
        }
    }

    /// So many processes make some calls.
    fn go_on(&mut self, rt: &(impl Abort + Wait), processes: u32)
        requires { 0 < processes }
    {
        for _ in 0..self.draws.below(CALLS) {
            self.call(rt, processes);
        }
    }

    /// Some process is lost: its number.
    fn lose(&mut self) -> Option<u32> {
        let place = self.draws.below(PROCESSES) as usize;
        if place >= self.twins.len() {
            return None;
        }
        let lost = self.twins.remove(place);
        Some(lost.probe.id())
    }

    /// The whole run: which process was lost, and what the notes tell that were put.
    fn run(mut self, rt: &(impl Abort + Wait)) -> Played {
        self.go_on(rt, PROCESSES);
        let lost = self.lose();
        self.go_on(rt, PROCESSES - 1);
        for twin in self.twins {
            drop(twin.probe.close_in_watch(rt));
        }
        Played {
            lost,
            told: self.checker.report(),
        }
    }
}

/// What is left of the processes of a run.
#[derive(Clone, Copy)]
struct Played {
    lost: Option<u32>,
    told: Report,
}

/// Three processes under two leaves, which are under another relay.
fn two_leaves(rt: &impl Abort, alloc: Global) -> Plan
    ensures { IsCheckedPlan result }
{
    let parents = [Parent::Root, Parent::Relay(0), Parent::Relay(0)];
    plan_of(
        rt,
        alloc,
        PROCESSES,
        32,
        &parents,
        &[Some(1), Some(1), Some(2)],
    )
}

/// The processes run in one thread, and each relay in one of its own.
fn run_beside<R: Threads + Wait + Abort + Sync>(rt: &R, relays: Vec<Relay>, play: Play) -> Played {
    let (relays, played) = join(
        rt,
        || map_vec(rt, relays, &|relay: Relay| run_whole(rt, relay)),
        || play.run(rt),
    );
    drop(relays.expect(rt, "memory"));
    played
}

/// What is left of a run.
#[derive(Drop)]
struct Left {
    checker: CheckerEnd,
    played: Played,
}

/// The checker's loop, and beside it the relays and the processes.
fn run_checked<R: Threads + Wait + Abort + Sync>(
    rt: &R,
    inbox: CheckerInbox,
    panel: Panel,
    relays: Vec<Relay>,
    play: Play,
) -> Left
    requires { IsFreshFor inbox panel }
{
    let book = Mutex::new(Book::new(PROCESSES));
    let (checker, played) = join(
        rt,
        || -> CheckerEnd
            requires { IsFreshFor inbox panel }
        { check_loop(rt, inbox, panel, &book) },
        || run_beside(rt, relays, play),
    );
    Left { checker, played }
}

/// The run of this number: the processes in one thread, and each relay and the checker's loop in one of its own.
fn run_drawn<R: Threads + Wait + Abort + Sync>(rt: &R, alloc: Global, number: u64) -> Left {
    let plan = two_leaves(rt, alloc);
    let Opened { watch, panel } = open(rt, alloc, &plan);
    let Watch {
        probes,
        relays,
        inbox,
    } = watch;
    let play = Play::new(rt, alloc, number, probes);
    run_checked(rt, inbox, panel, relays, play)
}

/// The checker tells in this run what the notes tell that were put, and which process was lost.
fn assert_told(rt: &impl Abort, number: u64, left: &Left) {
    let Played { lost, told } = left.played;
    assert_eq!(rt;
        (left.checker.report(), left.checker.fault()),
        (told, lost.map(CheckFault::Lost)),
        "run {number}"
    );
    assert!(rt; told != Report::Nothing && lost.is_some(), "run {number}");
}

#[test]
fn each_run_of_a_thousand_ends_where_a_process_is_lost(rt: HostRuntime) {
    let mut found = 0u64;
    for number in 0..RUNS {
        let left = run_drawn(&rt, rt.alloc(), number);
        assert_told(&rt, number, &left);
        if left.played.told != Report::Undecided {
            found = found.wrapping_add(1);
        }
    }
    assert!(rt; (100..RUNS - 100).contains(&found), "{found} cuts");
}
