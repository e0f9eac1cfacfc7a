//! Runs that the system refuses memory or threads, since what is left of the address space has no room for the list of
//! their threads, or for the stacks of all.
ghost use Rattle.std.specs.Prelude.{◌<◌, ◌≤◌, IfOk};
ghost use Rattle.wcp_clock.specs.Limits.{most_processes};
ghost use Rattle.wcp_watch.specs.CheckerEnds.{IsFreshFor};

use super::watches::{Opened, emit_all, open};
use std::alloc::{AllocError, Global};
use std::process::Abort;
use std::sync::atomic::AtomicU32;
use std::sync::atomic::Ordering::SeqCst;
use std::sync::{Mutex, Wait};
use std::thread::Threads;
use wcp_book::Book;
use wcp_model::plain_plan;
use wcp_threads::{Part, RunsWith};
use wcp_tree::{LiveProbe, ProbeEnd, Watch};
use wcp_watch::{Checking, Parts, StartFault, run_parts};

/// The largest and the smallest block that takes up address space, and how many there are at most.
const LARGEST: usize = 1 << 46;

const SMALLEST: usize = 1 << 20;

const MOST_BLOCKS: usize = 200_000;

/// What is given back of it: room for the stacks of three threads, and for no more than sixteen. The C library makes
/// each of eight million bytes, or of two where the system sets no limit.
const GAP: usize = 1 << 25;

/// What the calls may allocate beside the stacks.
const SPARE: usize = 1 << 16;

/// Takes up what is left of the address space. Nothing is written to the blocks, so they take no memory.
fn take_up(alloc: Global) -> Result<Vec<Vec<u8>>, AllocError> {
    let mut blocks = Vec::with_capacity(alloc, MOST_BLOCKS)?;
    let mut size = LARGEST;
    for _ in 0..MOST_BLOCKS {
        match Vec::with_capacity(alloc, size) {
            Ok(block) => blocks.push(block)?,
            Err(_) => size /= 2,
        }
        if size < SMALLEST {
            break;
        }
    }
    Ok(blocks)
}

/// A process that runs with what its test shares: here it is counted as it begins, emits one snapshot, and closes.
#[derive(Drop)]
pub struct Process {
    pub probe: LiveProbe,
}

impl Part<ProbeEnd> for Process {
    ghost use Rattle.std.specs.Prelude.{⊤};

    ghost is_ready = { λ process. ⊤ };

    ghost is_end = { λ process end. ⊤ };
}

impl RunsWith<AtomicU32, ProbeEnd> for Process {
    fn run_with<R: Wait>(self, rt: &R, begun: &AtomicU32) -> ProbeEnd {
        begun.fetch_add(1, SeqCst);
        emit_all(rt, self.probe, 1)
    }
}

/// The parts of a watch of so many processes.
pub fn processes(rt: &impl Abort, alloc: Global, n: u32) -> Parts<Process>
    requires some { 1 ≤ n }
    requires within { n ≤ most_processes }
    ensures { IsFreshFor result.checking.inbox result.checking.panel }
{
    let plan = plain_plan(alloc, n, 8, 4).expect(rt, "memory");
    let Opened { watch, panel } = open(rt, alloc, &plan);
    let Watch {
        probes,
        relays,
        inbox,
    } = watch;
    Parts {
        workers: workers_of(alloc, probes).expect(rt, "memory"),
        relays,
        checking: Checking { inbox, panel },
    }
}

fn workers_of(alloc: Global, probes: Vec<LiveProbe>) -> Result<Vec<Process>, AllocError> {
    let mut workers = Vec::with_capacity(alloc, probes.len())?;
    for probe in probes {
        workers.push(Process { probe })?;
    }
    Ok(workers)
}

/// Takes up what is left of the address space but for the gap and what is spare.
fn take_up_but_gap(alloc: Global) -> Result<Vec<Vec<u8>>, AllocError> {
    let spare = Vec::<u8>::with_capacity(alloc, SPARE)?;
    let gap = Vec::<u8>::with_capacity(alloc, GAP)?;
    let blocks = take_up(alloc)?;
    drop(gap);
    drop(spare);
    Ok(blocks)
}

/// What the processes of a run share, and its book.
#[derive(Drop)]
struct Shared {
    begun: AtomicU32,
    book: Mutex<Book>,
}

/// Runs these parts: how that was refused.
fn refusal<R: Threads + Wait + Sync>(
    rt: &R,
    alloc: Global,
    parts: Parts<Process>,
    shared: &Shared,
) -> Option<StartFault>
    requires { IsFreshFor parts.checking.inbox parts.checking.panel }
{
    run_parts(rt, alloc, parts, &shared.begun, &shared.book).err()
}

/// What so many processes of a run share.
fn shared_by(n: u32) -> Shared
    requires some { 0 < n }
    requires within { n ≤ most_processes }
{
    Shared {
        begun: AtomicU32::new(0),
        book: Mutex::new(Book::new(n)),
    }
}

/// So many processes had begun.
fn assert_begun(rt: &impl Abort, shared: &Shared, begun: u32) {
    assert_eq!(rt; shared.begun.load(SeqCst), begun);
}

/// Threads can be made, since those of one process run; of those of sixteen one can't, and then none runs.
#[test]
fn nothing_runs_where_a_thread_is_refused(rt: HostRuntime) {
    let (of_few, of_many) = (shared_by(1), shared_by(16));
    let few = processes(&rt, rt.alloc(), 1);
    let many = processes(&rt, rt.alloc(), 16);
    let blocks = take_up_but_gap(rt.alloc()).expect(&rt, "memory");
    let few = refusal(&rt, rt.alloc(), few, &of_few);
    let many = refusal(&rt, rt.alloc(), many, &of_many);
    drop(blocks);
    assert_eq!(rt; (few, many), (None, Some(StartFault::Spawn)));
    assert_begun(&rt, &of_few, 1);
    assert_begun(&rt, &of_many, 0);
    assert_eq!(rt; of_many.book.into_inner().totals().taken, 0);
}

/// One of a crowd, of which a run can't even list the threads: it is counted if it runs.
#[derive(Clone, Copy)]
struct Onlooker {
    _mark: u8,
}

impl Part<()> for Onlooker {
    ghost use Rattle.std.specs.Prelude.{⊤};

    ghost is_ready = { λ onlooker. ⊤ };

    ghost is_end = { λ onlooker end. ⊤ };
}

impl RunsWith<AtomicU32, ()> for Onlooker {
    fn run_with<R: Wait>(self, _rt: &R, begun: &AtomicU32) {
        begun.fetch_add(1, SeqCst);
    }
}

/// So many are a crowd: the list of their threads takes more than the smallest block that takes up address space.
const CROWD: usize = 1 << 20;

/// A crowd in the place of these processes.
fn crowd_for(alloc: Global, parts: Parts<Process>) -> Result<Parts<Onlooker>, AllocError>
    requires { IsFreshFor parts.checking.inbox parts.checking.panel }
    ensures { IfOk result (λ crowd. IsFreshFor crowd.checking.inbox crowd.checking.panel) }
{
    let Parts {
        workers: _,
        relays,
        checking,
    } = parts;
    Ok(Parts {
        workers: vec![in alloc; Onlooker { _mark: 0 }; CROWD]?,
        relays,
        checking,
    })
}

/// Where there is no memory for the list of its threads, a run says so, and none of its parts runs.
#[test]
fn nothing_runs_where_its_threads_cannot_be_listed(rt: HostRuntime) {
    let shared = shared_by(1);
    let few = processes(&rt, rt.alloc(), 1);
    let crowd = crowd_for(rt.alloc(), few).expect(&rt, "memory");
    let blocks = take_up(rt.alloc()).expect(&rt, "memory");
    let refused = run_parts(&rt, rt.alloc(), crowd, &shared.begun, &shared.book).err();
    drop(blocks);
    assert_eq!(rt; refused, Some(StartFault::Memory));
    assert_begun(&rt, &shared, 0);
}
