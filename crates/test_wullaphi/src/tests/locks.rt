//! Watches of processes that are true under locks: what the locks order, and what they don't.
ghost use Rattle.std.specs.Prelude.{true, OnOk};
ghost use Rattle.wcp_model.specs.ProbeLog.{Observed};
ghost use Rattle.wcp_relay.specs.LiveProbe.{LiveAccepts};
ghost use Rattle.wullaphi.specs.WatchedLocks.{Within};

use std::alloc::Global;
use std::process::Abort;
use std::sync::{Barrier, Condvar, Mutex, Wait};
use std::thread::Threads;
use wullaphi::{
    Book, Critical, GlobalCut, LentProbe, Loan, Process, Refusal, Report, WatchedMutex,
    WatchedOnce, plain_plan, watch_processes,
};

/// What two processes share.
#[derive(Drop)]
pub struct Locks {
    first: WatchedMutex<u32>,
    second: WatchedMutex<u32>,
    plain: Mutex<u32>,
    told: Condvar,
    once: WatchedOnce<u32>,
    both: Barrier,
}

impl Locks {
    fn new() -> Locks {
        Locks {
            first: WatchedMutex::new(0),
            second: WatchedMutex::new(0),
            plain: Mutex::new(0),
            told: Condvar::new(),
            once: WatchedOnce::new(),
            both: Barrier::new(2),
        }
    }
}

/// A process that is true once, and where.
#[derive(Clone, Copy)]
pub enum Worker {
    /// Under the first lock.
    First,
    /// Under the first lock, three times.
    Thrice,
    /// Under the second lock.
    Second,
    /// Under the first lock, in a part of its own.
    Within,
    /// Under a lock of which the watch sees nothing.
    Plain,
    /// Under the first lock, until another has been there and tells it.
    Waits,
    /// Under the first lock, and it tells the one that waits there.
    Tells,
    /// From before it has the first lock until after the other is true.
    Lasts,
    /// The same, and it sends an open message meanwhile, and takes it.
    LastsAndSends,
    /// The same, where the other has had the first lock before.
    LastsBehind,
    /// Before it has the first lock, and nothing is observed later.
    Begins,
    /// From before it has the first lock, until it lets go before that too.
    LetsGo,
    /// After it has had the first lock, as second.
    Follows,
    /// The same, and it has had the lock as first too.
    Returns,
    /// Before it writes the cell.
    Writes,
    /// After the cell was written, and it has read it.
    Reads,
    /// After the cell was written, and it doesn't read it.
    Passes,
}

impl Process for Worker {
    type Shared = Locks;

    type Answer = Result<(), Refusal>;

    fn run<L: Loan, R: Wait>(
        self,
        rt: &R,
        probe: &mut LentProbe<L>,
        locks: &Locks,
    ) -> Result<(), Refusal> {
        match self {
            Worker::First => true_under(rt, probe, &locks.first),
            Worker::Thrice => {
                for _ in 0..3 {
                    true_under(rt, probe, &locks.first)?;
                }
                Ok(())
            }
            Worker::Second => true_under(rt, probe, &locks.second),
            Worker::Within => true_within(rt, probe, &locks.first),
            Worker::Plain => {
                let held = locks.plain.lock(rt);
                probe.observe(rt, true);
                drop(held);
                Ok(())
            }
            Worker::Waits => true_until_told(rt, probe, locks),
            Worker::Tells => {
                let mut guard = locks.first.lock(rt, probe)?;
                probe.observe(rt, true);
                *guard.value() = 1;
                guard.unlock(rt, probe)?;
                locks.told.notify_all();
                Ok(())
            }
            Worker::Lasts => {
                probe.hold(rt);
                lock_once(rt, probe, &locks.first)?;
                locks.both.wait(rt);
                locks.both.wait(rt);
                probe.let_go();
                Ok(())
            }
            Worker::LastsAndSends => {
                probe.hold(rt);
                send_to_nobody(probe)?;
                lock_once(rt, probe, &locks.first)?;
                locks.both.wait(rt);
                locks.both.wait(rt);
                probe.let_go();
                Ok(())
            }
            Worker::LastsBehind => {
                locks.both.wait(rt);
                probe.hold(rt);
                lock_once(rt, probe, &locks.first)?;
                locks.both.wait(rt);
                locks.both.wait(rt);
                probe.let_go();
                Ok(())
            }
            Worker::Begins => {
                probe.observe(rt, true);
                lock_once(rt, probe, &locks.first)?;
                locks.both.wait(rt);
                locks.both.wait(rt);
                Ok(())
            }
            Worker::LetsGo => {
                probe.hold(rt);
                probe.let_go();
                lock_once(rt, probe, &locks.first)?;
                locks.both.wait(rt);
                locks.both.wait(rt);
                Ok(())
            }
            Worker::Follows => {
                locks.both.wait(rt);
                lock_once(rt, probe, &locks.first)?;
                probe.observe(rt, true);
                locks.both.wait(rt);
                Ok(())
            }
            Worker::Returns => {
                lock_once(rt, probe, &locks.first)?;
                locks.both.wait(rt);
                locks.both.wait(rt);
                lock_once(rt, probe, &locks.first)?;
                probe.observe(rt, true);
                locks.both.wait(rt);
                Ok(())
            }
            Worker::Writes => {
                probe.observe(rt, true);
                let written = locks.once.set(rt, probe, 7);
                locks.both.wait(rt);
                written.map_err(|(refusal, _)| refusal.unwrap_or(Refusal::Closed))
            }
            Worker::Reads => {
                locks.both.wait(rt);
                let read = locks.once.get(rt, probe)?.copied();
                probe.observe(rt, read == Some(7));
                Ok(())
            }
            Worker::Passes => {
                locks.both.wait(rt);
                probe.observe(rt, true);
                Ok(())
            }
        }
    }
}

/// A part under a lock, in which its process is true.
#[derive(Drop)]
struct True;

impl Critical<u32> for True {
    type Answer = ();

    ghost does = { λ work answer old new. LiveAccepts old (Observed true) new };

    fn run<L: Loan, R: Wait>(self, rt: &R, probe: &mut LentProbe<L>, _value: &mut u32) {
        probe.observe(rt, true);
    }
}

/// Sends an open message, which nobody but the process itself takes.
fn send_to_nobody<L: Loan>(probe: &mut LentProbe<L>) -> Result<(), Refusal> {
    let message = probe.stamp_open(7).map_err(|(refusal, _)| refusal)?;
    probe.take_open(&message)?;
    Ok(())
}

/// Gets this lock and lets it go.
fn lock_once<L: Loan, R: Wait>(
    rt: &R,
    probe: &mut LentProbe<L>,
    lock: &WatchedMutex<u32>,
) -> Result<(), Refusal> {
    lock.lock(rt, probe)?.unlock(rt, probe)
}

/// Does such a part under this lock: what its process observes comes between the two stamps.
fn true_within<L: Loan, R: Wait>(
    rt: &R,
    probe: &mut LentProbe<L>,
    lock: &WatchedMutex<u32>,
) -> Result<(), Refusal>
    ensures { OnOk result (Within (λ old new. LiveAccepts old (Observed true) new) probe.old probe.new) }
{
    lock.with(rt, probe, True)
}

/// Is true while it has this lock.
fn true_under<L: Loan, R: Wait>(
    rt: &R,
    probe: &mut LentProbe<L>,
    lock: &WatchedMutex<u32>,
) -> Result<(), Refusal> {
    let guard = lock.lock(rt, probe)?;
    probe.observe(rt, true);
    guard.unlock(rt, probe)
}

/// Is true while it has the first lock, and lets go of it until there is a number under it.
fn true_until_told<L: Loan, R: Wait>(
    rt: &R,
    probe: &mut LentProbe<L>,
    locks: &Locks,
) -> Result<(), Refusal> {
    let mut guard = locks.first.lock(rt, probe)?;
    probe.observe(rt, true);
    for _ in rt.forever() {
        if *guard.value() > 0 {
            break;
        }
        guard = guard.wait(rt, probe, &locks.told)?;
        probe.observe(rt, true);
    }
    guard.unlock(rt, probe)
}

/// What a watch of two such processes tells.
fn report<R: Threads + Wait + Sync + Abort>(
    rt: &R,
    alloc: Global,
    number: u64,
    workers: [Worker; 2],
    locks: &Locks,
) -> Report {
    let plan = plain_plan(alloc, 2, 8, 4).expect(rt, "memory");
    let workers = workers.to_vec(alloc).expect(rt, "memory");
    let book = Mutex::new(Book::new(2));
    let watched = watch_processes(rt, alloc, &plan, number, workers, locks, &book);
    let Ok(watched) = watched else {
        panic!(rt; "no answer")
    };
    for answer in watched.answers {
        assert!(rt; answer == Ok(()));
    }
    watched.outcome.report
}

/// Whether each of so many watches, each with locks of its own, tells this.
fn assert_each<R: Threads + Wait + Sync + Abort>(
    rt: &R,
    alloc: Global,
    times: u32,
    workers: [Worker; 2],
    finds: bool,
) {
    for _ in 0..times {
        let told = report(rt, alloc, 1, workers, &Locks::new());
        assert!(rt; (told != Report::Nothing) == finds);
    }
}

#[test]
fn two_under_one_lock_are_never_true_at_once(rt: HostRuntime) {
    assert_each(&rt, rt.alloc(), 1000, [Worker::Thrice; 2], false);
}

#[test]
fn two_under_a_plain_lock_are_found(rt: HostRuntime) {
    assert_each(&rt, rt.alloc(), 100, [Worker::Plain; 2], true);
}

#[test]
fn two_under_different_locks_are_found(rt: HostRuntime) {
    assert_each(&rt, rt.alloc(), 100, [Worker::First, Worker::Second], true);
}

#[test]
fn who_waits_lets_go(rt: HostRuntime) {
    assert_each(&rt, rt.alloc(), 1000, [Worker::Waits, Worker::Tells], false);
}

#[test]
fn a_part_under_a_lock_is_ordered_too(rt: HostRuntime) {
    assert_each(
        &rt,
        rt.alloc(),
        1000,
        [Worker::Within, Worker::First],
        false,
    );
}

#[test]
fn a_condition_that_lasts_goes_on_behind_a_lock(rt: HostRuntime) {
    assert_each(&rt, rt.alloc(), 100, [Worker::Lasts, Worker::Follows], true);
    assert_each(
        &rt,
        rt.alloc(),
        100,
        [Worker::Begins, Worker::Follows],
        false,
    );
}

#[test]
fn a_condition_that_was_let_go_ends_at_a_lock(rt: HostRuntime) {
    let workers = [Worker::LetsGo, Worker::Follows];
    assert_each(&rt, rt.alloc(), 100, workers, false);
}

#[test]
fn a_condition_that_lasts_goes_on_behind_an_open_message(rt: HostRuntime) {
    let workers = [Worker::LastsAndSends, Worker::Follows];
    assert_each(&rt, rt.alloc(), 100, workers, true);
}

#[test]
fn a_condition_that_lasts_goes_on_behind_a_lock_of_another(rt: HostRuntime) {
    let workers = [Worker::LastsBehind, Worker::Returns];
    assert_each(&rt, rt.alloc(), 100, workers, true);
}

#[test]
fn a_cell_orders_its_writer_before_who_reads_it(rt: HostRuntime) {
    assert_each(
        &rt,
        rt.alloc(),
        1000,
        [Worker::Writes, Worker::Reads],
        false,
    );
    assert_each(&rt, rt.alloc(), 100, [Worker::Writes, Worker::Passes], true);
}

/// The first moment of two processes that have sent and received nothing.
fn at_once() -> Report {
    Report::Found(GlobalCut::new(&[Some(0), Some(0)]))
}

#[test]
fn a_lock_knows_nothing_of_an_earlier_watch(rt: HostRuntime) {
    let locks = Locks::new();
    for number in [1, 2] {
        let told = report(
            &rt,
            rt.alloc(),
            number,
            [Worker::First, Worker::Plain],
            &locks,
        );
        assert!(rt; told == at_once());
        let told = report(&rt, rt.alloc(), 1, [Worker::Plain, Worker::First], &locks);
        assert!(rt; told == at_once());
    }
}
