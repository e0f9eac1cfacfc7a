//! Watches of processes that wait at one condition variable.
use std::alloc::Global;
use std::process::Abort;
use std::sync::{Condvar, Mutex, Wait};
use std::thread::Threads;
use wullaphi::{
    Book, LentProbe, Loan, Process, Refusal, Report, Watched, WatchedMutex, plain_plan,
    watch_processes,
};

/// The number under a lock once those that wait are told.
const TOLD: u32 = 3;

/// What the processes share: how many have come to wait, under a watched lock and under a plain one.
#[derive(Drop)]
pub struct Room {
    came: WatchedMutex<u32>,
    came_plainly: Mutex<u32>,
    comes: Condvar,
    told: Condvar,
}

/// A process of the room.
#[derive(Clone, Copy)]
pub enum Worker {
    /// Is true from before it waits until it is told.
    Waits,
    /// Tells two that wait.
    Tells,
    /// Is true under the plain lock, and lets go of it until it is told.
    WaitsPlainly,
    /// Is true under the plain lock, and tells the one that waits.
    TellsPlainly,
}

impl Process for Worker {
    type Shared = Room;

    type Answer = Result<(), Refusal>;

    fn run<L: Loan, R: Wait>(
        self,
        rt: &R,
        probe: &mut LentProbe<L>,
        room: &Room,
    ) -> Result<(), Refusal> {
        match self {
            Worker::Waits => wait_until_told(rt, probe, room),
            Worker::Tells => tell_two(rt, probe, room),
            Worker::WaitsPlainly => {
                let mut held = room.came_plainly.lock(rt);
                probe.observe(rt, true);
                for _ in rt.forever() {
                    if *held == TOLD {
                        break;
                    }
                    held = room.told.wait(rt, held);
                }
                drop(held);
                Ok(())
            }
            Worker::TellsPlainly => {
                let mut held = room.came_plainly.lock(rt);
                probe.observe(rt, true);
                *held = TOLD;
                drop(held);
                room.told.notify_all();
                Ok(())
            }
        }
    }
}

fn wait_until_told<L: Loan, R: Wait>(
    rt: &R,
    probe: &mut LentProbe<L>,
    room: &Room,
) -> Result<(), Refusal> {
    let mut guard = room.came.lock(rt, probe)?;
    probe.hold(rt);
    let came = guard.value();
    *came = came.wrapping_add(1);
    room.comes.notify_all();
    for _ in rt.forever() {
        if *guard.value() == TOLD {
            break;
        }
        guard = guard.wait(rt, probe, &room.told)?;
    }
    probe.let_go();
    guard.unlock(rt, probe)
}

fn tell_two<L: Loan, R: Wait>(
    rt: &R,
    probe: &mut LentProbe<L>,
    room: &Room,
) -> Result<(), Refusal> {
    let mut guard = room.came.lock(rt, probe)?;
    for _ in rt.forever() {
        if *guard.value() == 2 {
            break;
        }
        guard = guard.wait(rt, probe, &room.comes)?;
    }
    *guard.value() = TOLD;
    let unlocked = guard.unlock(rt, probe);
    room.told.notify_all();
    unlocked
}

/// Whether each of a hundred watches of these processes finds a moment of the first two.
fn assert_each_finds<R: Threads + Wait + Sync + Abort>(
    rt: &R,
    alloc: Global,
    count: u32,
    workers: &[Worker],
) {
    let mut plan = plain_plan(alloc, count, 8, 4).expect(rt, "memory");
    plan.watched = Watched::pair(0, 1);
    for _ in 0..100 {
        let room = Room {
            came: WatchedMutex::new(0),
            came_plainly: Mutex::new(0),
            comes: Condvar::new(),
            told: Condvar::new(),
        };
        let workers = workers.to_vec(alloc).expect(rt, "memory");
        let book = Mutex::new(Book::new(2));
        let Ok(watched) = watch_processes(rt, alloc, &plan, 1, workers, &room, &book) else {
            panic!(rt; "no answer")
        };
        for answer in watched.answers {
            assert!(rt; answer == Ok(()));
        }
        assert!(rt; watched.outcome.report != Report::Nothing);
    }
}

#[test]
fn two_that_wait_are_found(rt: HostRuntime) {
    let workers = [Worker::Waits, Worker::Waits, Worker::Tells];
    assert_each_finds(&rt, rt.alloc(), 3, &workers);
}

#[test]
fn one_that_waits_under_a_plain_lock_is_found(rt: HostRuntime) {
    let workers = [Worker::WaitsPlainly, Worker::TellsPlainly];
    assert_each_finds(&rt, rt.alloc(), 2, &workers);
}
