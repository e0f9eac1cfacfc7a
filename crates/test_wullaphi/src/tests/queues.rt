//! Watches of processes with a queue: what it orders, and what it doesn't.
use std::alloc::Global;
use std::process::Abort;
use std::sync::{Barrier, Condvar, Mutex, Wait};
use std::thread::Threads;
use wullaphi::{
    Book, LentProbe, Loan, Process, Refusal, Report, WatchedQueue, plain_plan, watch_processes,
};

/// What two processes share.
#[derive(Drop)]
pub struct Queue {
    items: WatchedQueue<u32>,
    both: Barrier,
    /// How many items lie where the watch doesn't see them.
    plain: Mutex<u32>,
    filled: Condvar,
}

/// A process that is true once, and where.
#[derive(Clone, Copy)]
pub enum Worker {
    /// Before it puts an item.
    Puts,
    /// After it has got one.
    Gets,
    /// Before it puts an item, as the first who does.
    PutsFirst,
    /// After it has put an item, as the second who does.
    PutsSecond,
    /// After it has put two items.
    PutsTwo,
    /// Before it gets one.
    WillGet,
    /// Before it puts an item where the watch doesn't see it.
    PutsPlainly,
    /// After it has got one from there.
    GetsPlainly,
}

impl Process for Worker {
    type Shared = Queue;

    type Answer = Result<(), Refusal>;

    fn run<L: Loan, R: Wait>(
        self,
        rt: &R,
        probe: &mut LentProbe<L>,
        queue: &Queue,
    ) -> Result<(), Refusal> {
        match self {
            Worker::Puts => {
                probe.observe(rt, true);
                put(rt, probe, queue)
            }
            Worker::Gets => {
                let item = queue.items.get(rt, probe)?;
                probe.observe(rt, item == 7);
                Ok(())
            }
            Worker::PutsFirst => {
                probe.observe(rt, true);
                let put = put(rt, probe, queue);
                queue.both.wait(rt);
                put
            }
            Worker::PutsSecond => {
                queue.both.wait(rt);
                put(rt, probe, queue)?;
                probe.observe(rt, true);
                Ok(())
            }
            Worker::PutsTwo => {
                put(rt, probe, queue)?;
                put(rt, probe, queue)?;
                probe.observe(rt, true);
                Ok(())
            }
            Worker::WillGet => {
                probe.observe(rt, true);
                queue.items.get(rt, probe)?;
                Ok(())
            }
            Worker::PutsPlainly => {
                probe.observe(rt, true);
                *queue.plain.lock(rt) = 1;
                queue.filled.notify_one();
                Ok(())
            }
            Worker::GetsPlainly => {
                let mut items = queue.plain.lock(rt);
                for _ in rt.forever() {
                    if *items > 0 {
                        break;
                    }
                    items = queue.filled.wait(rt, items);
                }
                drop(items);
                probe.observe(rt, true);
                Ok(())
            }
        }
    }
}

/// Puts an item.
fn put<L: Loan, R: Wait>(rt: &R, probe: &mut LentProbe<L>, queue: &Queue) -> Result<(), Refusal> {
    queue
        .items
        .put(rt, probe, 7)
        .map_err(|(refusal, _)| refusal)
}

/// Whether each of a hundred watches of two such processes, with a queue of this room, finds a moment, or each of a
/// thousand finds none.
fn assert_each<R: Threads + Wait + Sync + Abort>(
    rt: &R,
    alloc: Global,
    workers: [Worker; 2],
    room: usize,
    finds: bool,
) {
    let plan = plain_plan(alloc, 2, 8, 4).expect(rt, "memory");
    let times = if finds { 100 } else { 1000 };
    for _ in 0..times {
        let queue = Queue {
            items: WatchedQueue::new(alloc, room).expect(rt, "memory"),
            both: Barrier::new(2),
            plain: Mutex::new(0),
            filled: Condvar::new(),
        };
        let workers = workers.to_vec(alloc).expect(rt, "memory");
        let book = Mutex::new(Book::new(2));
        let watched = watch_processes(rt, alloc, &plan, 1, workers, &queue, &book);
        let Ok(watched) = watched else {
            panic!(rt; "no answer")
        };
        for answer in watched.answers {
            assert!(rt; answer == Ok(()));
        }
        assert!(rt; (watched.outcome.report != Report::Nothing) == finds);
    }
}

#[test]
fn an_item_is_put_before_it_is_got(rt: HostRuntime) {
    assert_each(&rt, rt.alloc(), [Worker::Puts, Worker::Gets], 1, false);
    assert_each(&rt, rt.alloc(), [Worker::Puts, Worker::Gets], 3, false);
}

#[test]
fn an_item_that_is_put_plainly_orders_nothing(rt: HostRuntime) {
    let workers = [Worker::PutsPlainly, Worker::GetsPlainly];
    assert_each(&rt, rt.alloc(), workers, 1, true);
}

#[test]
fn a_place_is_freed_before_it_is_filled(rt: HostRuntime) {
    assert_each(
        &rt,
        rt.alloc(),
        [Worker::PutsTwo, Worker::WillGet],
        1,
        false,
    );
    assert_each(&rt, rt.alloc(), [Worker::PutsTwo, Worker::WillGet], 2, true);
}

#[test]
fn those_who_put_are_not_ordered(rt: HostRuntime) {
    assert_each(
        &rt,
        rt.alloc(),
        [Worker::PutsFirst, Worker::PutsSecond],
        2,
        true,
    );
}
