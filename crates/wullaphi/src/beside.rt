//! A watch with a monitor beside it.
ghost use Rattle.std.specs.Prelude.{[], ◌∷◌};
ghost use Rattle.wullaphi.specs.WatchOutcomes.{AnswersWatch};

use crate::process::LosableProcess;
use crate::watch_fault::WatchFault;
use crate::watch_outcome::WatchOutcome;
use crate::watching::watch_processes;
use std::alloc::Global;
use std::sync::{Mutex, Wait};
use std::thread::{Threads, join};
use wcp_book::Book;
use wcp_model::Plan;

/// Watches these processes, as `watch_processes` does, with a monitor beside them, which is given the handle and the
/// book of the watch. It runs in a thread of its own, or after the watch, where no thread can be made for it. So it may
/// wait for what the book tells (`wait_for_cut`), since the book ends with the watch; but no process may wait for it.
/// Answers what the watch and the monitor answered, once both have ended.
pub fn watch_beside<
    S: Sync,
    A: Send + Drop + 'static,
    P: LosableProcess<Shared = S, Answer = A> + Send + Drop + 'static,
    R: Threads + Wait + Sync,
    T: Send,
    M: FnOnce(&R, &Mutex<Book>) -> T + Send,
>(
    rt: &R,
    alloc: Global,
    plan: &Plan,
    number: u64,
    processes: Vec<P>,
    shared: &S,
    monitor: M,
) -> (Result<WatchOutcome<A>, WatchFault>, T)
    requires { (handle : _) (book : _) → M.pre monitor handle book }
    ensures watches { AnswersWatch P.leaves P.done number plan.now (plan.now.watched ∷ []) processes.items result.0 }
    ensures monitored { (handle : _) × (book : _) × M.post monitor handle book result.1 }
{
    let book = Mutex::new(Book::new(1));
    let (told, watched) = join(
        rt,
        || -> T
            requires { (handle : _) (book : _) → M.pre monitor handle book }
            ensures { (handle : _) × (book : _) × M.post monitor handle book result }
        { monitor(rt, &book) },
        || -> Result<WatchOutcome<A>, WatchFault>
            ensures { AnswersWatch P.leaves P.done number plan.entry.now (plan.entry.now.watched ∷ []) processes.items result }
        { watch_processes(rt, alloc, plan, number, processes, shared, &book) },
    );
    (watched, told)
}
