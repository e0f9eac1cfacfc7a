//! What the processes of random programs do with locks, the cell and the queues.
use super::actors::{Counter, Stage};
use std::sync::Wait;
use wullaphi::{LentProbe, Loan, Refusal, WatchedQueue};

/// Adds one to a number, and tells who waits for it.
pub fn raise<L: Loan, R: Wait>(
    rt: &R,
    probe: &mut LentProbe<L>,
    counter: &Counter,
) -> Result<(), Refusal> {
    let mut guard = counter.number.lock(rt, probe)?;
    let number = guard.value();
    *number = number.wrapping_add(1);
    let raised = guard.unlock(rt, probe);
    counter.raised.notify_all();
    raised
}

/// Waits until a number is at least this.
pub fn wait_for<L: Loan, R: Wait>(
    rt: &R,
    probe: &mut LentProbe<L>,
    counter: &Counter,
    least: u32,
) -> Result<(), Refusal> {
    let mut guard = counter.number.lock(rt, probe)?;
    for _ in rt.forever() {
        if *guard.value() >= least {
            break;
        }
        guard = guard.wait(rt, probe, &counter.raised)?;
    }
    guard.unlock(rt, probe)
}

/// Has the first lock, and in it the second.
pub fn nest<L: Loan, R: Wait>(
    rt: &R,
    probe: &mut LentProbe<L>,
    stage: &Stage,
) -> Result<(), Refusal> {
    let outer = stage.first.number.lock(rt, probe)?;
    let inner = lock_once(rt, probe, &stage.second);
    outer.unlock(rt, probe)?;
    inner
}

fn lock_once<L: Loan, R: Wait>(
    rt: &R,
    probe: &mut LentProbe<L>,
    counter: &Counter,
) -> Result<(), Refusal> {
    counter.number.lock(rt, probe)?.unlock(rt, probe)
}

/// Writes the cell, if nobody has.
pub fn write<L: Loan, R: Wait>(
    rt: &R,
    probe: &mut LentProbe<L>,
    stage: &Stage,
) -> Result<(), Refusal> {
    match stage.cell.set(rt, probe, 7) {
        Err((Some(refusal), _)) => Err(refusal),
        _ => Ok(()),
    }
}

/// Puts an item.
pub fn put<L: Loan, R: Wait>(
    rt: &R,
    probe: &mut LentProbe<L>,
    queue: &WatchedQueue<u32>,
) -> Result<(), Refusal> {
    queue.put(rt, probe, 7).map_err(|(refusal, _)| refusal)
}

/// Gets an item.
pub fn get<L: Loan, R: Wait>(
    rt: &R,
    probe: &mut LentProbe<L>,
    queue: &WatchedQueue<u32>,
) -> Result<(), Refusal> {
    queue.get(rt, probe)?;
    Ok(())
}
