//! A queue of a watched program, into which many may put and from which many may get.
ghost use Rattle.std.specs.Prelude.{◌≡◌, OnOk, IfErr};
ghost use Rattle.wullaphi.specs.WatchedLocks.{TakesAndLeaves, TakesOrLeavesNone};

use crate::lent_probe::{LentProbe, Loan};
use crate::queue_places::Places;
use std::alloc::{AllocError, Global};
use std::sync::{Condvar, Mutex, Wait};
use wcp_probe::Refusal;

/// A queue with room for a number of items. What a process did before it put an item happened before what another does
/// once it has got it. And since each place is used again, the k-th get happened before the put that comes as many
/// later as the queue has places. Those who put aren't ordered among each other, and neither are those who get.
///
/// It has no end: put an item that says that no more come.
#[derive(Drop)]
pub struct WatchedQueue<T> {
    places: Mutex<Places<T>>,
    filled: Condvar,
    freed: Condvar,
}

impl<T: Drop> WatchedQueue<T> {
    /// A queue with so many places. With none it holds up whoever puts into it, for ever. `Err` where memory runs out.
    pub fn new(alloc: Global, room: usize) -> Result<WatchedQueue<T>, AllocError> {
        Ok(WatchedQueue {
            places: Mutex::new(Places::new(alloc, room)?),
            filled: Condvar::new(),
            freed: Condvar::new(),
        })
    }

    /// Waits for a place, and puts this there. An `Err` hands it back, and the place stays free.
    pub fn put<L: Loan, R: Wait>(
        &self,
        rt: &R,
        probe: &mut LentProbe<L>,
        value: T,
    ) -> Result<(), (Refusal, T)>
        ensures put { OnOk result (TakesAndLeaves probe.old probe.new) }
        ensures refused { IfErr result (λ back. TakesOrLeavesNone back.0 probe.old probe.new) }
        ensures back { IfErr result (λ back. back.1 ≡ value) }
    {
        let mut places = self.places.lock(rt);
        let mut value = value;
        for _ in rt.forever() {
            match places.put(probe, value)? {
                Some(back) => value = back,
                None => {
                    drop(places);
                    self.filled.notify_one();
                    probe.observe_again(rt);
                    return Ok(());
                }
            }
            places = self.freed.wait(rt, places);
        }
        unreachable!()
    }

    /// Waits for an item, and gets it. At an `Err` it stays in the queue.
    pub fn get<L: Loan, R: Wait>(&self, rt: &R, probe: &mut LentProbe<L>) -> Result<T, Refusal>
        ensures got { OnOk result (TakesAndLeaves probe.old probe.new) }
        ensures refused { IfErr result (λ why. TakesOrLeavesNone why probe.old probe.new) }
    {
        let mut places = self.places.lock(rt);
        for _ in rt.forever() {
            if let Some(value) = places.get(probe)? {
                drop(places);
                self.freed.notify_one();
                probe.observe_again(rt);
                return Ok(value);
            }
            places = self.filled.wait(rt, places);
        }
        unreachable!()
    }
}
