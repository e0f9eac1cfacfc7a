//! What a process has that got a watched lock.
ghost use Rattle.std.specs.Prelude.{◌≡◌, OnOk, IfOk, IfErr};
ghost use Rattle.std.specs.Sync.Mutex.{mutex_guard_value};
ghost use Rattle.wullaphi.specs.WatchedLocks.{IsLeft, Leaves, LeavesAndTakes, LeavesNone, LeavesOrTakesNone};

use crate::lent_probe::{LentProbe, Loan};
use crate::watched_lock::UnderLock;
use std::marker::PhantomData;
use std::sync::{Condvar, MutexGuard, Wait};
use wcp_probe::Refusal;

/// The process with this has the lock. It can't be dropped: its process lets go by `unlock`, so no `?` may stand
/// between the two.
pub struct WatchedGuard<'b, L: Loan, T> {
    pub(crate) guard: MutexGuard<'b, UnderLock<T>>,
    of: PhantomData<L>,
}

impl<'b, L: Loan, T> WatchedGuard<'b, L, T> {
    /// The process of this loan has got this.
    pub(crate) fn new(guard: MutexGuard<'b, UnderLock<T>>) -> WatchedGuard<'b, L, T>
        ensures { mutex_guard_value result.guard ≡ mutex_guard_value guard.entry }
    {
        WatchedGuard {
            guard,
            of: PhantomData,
        }
    }

    /// What lies under the lock.
    pub fn value(&mut self) -> &mut T {
        &mut self.guard.value
    }

    /// Lets go. `Err` where the clock of the process is at its end: then too the lock is free, with the stamp before,
    /// so that order is lost and never made up.
    pub fn unlock<R: Wait>(self, rt: &R, probe: &mut LentProbe<L>) -> Result<(), Refusal>
        ensures left { OnOk result (Leaves probe.old probe.new) }
        ensures refused { IfErr result (λ why. LeavesNone why probe.old probe.new) }
    {
        let WatchedGuard { mut guard, of: _ } = self;
        guard.left.leave(probe)?;
        let_go(guard, probe);
        probe.observe_again(rt);
        Ok(())
    }

    /// Lets go, waits until it is told, and gets the lock again. It may be told nothing, so ask again what it waits
    /// for. An `Err` lets go of the lock.
    pub fn wait<R: Wait>(
        self,
        rt: &R,
        probe: &mut LentProbe<L>,
        told: &Condvar,
    ) -> Result<WatchedGuard<'b, L, T>, Refusal>
        ensures waited { IfOk result (λ guard.
            LeavesAndTakes (mutex_guard_value guard.guard).left.stamp probe.old probe.new) }
        ensures refused { IfErr result (λ why. LeavesOrTakesNone why probe.old probe.new) }
    {
        let WatchedGuard { mut guard, of: _ } = self;
        guard.left.leave(probe)?;
        probe.observe_again(rt);
        let guard = told.wait(rt, guard);
        probe.take_last(&guard.left)?;
        probe.observe_again(rt);
        Ok(WatchedGuard::new(guard))
    }
}

/// Lets go of a lock under which this process has left the stamp of its last event.
fn let_go<L: Loan, T>(guard: MutexGuard<'_, UnderLock<T>>, probe: &LentProbe<L>)
    requires left { IsLeft (mutex_guard_value guard).left.stamp probe.now.core }
{
    drop(guard);
}
