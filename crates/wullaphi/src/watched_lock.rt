//! A lock of a watched program: who lets it go leaves a stamp, and who gets it next takes that.
ghost use Rattle.std.specs.Prelude.{◌⊎◌, IfOk, IfErr};
ghost use Rattle.std.specs.Sync.Mutex.{mutex_guard_value};
ghost use Rattle.wullaphi.specs.WatchedLocks.{TakesAndHolds, TakesNone, Within, WorksAndLeavesNone};

use crate::left_stamp::LeftStamp;
use crate::lent_probe::{LentProbe, Loan};
use crate::watched_guard::WatchedGuard;
use std::sync::{Mutex, Wait};
use wcp_probe::Refusal;

/// What lies under a watched lock: the value, and the stamp that was left as it was last let go.
#[derive(Drop)]
pub struct UnderLock<T> {
    pub(crate) value: T,
    pub(crate) left: LeftStamp,
}

/// A lock of a watched program, whose order the watch sees: what a process did before it let go happened before what
/// the next one does once it has the lock.
///
/// A run of a watch knows only what was left in it. So a lock may outlive a watch and be used in the next one; two that
/// run at the same time and have one lock need different numbers, as for messages.
#[derive(Drop)]
pub struct WatchedMutex<T> {
    lock: Mutex<UnderLock<T>>,
}

impl<T> WatchedMutex<T> {
    /// A lock around this value, which nobody has had.
    pub fn new(value: T) -> WatchedMutex<T> {
        WatchedMutex {
            lock: Mutex::new(UnderLock {
                value,
                left: LeftStamp::none(),
            }),
        }
    }

    /// The value.
    pub fn into_inner(self) -> T {
        let WatchedMutex { lock } = self;
        let UnderLock { value, left: _ } = lock.into_inner();
        value
    }

    /// Waits for the lock. An `Err` lets it go again.
    pub fn lock<'b, L: Loan, R: Wait>(
        &'b self,
        rt: &R,
        probe: &mut LentProbe<L>,
    ) -> Result<WatchedGuard<'b, L, T>, Refusal>
        ensures taken { IfOk result (λ guard.
            TakesAndHolds (mutex_guard_value guard.guard).left.stamp probe.old probe.new) }
        ensures refused { IfErr result (λ why. TakesNone why probe.old probe.new) }
    {
        let mut guard = self.lock.lock(rt);
        guard.left.start_over(probe);
        probe.take_last(&guard.left)?;
        probe.observe_again(rt);
        Ok(WatchedGuard::new(guard))
    }

    /// Does this with the lock, and lets go whatever it answers. Where letting go is refused the answer is dropped.
    pub fn with<L: Loan, R: Wait, A: Drop, C: Critical<T, Answer = A> + Drop>(
        &self,
        rt: &R,
        probe: &mut LentProbe<L>,
        work: C,
    ) -> Result<A, Refusal>
        ensures done { IfOk result (λ answer. Within (C.Critical.does work answer) probe.old probe.new) }
        ensures refused { IfErr result (λ why. TakesNone why probe.old probe.new
            ⊎ ((answer : A) × WorksAndLeavesNone (C.Critical.does work answer) why probe.old probe.new)) }
    {
        let mut guard = self.lock(rt, probe)?;
        let answer = work.run(rt, probe, guard.value());
        guard.unlock(rt, probe)?;
        Ok(answer)
    }
}

/// What a process does while it has a lock around a `T`. In it `?` may be used: the lock is let go all the same.
pub trait Critical<T> {
    ghost use Rattle.std.specs.Prelude.{⊤};
    ghost use Rattle.wcp_relay.specs.LiveProbe.{LiveSide};

    /// What is left of it.
    type Answer;

    /// What it does to its probe where it answers this. One that says nothing here proves nothing.
    ghost does: { Self → Self.Answer → LiveSide → LiveSide → Type 0 } = { λ work answer old new. ⊤ };

    /// Does it.
    fn run<L: Loan, R: Wait>(self, rt: &R, probe: &mut LentProbe<L>, value: &mut T) -> Self::Answer
        ensures { does self result probe.old probe.new };
}
