//! A stamp that a process left, for whoever comes next.
ghost use Rattle.std.specs.Prelude.{◌≡◌, OnOk, IfErr, MatchResult, Some, None};
ghost use Rattle.wcp_model.specs.ProbeLog.{Sent};
ghost use Rattle.wcp_probe.specs.Refusals.{open_stamp_refusal};
ghost use Rattle.wcp_relay.specs.LiveProbe.{LiveAccepts};
ghost use Rattle.wullaphi.specs.WatchedLocks.{IsLeft, LeavesNone, TakesLast, TakesNone, TakesSome, last_refusal};

use crate::lent_probe::{LentProbe, Loan};
use crate::watch_run::RunMark;
use wcp_probe::{OpenStamped, Refusal};

/// The stamp that was left last, if one was, and the run of the watch in which it was.
#[derive(Drop)]
pub struct LeftStamp {
    pub(crate) stamp: Option<OpenStamped<()>>,
    run: Option<RunMark>,
}

impl LeftStamp {
    /// No stamp, of no run.
    pub(crate) fn none() -> LeftStamp {
        LeftStamp {
            stamp: None,
            run: None,
        }
    }

    /// Forgets a stamp that was left in another run than that of this probe.
    pub(crate) fn start_over<L: Loan>(&mut self, probe: &LentProbe<L>) {
        let is_of_run = self.run.as_ref().is_some_and(|run| probe.run.has_made(run));
        if !is_of_run {
            self.stamp = None;
            self.run = probe.run.mark();
        }
    }

    /// Leaves a stamp of this probe. At an `Err` the one before stays.
    pub(crate) fn leave<L: Loan>(&mut self, probe: &mut LentProbe<L>) -> Result<(), Refusal>
        ensures first { MatchResult
            result
            (λ _. open_stamp_refusal probe.old.core ≡ None)
            (λ why. LeavesNone why probe.old probe.new) }
        ensures accepted { OnOk result (LiveAccepts probe.old Sent probe.new) }
        ensures left { OnOk result (IsLeft self.new.stamp probe.new.core) }
    {
        match probe.stamp_open(()) {
            Ok(stamp) => {
                self.stamp = Some(stamp);
                Ok(())
            }
            Err((why, ())) => Err(why),
        }
    }
}

impl<L: Loan> LentProbe<L> {
    /// Takes the stamp that was left, unless the process knows of that send.
    pub(crate) fn take_last(&mut self, left: &LeftStamp) -> Result<(), Refusal>
        ensures first { MatchResult
            result
            (λ _. last_refusal left.now.stamp self.old.core ≡ None)
            (λ why. last_refusal left.now.stamp self.old.core ≡ Some why) }
        ensures taken { OnOk result (TakesLast left.now.stamp self.old self.new) }
        ensures some { OnOk result (TakesSome self.old self.new) }
        ensures refused { IfErr result (λ why. TakesNone why self.old self.new) }
    {
        match &left.stamp {
            Some(stamp) => self.take_new(stamp),
            None => Ok(()),
        }
    }
}
