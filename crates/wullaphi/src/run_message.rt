//! An open message that lies where many may take it, with the run of the watch in which it was sent.
ghost use Rattle.std.specs.Prelude.{◌≡◌, OnOk, IfOk, IfErr, MatchResult, None};
ghost use Rattle.wcp_model.specs.ProbeLog.{Sent};
ghost use Rattle.wcp_probe.specs.Refusals.{open_stamp_refusal};
ghost use Rattle.wcp_probe.specs.Seal.{open_value_of};
ghost use Rattle.wcp_relay.specs.LiveProbe.{LiveAccepts};
ghost use Rattle.wullaphi.specs.WatchedLocks.{LeavesNone, TakesNone, TakesSome};

use crate::lent_probe::{LentProbe, Loan};
use crate::watch_run::RunMark;
use wcp_probe::{OpenStamped, Refusal};

/// What was sent, and the run in which it was.
#[derive(Drop)]
pub struct RunMessage<T> {
    message: OpenStamped<T>,
    run: Option<RunMark>,
}

impl<T> RunMessage<T> {
    /// This process sends this.
    pub(crate) fn send<L: Loan>(
        probe: &mut LentProbe<L>,
        value: T,
    ) -> Result<RunMessage<T>, (Refusal, T)>
        ensures first { MatchResult
            result
            (λ _. open_stamp_refusal probe.old.core ≡ None)
            (λ back. LeavesNone back.0 probe.old probe.new) }
        ensures accepted { OnOk result (LiveAccepts probe.old Sent probe.new) }
        ensures value { IfOk result (λ sent. open_value_of sent.message ≡ value) }
        ensures back { IfErr result (λ back. back.1 ≡ value) }
    {
        match probe.stamp_open(value) {
            Ok(message) => Ok(RunMessage {
                message,
                run: probe.run.mark(),
            }),
            Err(back) => Err(back),
        }
    }

    /// What was sent.
    pub(crate) fn value(&self) -> &T {
        self.message.value()
    }

    /// What was sent, by itself.
    pub(crate) fn into_value(self) -> T
        ensures { result ≡ open_value_of self.message }
    {
        let RunMessage { message, run: _ } = self;
        message.into_value()
    }
}

impl<L: Loan> LentProbe<L> {
    /// Takes a message that was sent in this run, unless the process knows of that send.
    pub(crate) fn take_of_run<T>(&mut self, sent: &RunMessage<T>) -> Result<(), Refusal>
        ensures taken { OnOk result (TakesSome self.old self.new) }
        ensures refused { IfErr result (λ why. TakesNone why self.old self.new) }
    {
        match &sent.run {
            Some(run) if self.run.has_made(run) => self.take_new(&sent.message),
            _ => Ok(()),
        }
    }
}
