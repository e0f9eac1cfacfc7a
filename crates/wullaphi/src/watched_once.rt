//! A cell of a watched program that is written once and read by many: who reads it takes the stamp of who wrote it.
ghost use Rattle.std.specs.Prelude.{◌≡◌, OnOk, OnErr, IfErr, IfSome};
ghost use Rattle.wullaphi.specs.WatchedLocks.{Leaves, LeavesNone, MayLeave, MayTake, TakesNone};

use crate::lent_probe::{LentProbe, Loan};
use crate::run_message::RunMessage;
use std::sync::{OnceLock, Wait};
use wcp_probe::Refusal;

/// A cell that is written once. What its writer did before happened before what a reader does once it has read.
#[derive(Drop)]
pub struct WatchedOnce<T> {
    cell: OnceLock<RunMessage<T>>,
}

impl<T> WatchedOnce<T> {
    /// A cell in which nothing was written.
    pub fn new() -> WatchedOnce<T> {
        WatchedOnce {
            cell: OnceLock::new(),
        }
    }

    /// Writes this, if nothing was written. Else it comes back, without a refusal, and the process may have sent a
    /// stamp that nobody takes.
    pub fn set<L: Loan, R: Wait>(
        &self,
        rt: &R,
        probe: &mut LentProbe<L>,
        value: T,
    ) -> Result<(), (Option<Refusal>, T)>
    where
        T: Drop,
        ensures written { OnOk result (Leaves probe.old probe.new) }
        ensures back { IfErr result (λ back. back.1 ≡ value) }
        ensures refused { IfErr result (λ back. IfSome back.0 (λ why. LeavesNone why probe.old probe.new)) }
        ensures late { OnErr result (MayLeave probe.old probe.new) }
    {
        if self.cell.get().is_some() {
            return Err((None, value));
        }
        let sent = match RunMessage::send(probe, value) {
            Ok(sent) => sent,
            Err((why, value)) => return Err((Some(why), value)),
        };
        let written = self.cell.set(rt, sent);
        probe.observe_again(rt);
        match written {
            Ok(_) => Ok(()),
            Err(sent) => Err((None, sent.into_value())),
        }
    }

    /// What was written, if something was.
    pub fn get<L: Loan, R: Wait>(
        &self,
        rt: &R,
        probe: &mut LentProbe<L>,
    ) -> Result<Option<&T>, Refusal>
        ensures taken { OnOk result (MayTake probe.old probe.new) }
        ensures refused { IfErr result (λ why. TakesNone why probe.old probe.new) }
    {
        let Some(sent) = self.cell.get() else {
            return Ok(None);
        };
        probe.take_of_run(sent)?;
        probe.observe_again(rt);
        Ok(Some(sent.value()))
    }
}
