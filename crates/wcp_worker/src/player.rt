ghost use Rattle.std.specs.Prelude.{List, OnOk};
ghost use Rattle.wcp_model.specs.declared.workload.Action.TheVariants as action;
ghost use Rattle.wcp_model.specs.ProbeLog.{Call};
ghost use Rattle.wcp_model.specs.ProbeLog.{Observed, Sent};
ghost use Rattle.wcp_relay.specs.LiveProbe.{IsSameLive};

use crate::gate::{Gate, may_step};
use crate::mailbox::Mailbox;
use crate::worker_end::WorkerFault;
use std::sync::Wait;
use wcp_model::Action;
use wcp_relay::LiveProbe;

/// What a worker works with: its probe, and the lanes to its partners.
#[derive(Drop)]
pub struct Player {
    pub(crate) probe: LiveProbe,
    pub(crate) mailbox: Mailbox,
}

impl Player {
    ghost use Rattle.wcp_worker.specs.Mailboxes.{IsMailboxOf};
    ghost use Rattle.wcp_worker.specs.Played.{DoesAction, HasDoneActions, IsFreshPlayer};

    /// Does all these actions, each after its gate has let it pass.
    pub(crate) fn play<R: Wait, G: Gate>(
        &mut self,
        rt: &R,
        gate: &G,
        actions: &[Action],
    ) -> Result<(), WorkerFault>
        requires { IsFreshPlayer self.old }
        ensures done { OnOk result ((log : List Call) × HasDoneActions self.old actions.now log self.new) }
        ensures same { IsSameLive self.old.probe self.new.probe }
    {
        for (step, action) in actions.iter().enumerate() {
            if !may_step(gate, &self.probe, step as u64) {
                return Err(WorkerFault::Held);
            }
            self.perform(rt, *action)?;
        }
        Ok(())
    }

    /// Does one action.
    fn perform<R: Wait>(&mut self, rt: &R, action: Action) -> Result<(), WorkerFault>
        requires { IsMailboxOf self.old.probe.core.id self.old.mailbox }
        ensures done { OnOk result ((call : Call) × DoesAction self.old action call self.new) }
        ensures same { IsSameLive self.old.probe self.new.probe }
    {
        match action {
            Action::Observe(holds) => {
                self.observe(rt, holds);
                Ok(())
            }
            Action::Send(to) => self.send(rt, to),
            Action::Recv(from) => self.receive(rt, from),
        }
    }

    fn observe<R: Wait>(&mut self, rt: &R, holds: bool)
        requires { IsMailboxOf self.old.probe.core.id self.old.mailbox }
        ensures done { DoesAction self.old (action.Observe holds) (Observed holds) self.new }
        ensures same { IsSameLive self.old.probe self.new.probe }
    {
        self.probe.observe(holds);
        self.probe.flush_in_watch(rt);
    }

    fn send<R: Wait>(&mut self, rt: &R, to: u32) -> Result<(), WorkerFault>
        requires { IsMailboxOf self.old.probe.core.id self.old.mailbox }
        ensures done { OnOk result (DoesAction self.old (action.Send to) Sent self.new) }
        ensures same { IsSameLive self.old.probe self.new.probe }
    {
        match self.probe.stamp(to, ()) {
            Ok(stamped) => self.mailbox.send(rt, to, stamped),
            Err((refusal, ())) => Err(WorkerFault::Refused(refusal)),
        }
    }

    fn receive<R: Wait>(&mut self, rt: &R, from: u32) -> Result<(), WorkerFault>
        requires { IsMailboxOf self.old.probe.core.id self.old.mailbox }
        ensures done { OnOk result ((call : Call) × DoesAction self.old (action.Recv from) call self.new) }
        ensures same { IsSameLive self.old.probe self.new.probe }
    {
        let stamped = self.mailbox.take(rt, from)?;
        match self.probe.receive(stamped) {
            Ok(()) => Ok(()),
            Err((refusal, _)) => Err(WorkerFault::Refused(refusal)),
        }
    }
}
