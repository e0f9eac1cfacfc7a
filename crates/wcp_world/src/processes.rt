ghost use Rattle.std.specs.Prelude.{◌≡◌, ◌<◌, ◌≤◌, ℕ, [], List, length, IfOk, OnErr, IsSome, Option};
ghost use Rattle.wcp_clock.specs.Limits.{most_processes};
ghost use Rattle.wcp_clock.specs.declared.note.Note.{Note};
ghost use Rattle.wcp_model.specs.declared.step.Step.TheVariants as step;
ghost use Rattle.wcp_model.specs.Computation.{Computation};
ghost use Rattle.wcp_world.specs.Answer.{KeepsIfRefused};
ghost use Rattle.wcp_world.specs.Processes.{AreProcessesOf, CountsEmissions, Loses, Performs, WasPut, pending_at};
ghost use Rattle.wcp_world.specs.Messages.{why_of};

use crate::messages::Letters;
use std::alloc::{AllocError, Global};
use std::marker::Model;
use wcp_clock::{CLOCK_LIMIT, Note};
use wcp_model::{Plan, Reply, Why};
use wcp_probe::{ProbeCore, Refusal};

/// The processes that are watched: the probe of each, and the messages between them.
#[derive(Drop)]
pub struct Processes {
    probes: Vec<ProbeCore>,
    letters: Letters,
}

impl Model for Processes {
    ghost use Rattle.wcp_world.specs.Processes.{ProcessesState};

    ghost Value = { ProcessesState };

    ghost view = { λ app. record { probes = app.probes.items; letters = app.letters } };
}

impl Processes {
    /// The processes of a plan, before any event. `Err` where memory runs out.
    pub fn new(alloc: Global, plan: &Plan) -> Result<Processes, AllocError>
        requires { plan.now.n ≤ most_processes }
        ensures { IfOk result (λ app. AreProcessesOf plan.now.n plan.now.watched plan.now.flag [] (λ p. []) app) }
    {
        let mut probes = Vec::with_capacity(alloc, plan.n as usize)?;
        for id in 0..plan.n {
            probes.push(ProbeCore::new(0, plan.probe_setup(id), CLOCK_LIMIT))?;
        }
        Ok(Processes {
            probes,
            letters: Letters::new(alloc),
        })
    }

    /// Process `p` observes its condition.
    pub fn observe(&mut self, p: u32, holds: bool) -> Reply
        ensures answered { Performs self.old (step.Observe p holds) result self.new }
        ensures refused { KeepsIfRefused self.old result self.new }
    {
        let Some(probe) = self.probes.get_mut(p as usize) else {
            return Reply::Refused(Why::NoSuch);
        };
        match probe.observe(holds) {
            Ok(_) => Reply::Done,
            Err(refusal) => Reply::Refused(why_of(refusal)),
        }
    }

    /// Process `p` sends a message to process `to`. `Err` where memory runs out: nothing has
    /// changed.
    pub fn send(&mut self, p: u32, to: u32) -> Result<Reply, AllocError>
        ensures answered { IfOk result (λ reply. Performs self.old (step.Send p to) reply self.new) }
        ensures refused { IfOk result (λ reply. KeepsIfRefused self.old reply self.new) }
        ensures unchanged { OnErr result (self.new ≡ self.old) }
    {
        let Some(probe) = self.probes.get_mut(p as usize) else {
            return Ok(Reply::Refused(Why::NoSuch));
        };
        let refusal = self.letters.post(probe, to)?;
        Ok(match refusal {
            Some(refusal) => Reply::Refused(why_of(refusal)),
            None => Reply::Done,
        })
    }

    /// Process `p` receives this message.
    pub fn receive(&mut self, p: u32, message: u64) -> Reply
        ensures answered { Performs self.old (step.Recv p message) result self.new }
        ensures refused { KeepsIfRefused self.old result self.new }
    {
        let Some(probe) = self.probes.get_mut(p as usize) else {
            return Reply::Refused(Why::NoSuch);
        };
        self.letters.deliver(probe, p, message)
    }

    /// Process `p` closes.
    pub fn close(&mut self, p: u32) -> Reply
        ensures answered { Performs self.old (step.Close p) result self.new }
        ensures refused { KeepsIfRefused self.old result self.new }
    {
        let Some(probe) = self.probes.get_mut(p as usize) else {
            return Reply::Refused(Why::NoSuch);
        };
        match probe.close() {
            Ok(()) => Reply::Done,
            Err(refusal) => Reply::Refused(why_of(refusal)),
        }
    }

    /// Process `p` is lost. Ok says how many of its notes were put on its link.
    pub fn lose(&mut self, p: u32) -> Result<u32, Why>
        ensures answered { Loses self.old p result self.new }
        ensures refused { OnErr result (self.new ≡ self.old) }
    {
        let Some(probe) = self.probes.get_mut(p as usize) else {
            return Err(Why::NoSuch);
        };
        if probe.closed() {
            return Err(Why::Closed);
        }
        let unput = u32::from(probe.pending().is_some());
        let put = probe.emitted().saturating_sub(unput);
        probe.lose();
        Ok(put)
    }

    /// The note of process `p` that its link has not taken yet, if there is one.
    pub fn pending(&self, p: u32) -> Option<Note>
        ensures { result ≡ pending_at self.now p }
    {
        self.probes.get(p as usize)?.pending().copied()
    }

    /// The link of process `p` has taken its pending note.
    pub fn was_put(&mut self, p: u32)
        requires { IsSome (pending_at self.old p) }
        ensures { WasPut self.old p self.new }
    {
        self.probes[p as usize].was_put();
    }

    /// How many processes there are.
    pub fn count(&self) -> usize
        ensures { result ≡ length self.now.probes }
    {
        self.probes.len()
    }

    /// How many snapshots process `p` has emitted.
    pub fn emitted(&self, p: u32) -> u32
        requires { p < length self.now.probes }
        ensures { CountsEmissions self.now p result }
    {
        self.probes[p as usize].emitted()
    }
}

/// What a step is answered whose event the probe refuses. No message is refused as strange, as
/// addressed to another process or as ahead, since each letter goes to the process that it was sent
/// to.
fn why_of(refusal: Refusal) -> Why
    ensures { result ≡ why_of refusal }
{
    match refusal {
        Refusal::NoSuch => Why::NoSuch,
        Refusal::Closed => Why::Closed,
        Refusal::Backlog => Why::Backlog,
        Refusal::Stranger | Refusal::NotMine | Refusal::Ahead | Refusal::ClockEnd => Why::ClockEnd,
    }
}
