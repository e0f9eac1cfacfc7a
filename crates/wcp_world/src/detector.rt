ghost use Rattle.std.specs.Prelude.{◌≡◌, false, [], IsOk, IfOk, OnOk, OnErr};
ghost use Rattle.wcp_model.specs.declared.step.Step.TheVariants as step;
ghost use Rattle.wcp_model.specs.PlanFault.{IsCheckedPlan};
ghost use Rattle.wcp_queue.specs.Checker.{MayTake, TakesItem, processes};
ghost use Rattle.wcp_world.specs.Answer.{KeepsIfRefused};
ghost use Rattle.wcp_world.specs.World.{MakesStep, IsReached, Stands, may_grow};
ghost use Rattle.wcp_world.specs.WorldView.{state_of};

use crate::processes::Processes;
use crate::transport::Transport;
use std::alloc::{AllocError, Global};
use wcp_clock::Item;
use wcp_model::{Plan, Reply, Step, Why};
use wcp_queue::Checker;

/// The processes, the transport and the checker of a plan.
#[derive(Drop)]
pub struct Detector {
    pub processes: Processes,
    pub transport: Transport,
    pub checker: Checker,
}

impl Detector {
    /// The detector of a plan, before any step. `Err` where memory runs out.
    #[tactic(auto, using(crate::proofs::Places::plan_limits))]
    pub fn new(alloc: Global, plan: &Plan) -> Result<Detector, AllocError>
        requires { IsCheckedPlan plan.now }
        ensures { IfOk result (λ detector. Stands plan.now [] [] (state_of detector)) }
    {
        Ok(Detector {
            processes: Processes::new(alloc, plan)?,
            transport: Transport::new(alloc, plan)?,
            checker: Checker::new(alloc, plan.n, plan.watched)?,
        })
    }

    /// Makes a step, or refuses it. `Err` where memory runs out: nothing has changed.
    pub fn step(&mut self, step: Step) -> Result<Reply, AllocError>
        requires { IsReached (state_of self.old) }
        ensures answered { IfOk result (λ reply. MakesStep (state_of self.old) step reply (state_of self.new)) }
        ensures refused { IfOk result (λ reply. KeepsIfRefused (state_of self.old) reply (state_of self.new)) }
        ensures unchanged { OnErr result (state_of self.new ≡ state_of self.old) }
        ensures memory { may_grow step ≡ false → IsOk result }
    {
        match step {
            Step::Observe(p, holds) => Ok(self.processes.observe(p, holds)),
            Step::Send(p, to) => self.processes.send(p, to),
            Step::Recv(p, message) => Ok(self.processes.receive(p, message)),
            Step::Close(p) => Ok(self.processes.close(p)),
            Step::Dropped(p) => Ok(self.lose(p)),
            Step::Put(p) => Ok(self.put(p)),
            Step::Admit(..) | Step::Pull(_) | Step::Pass(_) => Ok(self.transport.convey(step)),
            Step::Check => self.check(),
        }
    }

    /// Process `p` is lost: the mark that says so goes on its link.
    fn lose(&mut self, p: u32) -> Reply
        requires { IsReached (state_of self.old) }
        ensures answered { MakesStep (state_of self.old) (step.Dropped p) result (state_of self.new) }
        ensures refused { KeepsIfRefused (state_of self.old) result (state_of self.new) }
    {
        match self.processes.lose(p) {
            Ok(put) => {
                self.transport.lose(p, put);
                Reply::Done
            }
            Err(why) => Reply::Refused(why),
        }
    }

    /// The link of process `p` takes its pending note.
    fn put(&mut self, p: u32) -> Reply
        requires { IsReached (state_of self.old) }
        ensures answered { MakesStep (state_of self.old) (step.Put p) result (state_of self.new) }
        ensures refused { KeepsIfRefused (state_of self.old) result (state_of self.new) }
    {
        if p as usize >= self.processes.count() {
            return Reply::Refused(Why::NoSuch);
        }
        let Some(note) = self.processes.pending(p) else {
            return Reply::Refused(Why::Empty);
        };
        if !self.transport.put(p, note) {
            return Reply::Refused(Why::Full);
        }
        self.processes.was_put(p);
        Reply::Done
    }

    /// The checker takes an item from the root inbox. `Err` where memory runs out: nothing has
    /// changed.
    fn check(&mut self) -> Result<Reply, AllocError>
        requires { IsReached (state_of self.old) }
        ensures answered { IfOk result (λ reply. MakesStep (state_of self.old) step.Check reply (state_of self.new)) }
        ensures refused { IfOk result (λ reply. KeepsIfRefused (state_of self.old) reply (state_of self.new)) }
        ensures unchanged { OnErr result (state_of self.new ≡ state_of self.old) }
    {
        let Some(item) = self.transport.next() else {
            return Ok(Reply::Refused(Why::Empty));
        };
        hand_over(&mut self.checker, &item)?;
        self.transport.take_next();
        Ok(Reply::Took(item))
    }
}

/// The checker takes the item. `Err` where memory runs out: nothing has changed.
fn hand_over(checker: &mut Checker, item: &Item) -> Result<(), AllocError>
    requires { MayTake checker.old item.now }
    ensures taken { OnOk result (TakesItem checker.old checker.new item.now) }
    ensures processes { processes checker.new ≡ processes checker.old }
    ensures watched { checker.new.watched ≡ checker.old.watched }
    ensures unchanged { OnErr result (checker.new ≡ checker.old) }
{
    checker.take_note(item.from, &item.note)
}
