ghost use Rattle.std.specs.Prelude.{◌≡◌, ◌<◌, ◌≤◌, false, [], ◌∷◌, ◌++◌, List, IsOk, IfOk, OnErr};
ghost use Rattle.wcp_clock.specs.Limits.{most_processes};
ghost use Rattle.wcp_model.specs.Headline.{IsHeadline};
ghost use Rattle.wcp_model.specs.PlanFault.{IsCheckedPlan};
ghost use Rattle.wcp_model.specs.Replies.{Answered, accepted, computation, items_taken};
ghost use Rattle.wcp_world.specs.Answer.{KeepsIfRefused};
ghost use Rattle.wcp_world.specs.Plays.{IsTallyOf};

use crate::detector::Detector;
use std::alloc::{AllocError, Global};
use std::marker::Model;
use wcp_model::{Plan, Reply, Report, Step, Tally};

/// The core of the detector: its probes, relays and checker, in one interleaving of their steps.
#[derive(Drop)]
pub struct World {
    detector: Detector,
}

impl Model for World {
    ghost use Rattle.std.specs.Coded.{codes};
    ghost use Rattle.wcp_clock.specs.ProcessNumbers.{numbers_code};
    ghost use Rattle.wcp_world.specs.World.{WorldState, IsReached};
    ghost use Rattle.wcp_world.specs.WorldView.{state_of};

    ghost Value = { WorldState };

    ghost coded = { Prim.hlevel (codes, numbers_code) };

    ghost view = { λ w. state_of w.detector };

    ghost invariant = { λ w. IsReached (state_of w.detector) };
}

impl World {
    ghost use Rattle.wcp_model.specs.declared.plan.Plan.{Plan};
    ghost use Rattle.wcp_world.specs.World.{IsWorldOf, may_grow, process_count};

    /// The world of a plan, before any step. `Err` where memory runs out.
    pub fn new(alloc: Global, plan: &Plan) -> Result<World, AllocError>
        requires { IsCheckedPlan plan.now }
        ensures { IfOk result (λ world. IsWorldOf plan.now [] world) }
    {
        Ok(World {
            detector: Detector::new(alloc, plan)?,
        })
    }

    /// Makes a step, or refuses it. `Err` where memory runs out: nothing has changed, and the step
    /// may be asked again.
    pub fn step(&mut self, step: Step) -> Result<Reply, AllocError>
        ensures answered { IfOk result (λ reply. (plan : Plan) (history : List Answered)
            → IsWorldOf plan history self.old
            → IsWorldOf plan (history ++ record { step = step; reply = reply } ∷ []) self.new) }
        ensures refused { IfOk result (λ reply. KeepsIfRefused self.old reply self.new) }
        ensures unchanged { OnErr result (self.new ≡ self.old) }
        ensures memory { may_grow step ≡ false → IsOk result }
    {
        self.detector.step(step)
    }

    /// How many processes there are.
    pub fn processes(&self) -> u32
        ensures value { result ≡ process_count self.now }
        ensures some { 0 < process_count self.now }
        ensures few { process_count self.now ≤ most_processes }
    {
        self.detector.checker.processes()
    }

    /// What the snapshots taken so far tell.
    pub fn report(&self) -> Report
        ensures { (plan : Plan) (history : List Answered)
            → IsWorldOf plan history self.now → IsHeadline plan history result }
    {
        self.detector.checker.report()
    }

    /// How many snapshots of process `p` were emitted and taken.
    pub fn tally(&self, p: u32) -> Tally
        requires { p < process_count self.now }
        ensures { (plan : Plan) (history : List Answered)
            → IsWorldOf plan history self.now
            → IsTallyOf plan.n plan.watched plan.flag (computation (accepted history)) (items_taken history) p result }
    {
        Tally {
            emitted: self.detector.processes.emitted(p) as u64,
            taken: self.detector.checker.taken(p),
        }
    }
}
