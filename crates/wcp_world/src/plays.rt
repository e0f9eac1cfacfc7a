ghost use Rattle.std.specs.Prelude.{◌≡◌, [], ◌∷◌, ◌++◌, List, IfOk, OnOk};
ghost use Rattle.wcp_model.specs.declared.plan.Plan.{Plan};
ghost use Rattle.wcp_model.specs.declared.step.Step.{Step};
ghost use Rattle.wcp_model.specs.PlanFault.{IsCheckedPlan};
ghost use Rattle.wcp_world.specs.Plays.{AreTalliesOf, HasAnswered, IsPlayed};
ghost use Rattle.wcp_world.specs.World.{IsWorldOf, process_count};

use crate::world::World;
use std::alloc::{AllocError, Global};
use wcp_model::{Plan, Reply, Report, Step, Tallies};

/// What a list of steps led to.
#[derive(Drop)]
pub struct Played {
    /// The reply to each step.
    pub replies: Vec<Reply>,
    /// What the snapshots taken tell.
    pub report: Report,
    /// How many snapshots of each process were emitted and taken.
    pub tallies: Tallies,
}

/// Makes these steps one after another, under a plan. `Err` where memory runs out.
pub fn play(alloc: Global, plan: &Plan, steps: &[Step]) -> Result<Played, AllocError>
    requires { IsCheckedPlan plan.now }
    ensures { IfOk result (λ played. IsPlayed plan.now steps.now played.replies.items played.report played.tallies) }
{
    let mut world = World::new(alloc, plan)?;
    play_in(alloc, &mut world, steps)
}

/// Makes these steps one after another in a new world, which stays with the caller.
fn play_in(alloc: Global, world: &mut World, steps: &[Step]) -> Result<Played, AllocError>
    ensures { (plan : Plan) → IsWorldOf plan [] world.old →
        IfOk result (λ played. IsPlayed plan steps.now played.replies.items played.report played.tallies) }
{
    let mut replies = Vec::with_capacity(alloc, steps.len())?;
    answer_all(world, steps, &mut replies)?;
    let tallies = tallies(alloc, world)?;
    Ok(Played {
        replies,
        report: world.report(),
        tallies,
    })
}

/// Makes these steps one after another, and notes their replies.
fn answer_all(world: &mut World, steps: &[Step], replies: &mut Vec<Reply>) -> Result<(), AllocError>
    ensures { OnOk result
        ((plan : Plan)
        → HasAnswered plan [] replies.old.items world.old
        → HasAnswered plan steps.now replies.new.items world.new) }
{
    for step in steps {
        answer(world, *step, replies)?;
    }
    Ok(())
}

/// Makes the next step, and notes its reply.
fn answer(world: &mut World, step: Step, replies: &mut Vec<Reply>) -> Result<(), AllocError>
    ensures { OnOk result
        ((plan : Plan) (steps : List Step)
        → HasAnswered plan steps replies.old.items world.old
        → HasAnswered plan (steps ++ step ∷ []) replies.new.items world.new) }
{
    let reply = world.step(step)?;
    replies.extend_from_slice(&[reply])?;
    Ok(())
}

/// The tally of each process.
fn tallies(alloc: Global, world: &World) -> Result<Tallies, AllocError>
    ensures { IfOk result (λ tallies. AreTalliesOf world.now (process_count world.now) tallies) }
{
    let n = world.processes();
    let mut tallies = Vec::with_capacity(alloc, n as usize)?;
    for p in 0..n {
        tallies.push(world.tally(p))?;
    }
    Ok(Tallies::new(&tallies))
}
