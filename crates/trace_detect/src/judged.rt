//! What is known of each watched host: whether its condition holds, and how often it did.
ghost use Rattle.std.specs.Prelude.{◌≡◌, ℕ, ◌+◌, ◌-◌, ◌^◌, ◌<◌, ◌≤◌, ◌∷◌, ◌++◌, IfOk, OnOk, length, if◌then◌else◌};
ghost use Rattle.trace_condition.specs.Conditions.{rule_of};
ghost use Rattle.trace_condition.specs.Holding.{holds_at_last};
ghost use Rattle.trace_condition.specs.Judging.{HasJudged};
ghost use Rattle.trace_detect.specs.Watcher.{JudgesNext, AreNew, HasNewJudge, HasRoomAt, JudgesOneAt};

use crate::tally::HostTally;
use std::alloc::{AllocError, Global};
use trace_condition::{Condition, Judge};

/// A watched host: the judge of its condition, and its tally.
#[derive(Drop)]
pub(crate) struct Judged<'c> {
    pub judge: Judge<'c>,
    pub tally: HostTally,
}

impl Judged<'_> {
    /// Whether the condition holds at the host's next event, which has this text. It is counted.
    fn take(&mut self, text: &str) -> bool
        requires { self.old.tally.events < 2 ^ 64 - 1 }
        ensures { JudgesNext self.old text.now result self.new }
    {
        let holds = self.judge.holds(text);
        self.tally.count(holds);
        holds
    }
}

/// A judge for each condition, before the first event.
pub(crate) fn judges_of(
    alloc: Global,
    conditions: &[Condition],
) -> Result<Vec<Judged<'_>>, AllocError>
    ensures { IfOk result (λ judges. AreNew conditions.now judges.items) }
{
    let mut judges = Vec::with_capacity(alloc, conditions.len())?;
    for condition in conditions {
        add_judge(alloc, condition, &mut judges)?;
    }
    Ok(judges)
}

/// Adds a judge of this condition, before the first event.
fn add_judge<'c>(
    alloc: Global,
    condition: &'c Condition,
    judges: &mut Vec<Judged<'c>>,
) -> Result<(), AllocError>
    ensures { OnOk result (HasNewJudge condition.now judges.old.items judges.new.items) }
{
    let judge = condition.judge(alloc)?;
    let tally = HostTally::zero();
    judges.push(Judged { judge, tally })?;
    Ok(())
}

/// Whether the condition at this place holds at its host's next event, which has this text. It is counted.
pub(crate) fn judge_at(judges: &mut [Judged<'_>], place: usize, text: &str) -> bool
    requires place { place < length judges.old }
    requires room { HasRoomAt place judges.old }
    ensures { JudgesOneAt place judges.old text.now result judges.new }
{
    judges[place].take(text)
}
