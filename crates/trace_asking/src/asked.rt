//! How far a question about a log has come.
ghost use Rattle.std.specs.Prelude.{◌≡◌, [], false, All, IfNone, IfOk, IfSome, OnOk, List};
ghost use Rattle.trace_log.specs.Log.{Logged as LoggedEvent};
ghost use Rattle.trace_log.specs.LoggedEvents.{FollowsIn};
ghost use Rattle.trace_log.specs.Turns.{seen_logged};
ghost use Rattle.trace_asking.specs.declared.asked.Stage.TheVariants as stage;
ghost use Rattle.trace_asking.specs.declared.question.Question.{Question as AskedQuestion};
ghost use Rattle.trace_asking.specs.Asking.{AreAsked, CanAllTake, HasTakenOne, HaveAll, IsAt, IsWaiting, NoneAt};
ghost use Rattle.trace_asking.specs.Asking.{answered_in, is_answered};
ghost use Rattle.trace_asking.specs.Seeking.{CanSeek};

use crate::question::Question;
use crate::seeker::Seeker;
use std::alloc::{AllocError, Global};
use trace_detect::Listener;
use trace_log::Logged;

/// How far a question has come.
#[derive(Clone, Copy, Debug, PartialEq, Eq)]
pub(crate) enum Stage {
    /// No moment is known.
    Open,
    /// The moment became known at the last event that was read.
    Known,
    /// The question was answered.
    Answered,
}

/// A question, by the search for its answer.
#[derive(Drop)]
pub(crate) struct Asked<'q> {
    pub seeker: Seeker<'q>,
    pub stage: Stage,
}

impl Asked<'_> {
    /// Takes the next event of the log, if the question is open.
    fn take(&mut self, logged: &Logged<'_>) -> Result<(), AllocError>
        requires { self.old.stage ≡ stage.Open → CanSeek self.old.seeker (seen_logged logged.now) }
        ensures answered { OnOk result (is_answered self.new.stage ≡ is_answered self.old.stage) }
        ensures takes { (question : AskedQuestion) (before : List LoggedEvent) →
            IsWaiting before question self.old → FollowsIn before (seen_logged logged.now).event →
            OnOk result (HasTakenOne before (seen_logged logged.now) question self.new) }
    {
        let Stage::Open = self.stage else {
            return Ok(());
        };
        if self.seeker.take(logged)? {
            self.stage = Stage::Known;
        }
        Ok(())
    }
}

/// The questions in their order, before the first event.
pub(crate) fn asked_of<'q>(
    alloc: Global,
    questions: &'q [Question],
) -> Result<Vec<Asked<'q>>, AllocError>
    requires { HaveAll questions.now }
    ensures waiting { IfOk result (λ asked. AreAsked (IsWaiting []) questions.now asked.items) }
    ensures unanswered { IfOk result (λ asked. All (λ answered. answered ≡ false) (answered_in asked.items)) }
{
    let mut asked = Vec::with_capacity(alloc, questions.len())?;
    for question in questions {
        asked.push(Asked {
            seeker: Seeker::new(alloc, question)?,
            stage: Stage::Open,
        })?;
    }
    Ok(asked)
}

/// Each question takes the next event of the log, unless it was answered.
pub(crate) fn take_all(asked: &mut Vec<Asked<'_>>, logged: &Logged<'_>) -> Result<(), AllocError>
    requires { CanAllTake asked.old.items (seen_logged logged.now) }
    ensures answered { OnOk result (answered_in asked.new.items ≡ answered_in asked.old.items) }
    ensures takes { (questions : List AskedQuestion) (before : List LoggedEvent) →
        AreAsked (IsWaiting before) questions asked.old.items → FollowsIn before (seen_logged logged.now).event →
        OnOk result (AreAsked (HasTakenOne before (seen_logged logged.now)) questions asked.new.items) }
{
    for place in 0..asked.len() {
        asked[place].take(logged)?;
    }
    Ok(())
}

/// The first question at a stage, if there is one.
pub(crate) fn first_at(asked: &[Asked<'_>], stage: Stage) -> Option<usize>
    ensures none { IfNone result (NoneAt stage asked.now) }
    ensures some { IfSome result (IsAt stage asked.now) }
{
    for place in 0..asked.len() {
        if asked[place].stage == stage {
            return Some(place);
        }
    }
    None
}

/// Tells the listener of an event, with the hosts of the first question.
pub(crate) fn tell<L: Listener>(asked: &[Asked<'_>], logged: &Logged<'_>, listener: &mut L) {
    if let Some(first) = asked.first() {
        listener.hear(logged, &first.seeker.hosts());
    }
}
