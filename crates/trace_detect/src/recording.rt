//! A watcher that keeps the events that it takes, where reasons are asked for.
ghost use Rattle.std.specs.Prelude.{◌≡◌, [], true, length, string_bytes, IfOk};
ghost use Rattle.trace_log.specs.LoggedEvents.{FollowsIn};
ghost use Rattle.trace_log.specs.Turns.{seen_logged};
ghost use Rattle.trace_moment.specs.Search.{Keeps, is_known, watched_by};
ghost use Rattle.trace_condition.specs.Conditions.{HaveHosts};
ghost use Rattle.trace_detect.specs.Detection.{AnswersLast};
ghost use Rattle.trace_detect.specs.Reasons.{IsWhySo, KeepsSo, answer_alone};
ghost use Rattle.trace_detect.specs.Recording.{CanRecord, IsRecording, RecordsNext};
ghost use Rattle.trace_detect.specs.Told.{found_told, told_by};
ghost use Rattle.trace_detect.specs.Watcher.{IsWatching};
ghost use Rattle.trace_detect.specs.Watching.{watches};

use crate::answer::ReasonedAnswer;
use crate::detection::{found_answer, last_answer};
use crate::fault::DetectFault;
use crate::judged::judge_at;
use crate::listener::WatchedHosts;
use crate::reasons::{history_of, keep, why_it_stands};
use crate::watcher::{Watcher, place_of};
use std::alloc::{AllocError, Global};
use trace_condition::Condition;
use trace_explain::History;
use trace_log::Logged;

/// A watcher, and the events of the watched hosts that it took, where reasons are asked for.
#[derive(Drop)]
pub struct Recording<'c> {
    pub(crate) watcher: Watcher<'c>,
    pub(crate) history: Option<History>,
}

impl<'c> Recording<'c> {
    /// Before the first event. `why`: whether reasons are asked for.
    pub fn new(
        alloc: Global,
        conditions: &'c [Condition],
        why: bool,
    ) -> Result<Recording<'c>, AllocError>
        requires { HaveHosts conditions.now }
        ensures { IfOk result (IsRecording conditions.now why []) }
    {
        Ok(Recording {
            watcher: Watcher::new(alloc, conditions)?,
            history: history_of(alloc, conditions, why)?,
        })
    }

    /// The hosts that are watched.
    pub fn hosts(&self) -> WatchedHosts<'_, 'c> {
        self.watcher.hosts()
    }

    /// Takes the next event of the log. `true`: the moment is known.
    pub fn take(&mut self, logged: &Logged<'_>) -> Result<bool, AllocError>
        requires { CanRecord self.old }
        ensures { (conditions : _) (why : _) (before : _) → IsRecording conditions why before self.old →
            FollowsIn before (seen_logged logged.now).event →
            RecordsNext conditions why before (seen_logged logged.now) result self.new }
    {
        let Some(place) = place_of(self.watcher.conditions, logged.event.host) else {
            return Ok(false);
        };
        let holds = judge_at(&mut self.watcher.judges, place, logged.event.text);
        keep(&mut self.history, place, logged, holds)?;
        self.watcher.search.take(place, logged, holds)
    }

    /// The answer where the moment is known.
    pub fn found(&self, alloc: Global) -> Result<ReasonedAnswer, AllocError>
        requires known { is_known self.now.watcher.search ≡ true }
        requires watched { watched_by self.now.watcher.search ≡ watches self.now.watcher.conditions.now }
        ensures tells { (moment : _) → Keeps self.now.watcher.search moment → IfOk result (λ told.
            told_by told.answer ≡ found_told self.now.watcher.conditions.now moment) }
        ensures why { (conditions : _) (why : _) (logged : _) → KeepsSo why conditions logged self.now.history →
            IfOk result (λ told. IsWhySo why conditions logged (string_bytes told.why)) }
    {
        let answer = found_answer(alloc, &self.watcher)?;
        let why = why_it_stands(alloc, &self.history)?;
        Ok(ReasonedAnswer { answer, why })
    }

    /// The answer at the end of the log.
    pub fn last(&mut self, alloc: Global) -> Result<ReasonedAnswer, DetectFault>
        requires as_many { length self.old.watcher.judges.items ≡ length self.old.watcher.conditions.now }
        requires watched { watched_by self.old.watcher.search ≡ watches self.old.watcher.conditions.now }
        ensures answer { (conditions : _) (logged : _) → IsWatching conditions logged self.old.watcher →
            AnswersLast conditions logged (answer_alone result) }
        ensures why { (conditions : _) (why : _) (logged : _) → KeepsSo why conditions logged self.old.history →
            IfOk result (λ told. IsWhySo why conditions logged (string_bytes told.why)) }
    {
        let answer = last_answer(alloc, &mut self.watcher)?;
        let why = why_it_stands(alloc, &self.history)?;
        Ok(ReasonedAnswer { answer, why })
    }
}
