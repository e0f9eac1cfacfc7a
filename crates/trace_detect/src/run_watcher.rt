//! The search for runs that must have overlapped, under the conditions of hosts.
ghost use Rattle.std.specs.Prelude.{◌≡◌, [], true, IfOk};
ghost use Rattle.trace_log.specs.LoggedEvents.{FollowsIn};
ghost use Rattle.trace_log.specs.Turns.{seen_logged};
ghost use Rattle.trace_runs.specs.Keeping.{KeepRuns};
ghost use Rattle.trace_runs.specs.Search.{is_known, watched_by};
ghost use Rattle.trace_condition.specs.Conditions.{HaveHosts};
ghost use Rattle.trace_detect.specs.Definite.{DecidesLast, definite_told};
ghost use Rattle.trace_detect.specs.RunWatcher.{CanWatchRuns, HasWatchedRuns, IsWatchingRuns, WatchesRuns};
ghost use Rattle.trace_detect.specs.Told.{told_by};
ghost use Rattle.trace_detect.specs.Watching.{watches};

use crate::answer::TraceAnswer;
use crate::detection::{moment_of, no_moment_answer};
use crate::fault::DetectFault;
use crate::judged::judge_at;
use crate::listener::WatchedHosts;
use crate::told::runs_of;
use crate::watcher::{Watcher, place_of, watched_of};
use std::alloc::{AllocError, Global};
use trace_condition::Condition;
use trace_log::Logged;
use trace_runs::RunSearch;

/// The search for runs that must have overlapped, beside that for the earliest moment.
#[derive(Drop)]
pub struct RunWatcher<'c> {
    pub(crate) watcher: Watcher<'c>,
    pub(crate) runs: RunSearch,
}

impl<'c> RunWatcher<'c> {
    /// Before the first event.
    pub fn new(alloc: Global, conditions: &'c [Condition]) -> Result<RunWatcher<'c>, AllocError>
        requires { HaveHosts conditions.now }
        ensures { IfOk result (IsWatchingRuns conditions.now []) }
    {
        Ok(RunWatcher {
            watcher: Watcher::new(alloc, conditions)?,
            runs: RunSearch::new(alloc, watched_of(alloc, conditions)?)?,
        })
    }

    /// The hosts that are watched.
    pub fn hosts(&self) -> WatchedHosts<'_, 'c> {
        self.watcher.hosts()
    }

    /// Takes the next event of the log. `true`: it is known that the conditions must have held at once.
    pub fn take(&mut self, logged: &Logged<'_>) -> Result<bool, AllocError>
        requires { CanWatchRuns self.old }
        ensures { (conditions : _) (before : _) → IsWatchingRuns conditions before self.old →
            FollowsIn before (seen_logged logged.now).event →
            WatchesRuns conditions before (seen_logged logged.now) result self.new }
    {
        let Some(place) = place_of(self.watcher.conditions, logged.event.host) else {
            return Ok(false);
        };
        let holds = judge_at(&mut self.watcher.judges, place, logged.event.text);
        self.watcher.search.take(place, logged, holds)?;
        self.runs.take(place, logged, holds)
    }

    /// The answer where runs are known.
    pub fn found(&self, alloc: Global) -> Result<TraceAnswer, AllocError>
        requires known { is_known self.now.runs ≡ true }
        requires watched { watched_by self.now.runs ≡ watches self.now.watcher.conditions.now }
        ensures { (runs : _) → KeepRuns self.now.runs.queues.items runs → IfOk result (λ answer.
            told_by answer ≡ definite_told self.now.watcher.conditions.now runs) }
    {
        let runs = runs_of(alloc, self.watcher.conditions, &self.runs)?;
        Ok(TraceAnswer::Definite(runs))
    }

    /// The answer at the end of the log.
    pub fn last(&mut self, alloc: Global) -> Result<TraceAnswer, DetectFault>
        requires { HasWatchedRuns self.old }
        ensures { (conditions : _) (logged : _) → IsWatchingRuns conditions logged self.old →
            DecidesLast conditions logged result }
    {
        if self.runs.end() {
            return Ok(self.found(alloc)?);
        }
        if self.watcher.search.end() {
            let moment = moment_of(alloc, &self.watcher)?;
            return Ok(TraceAnswer::Possible(moment));
        }
        no_moment_answer(alloc, &self.watcher)
    }
}
