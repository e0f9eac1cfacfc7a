//! The search under the conditions of hosts.
ghost use Rattle.std.specs.Prelude.{◌≡◌, ◌-◌, ◌^◌, ◌<◌, ◌∷◌, ◌++◌, [], false, IfOk, OnOk, length, map};
ghost use Rattle.trace_log.specs.Log.{Logged};
ghost use Rattle.trace_log.specs.Turns.{seen_logged};
ghost use Rattle.trace_log.specs.LoggedEvents.{FollowsIn};
ghost use Rattle.trace_moment.specs.Search.{is_known};
ghost use Rattle.trace_moment.specs.Views.{seen_watch};
ghost use Rattle.trace_condition.specs.Conditions.{HaveHosts};
ghost use Rattle.trace_detect.specs.Watching.{lasting_of, watches};
ghost use Rattle.trace_detect.specs.Watcher.{CanTake, IsWatching, IsWatchingBehind, WatchesNext, KeepsNext, IsPlaceOf};

use crate::judged::{Judged, judge_at, judges_of};
use crate::listener::WatchedHosts;
use std::alloc::{AllocError, Global};
use trace_condition::Condition;
use trace_log::Logged;
use trace_moment::{Lasting, Search, WatchedHost};

/// The search for the earliest moment under conditions, and what is known of their hosts.
#[derive(Drop)]
pub(crate) struct Watcher<'c> {
    pub(crate) conditions: &'c [Condition],
    pub(crate) judges: Vec<Judged<'c>>,
    pub(crate) search: Search,
}

impl<'c> Watcher<'c> {
    /// Before the first event.
    pub fn new(alloc: Global, conditions: &'c [Condition]) -> Result<Watcher<'c>, AllocError>
        requires { HaveHosts conditions.now }
        ensures { IfOk result (IsWatching conditions.now []) }
    {
        let judges = judges_of(alloc, conditions)?;
        let search = Search::new(alloc, watched_of(alloc, conditions)?)?;
        Ok(Watcher {
            conditions,
            judges,
            search,
        })
    }

    /// The hosts that are watched.
    pub fn hosts(&self) -> WatchedHosts<'_, 'c> {
        WatchedHosts {
            conditions: self.conditions,
            judges: self.judges.as_slice(),
        }
    }

    /// Takes the next event of the log. `true`: the moment is known.
    pub fn take(&mut self, logged: &Logged<'_>) -> Result<bool, AllocError>
        requires { CanTake self.old }
        ensures next { (conditions : _) (told : _) (before : _) → IsWatchingBehind conditions told before self.old →
            FollowsIn before (seen_logged logged.now).event →
            WatchesNext conditions told before (seen_logged logged.now) result self.new }
        ensures all { (conditions : _) (told : _) (before : _) → IsWatchingBehind conditions told before self.old →
            FollowsIn before (seen_logged logged.now).event →
            OnOk result (KeepsNext conditions told before (seen_logged logged.now) self.new.search) }
    {
        let Some(place) = place_of(self.conditions, logged.event.host) else {
            return Ok(false);
        };
        let holds = judge_at(&mut self.judges, place, logged.event.text);
        self.search.take(place, logged, holds)
    }
}

/// The hosts that conditions watch.
pub(crate) fn watched_of(
    alloc: Global,
    conditions: &[Condition],
) -> Result<Vec<WatchedHost>, AllocError>
    ensures { IfOk result (λ watched. map seen_watch watched.items ≡ watches conditions.now) }
{
    let mut watched = Vec::with_capacity(alloc, conditions.len())?;
    for condition in conditions {
        let host = condition.host.clone()?;
        let lasting = lasting_of(condition);
        watched.push(WatchedHost { host, lasting })?;
    }
    Ok(watched)
}

/// How long the states of a condition last.
fn lasting_of(condition: &Condition) -> Lasting
    ensures { result ≡ lasting_of condition.now.rule }
{
    if condition.lasts() {
        Lasting::While
    } else {
        Lasting::At
    }
}

/// The place of the condition of a host, if it has one.
pub(crate) fn place_of(conditions: &[Condition], host: &str) -> Option<usize>
    ensures { IsPlaceOf host.now conditions.now result }
{
    for place in 0..conditions.len() {
        if conditions[place].host.as_str() == host {
            return Some(place);
        }
    }
    None
}
