//! The answers of a search.
ghost use Rattle.std.specs.Prelude.{◌≡◌, true, ◌<◌, IfOk, IfSome, MatchOption, length, map};
ghost use Rattle.trace_moment.specs.Search.{Keeps, is_known, watched_by};
ghost use Rattle.trace_moment.specs.Standing.{HasNoMoment};
ghost use Rattle.trace_detect.specs.Detection.{AllLog, AnswersLast, IsFirstSilent};
ghost use Rattle.trace_detect.specs.Told.{found_told, members_from, none_told, seen_member, told_by};
ghost use Rattle.trace_detect.specs.Watcher.{AreJudges, HasCounted, IsWatching};
ghost use Rattle.trace_detect.specs.Watching.{taken_of, watches};

use crate::answer::{MomentMember, TraceAnswer};
use crate::fault::DetectFault;
use crate::judged::Judged;
use crate::told::{counts_of, members_of};
use crate::watcher::Watcher;
use std::alloc::{AllocError, Global};

/// The answer where a watcher knows the moment.
pub(crate) fn found_answer(alloc: Global, watcher: &Watcher<'_>) -> Result<TraceAnswer, AllocError>
    requires known { is_known watcher.now.search ≡ true }
    requires watched { watched_by watcher.now.search ≡ watches watcher.now.conditions.now }
    ensures { (moment : _) → Keeps watcher.now.search moment → IfOk result (λ answer.
        told_by answer ≡ found_told watcher.now.conditions.now moment) }
{
    Ok(TraceAnswer::Found(moment_of(alloc, watcher)?))
}

/// The members of the moment that a watcher knows.
pub(crate) fn moment_of(
    alloc: Global,
    watcher: &Watcher<'_>,
) -> Result<Vec<MomentMember>, AllocError>
    requires known { is_known watcher.now.search ≡ true }
    requires watched { watched_by watcher.now.search ≡ watches watcher.now.conditions.now }
    ensures { (moment : _) → Keeps watcher.now.search moment → IfOk result (λ members.
        map seen_member members.items ≡ members_from 0 watcher.now.conditions.now moment) }
{
    members_of(alloc, watcher.conditions, &watcher.search)
}

/// The answer of a watcher at the end of the log.
pub(crate) fn last_answer(
    alloc: Global,
    watcher: &mut Watcher<'_>,
) -> Result<TraceAnswer, DetectFault>
    requires as_many { length watcher.old.judges.items ≡ length watcher.old.conditions.now }
    requires watched { watched_by watcher.old.search ≡ watches watcher.old.conditions.now }
    ensures answer { (conditions : _) (logged : _) → IsWatching conditions logged watcher.old →
        AnswersLast conditions logged result }
    ensures watched { watched_by watcher.new.search ≡ watches watcher.new.conditions.now }
{
    if watcher.search.end() {
        return Ok(found_answer(alloc, watcher)?);
    }
    no_moment_answer(alloc, watcher)
}

/// The answer to a log without a moment: how often each condition held, or the first host that logs nothing.
pub(crate) fn no_moment_answer(
    alloc: Global,
    watcher: &Watcher<'_>,
) -> Result<TraceAnswer, DetectFault>
    requires { length watcher.now.judges.items ≡ length watcher.now.conditions.now }
    ensures { (conditions : _) (logged : _) → HasCounted conditions logged watcher.now →
        HasNoMoment (watches conditions) (taken_of conditions logged) → AnswersLast conditions logged result }
{
    if let Some(place) = first_silent(&watcher.judges) {
        let host = String::from_str(alloc, watcher.conditions[place].host.as_str())?;
        return Err(DetectFault::NoHost(host));
    }
    Ok(none_answer(alloc, watcher)?)
}

/// The answer where there is no moment.
fn none_answer(alloc: Global, watcher: &Watcher<'_>) -> Result<TraceAnswer, AllocError>
    requires { length watcher.now.judges.items ≡ length watcher.now.conditions.now }
    ensures { (logged : _) → AreJudges watcher.now.conditions.now logged watcher.now.judges.items →
        IfOk result (λ answer. told_by answer ≡ none_told watcher.now.conditions.now logged) }
{
    let counts = counts_of(alloc, watcher.conditions, &watcher.judges)?;
    Ok(TraceAnswer::NoMoment(counts))
}

/// The place of the first host that has no event, if there is one.
fn first_silent(judges: &[Judged<'_>]) -> Option<usize>
    ensures within { IfSome result (λ place. place < length judges.now) }
    ensures first { (conditions : _) (logged : _) → AreJudges conditions logged judges.now →
        MatchOption result (AllLog logged conditions) (IsFirstSilent logged conditions) }
{
    for place in 0..judges.len() {
        if judges[place].tally.events == 0 {
            return Some(place);
        }
    }
    None
}
