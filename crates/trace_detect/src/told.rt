//! What a watcher tells: the moment, or that there is none.
ghost use Rattle.std.specs.Prelude.{◌≡◌, ◌<◌, true, IfOk, length, map};
ghost use Rattle.trace_condition.specs.Conditions.{host_of};
ghost use Rattle.trace_moment.specs.Search.{Keeps, is_known, watched_by};
ghost use Rattle.trace_runs.specs.Keeping.{KeepRuns};
ghost use Rattle.trace_runs.specs.Search.{is_known as runs_are_known, watched_by as hosts_with_runs};
ghost use Rattle.trace_detect.specs.Definite.{run_of, runs_from};
ghost use Rattle.trace_detect.specs.Told.{ToldCount, count_of, member_of, members_from, seen_count, seen_member};
ghost use Rattle.trace_detect.specs.Told.{seen_run};
ghost use Rattle.trace_detect.specs.Watcher.{AreJudges};
ghost use Rattle.trace_detect.specs.Watching.{watches};

use crate::answer::{HostCount, HostRun, MomentMember};
use crate::judged::Judged;
use crate::tally::HostTally;
use std::alloc::{AllocError, Global};
use trace_condition::Condition;
use trace_moment::Search;
use trace_runs::RunSearch;

/// The members of the moment that a search knows.
pub(crate) fn members_of(
    alloc: Global,
    conditions: &[Condition],
    search: &Search,
) -> Result<Vec<MomentMember>, AllocError>
    requires known { is_known search.now ≡ true }
    requires watched { watched_by search.now ≡ watches conditions.now }
    ensures { (moment : _) → Keeps search.now moment →
        IfOk result (λ members. map seen_member members.items ≡ members_from 0 conditions.now moment) }
{
    let mut members = Vec::with_capacity(alloc, conditions.len())?;
    for place in 0..conditions.len() {
        let member = member_at(search, place, &conditions[place])?;
        members.push(member)?;
    }
    Ok(members)
}

/// The member at this place of the moment that a search knows.
fn member_at(
    search: &Search,
    place: usize,
    condition: &Condition,
) -> Result<MomentMember, AllocError>
    requires known { is_known search.now ≡ true }
    requires place { place < length (watched_by search.now) }
    ensures { (moment : _) → Keeps search.now moment → IfOk result (λ member.
        seen_member member ≡ member_of (host_of condition.now) (moment place)) }
{
    let Some(event) = search.event(place) else {
        unreachable!();
    };
    let host = condition.host.clone()?;
    let line = event.line;
    let text = event.text.clone()?;
    Ok(MomentMember { host, line, text })
}

/// The runs that a search knows.
pub(crate) fn runs_of(
    alloc: Global,
    conditions: &[Condition],
    search: &RunSearch,
) -> Result<Vec<HostRun>, AllocError>
    requires known { runs_are_known search.now ≡ true }
    requires watched { hosts_with_runs search.now ≡ watches conditions.now }
    ensures { (runs : _) → KeepRuns search.now.queues.items runs →
        IfOk result (λ told. map seen_run told.items ≡ runs_from 0 conditions.now runs) }
{
    let mut runs = Vec::with_capacity(alloc, conditions.len())?;
    for place in 0..conditions.len() {
        let told = run_at(alloc, search, place, &conditions[place])?;
        runs.push(told)?;
    }
    Ok(runs)
}

/// The run at this place that a search knows.
fn run_at(
    alloc: Global,
    search: &RunSearch,
    place: usize,
    condition: &Condition,
) -> Result<HostRun, AllocError>
    requires known { runs_are_known search.now ≡ true }
    requires place { place < length (hosts_with_runs search.now) }
    ensures { (runs : _) → KeepRuns search.now.queues.items runs → IfOk result (λ run.
        seen_run run ≡ run_of (host_of condition.now) (runs place)) }
{
    let Some(run) = search.run(place) else {
        unreachable!();
    };
    let host = condition.host.clone()?;
    let text = String::from_str(alloc, run.text)?;
    Ok(HostRun {
        host,
        line: run.line,
        over: run.over,
        text,
    })
}

/// How many events the host of each condition has, and at how many it holds.
pub(crate) fn counts_of(
    alloc: Global,
    conditions: &[Condition],
    judges: &[Judged<'_>],
) -> Result<Vec<HostCount>, AllocError>
    requires { length judges.now ≡ length conditions.now }
    ensures { (logged : _) → AreJudges conditions.now logged judges.now →
        IfOk result (λ counts. map seen_count counts.items ≡ map (count_of conditions.now logged) conditions.now) }
{
    let mut counts = Vec::with_capacity(alloc, conditions.len())?;
    for place in 0..conditions.len() {
        let count = count_at(&conditions[place], judges[place].tally)?;
        counts.push(count)?;
    }
    Ok(counts)
}

/// The count of the host of a condition.
fn count_at(condition: &Condition, tally: HostTally) -> Result<HostCount, AllocError>
    ensures { IfOk result (λ count. seen_count count
        ≡ record { host = host_of condition.now; events = tally.events; matched = tally.matched }) }
{
    let host = condition.host.clone()?;
    Ok(HostCount {
        host,
        events: tally.events,
        matched: tally.matched,
    })
}
