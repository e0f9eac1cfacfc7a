//! What is told of any two of the hosts whose names match.
ghost use Rattle.std.specs.Prelude.{◌≡◌, map, IfOk, List};
ghost use Rattle.trace_log.specs.Log.{Logged as SeenLogged};
ghost use Rattle.trace_pairs.specs.Searching.{HasTakenLog, HasTakenSome, names_of, rule_in};
ghost use Rattle.trace_detect.specs.Told.{seen_count, seen_member, told_by};
ghost use Rattle.trace_asking.specs.AnyTwo.{AnswersLastOfTwo};
ghost use Rattle.trace_asking.specs.TwoTold.{pair_told, told_count, told_member};

use std::alloc::{AllocError, Global};
use trace_detect::{DetectFault, HostCount, MomentMember, TraceAnswer};
use trace_pairs::{HostsCondition, MatchedCount, PairMember, PairMoment, PairSearch};

/// The answer of a search that has taken all events of a log. Where no host matches, `NoHost` names the expression of
/// the names.
pub(crate) fn last_of_two(
    alloc: Global,
    condition: &HostsCondition,
    search: &mut PairSearch<'_>,
) -> Result<TraceAnswer, DetectFault>
    requires { HasTakenSome search.old }
    ensures { (logged : List SeenLogged) → HasTakenLog (names_of condition.now) (rule_in condition.now) logged search.old →
        AnswersLastOfTwo condition.now logged result }
{
    if let Some(moment) = search.end()? {
        return Ok(told_moment(alloc, &moment)?);
    }
    let counts = search.counts()?;
    if counts.is_empty() {
        let hosts = String::from_str(alloc, condition.condition.host.as_str())?;
        return Err(DetectFault::NoHost(hosts));
    }
    Ok(TraceAnswer::NoMoment(told_counts(alloc, &counts)?))
}

/// A moment of two hosts, with a member for each.
pub(crate) fn told_moment(alloc: Global, moment: &PairMoment) -> Result<TraceAnswer, AllocError>
    ensures { IfOk result (λ told. told_by told ≡ pair_told moment.now) }
{
    let mut members = Vec::with_capacity(alloc, 2)?;
    members.push(member_of(&moment.first)?)?;
    members.push(member_of(&moment.second)?)?;
    Ok(TraceAnswer::Found(members))
}

/// The member that is told of one of two hosts.
fn member_of(member: &PairMember) -> Result<MomentMember, AllocError>
    ensures { IfOk result (λ told. seen_member told ≡ told_member member.now) }
{
    let host = member.host.clone()?;
    let text = member.text.clone()?;
    Ok(MomentMember {
        host,
        line: member.line,
        text,
    })
}

/// How often the condition held at each host.
fn told_counts(alloc: Global, counts: &[MatchedCount]) -> Result<Vec<HostCount>, AllocError>
    ensures { IfOk result (λ told. map seen_count told.items ≡ map told_count counts.now) }
{
    let mut told = Vec::with_capacity(alloc, counts.len())?;
    for count in counts {
        told.push(count_of(count)?)?;
    }
    Ok(told)
}

/// How often the condition held at a host.
fn count_of(count: &MatchedCount) -> Result<HostCount, AllocError>
    ensures { IfOk result (λ told. seen_count told ≡ told_count count.now) }
{
    let host = count.host.clone()?;
    Ok(HostCount {
        host,
        events: count.events,
        matched: count.matched,
    })
}
