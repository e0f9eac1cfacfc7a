//! An answer as a JSON object in one line.
ghost use Rattle.std.specs.Prelude.{◌≡◌, ◌++◌, ◌∷◌, [], IfOk, OnOk, map, option_map};
ghost use Rattle.json.specs.Print.{print};
ghost use Rattle.trace_detect.specs.Told.{definite, none, seen_count, seen_member, seen_run, told_by};
ghost use Rattle.trace_text.specs.Json.{Adds, answer_tokens, told_tokens, host_tokens, hosts_tokens, json_line};
ghost use Rattle.trace_text.specs.Json.{member_tokens, members_tokens, moment_tokens, moments_tokens, name_tokens};
ghost use Rattle.trace_text.specs.Json.{number_tokens, over_tokens, run_tokens, runs_tokens};
ghost use Rattle.trace_text.specs.Json.{text_tokens, why_tokens};

use json::Writer;
use std::alloc::{AllocError, Global};
use trace_detect::{HostCount, HostRun, MomentMember, TraceAnswer};

/// An answer and why it stands, if that is said, with the name of its question where it has one.
pub(crate) fn json_of(
    alloc: Global,
    name: Option<&str>,
    answer: &TraceAnswer,
    why: &str,
) -> Result<Vec<u8>, AllocError>
    ensures { IfOk result (λ text. text.items
        ≡ json_line (answer_tokens (option_map (λ name. name.now) name.entry) (told_by answer.now) why.now)) }
{
    let mut out = Writer::new(Vec::new(alloc));
    out.begin_object()?;
    put_name(&mut out, name)?;
    put_answer(&mut out, answer)?;
    put_why(&mut out, why)?;
    out.end_object()?;
    line_of(out)
}

/// How many moments there are.
pub(crate) fn json_count(alloc: Global, count: u64) -> Result<Vec<u8>, AllocError>
    ensures { IfOk result (λ text. text.items ≡ json_line (moments_tokens count)) }
{
    let mut out = Writer::new(Vec::new(alloc));
    out.begin_object()?;
    put_number(&mut out, "moments", count)?;
    out.end_object()?;
    line_of(out)
}

/// What was written, and a line feed.
pub(crate) fn line_of(out: Writer) -> Result<Vec<u8>, AllocError>
    ensures { IfOk result (λ text. text.items ≡ out.before ++ json_line out.tokens) }
{
    let mut text = out.into_inner();
    text.push(b'\n')?;
    Ok(text)
}

/// Writes the name of a question, where there is one.
pub(crate) fn put_name(out: &mut Writer, name: Option<&str>) -> Result<(), AllocError>
    ensures { OnOk result (Adds out.old out.new (name_tokens (option_map (λ name. name.now) name.entry))) }
{
    match name {
        Some(name) => put_text(out, "question", name),
        None => Ok(()),
    }
}

/// Writes an answer.
fn put_answer(out: &mut Writer, answer: &TraceAnswer) -> Result<(), AllocError>
    ensures { OnOk result (Adds out.old out.new (told_tokens (told_by answer.now))) }
{
    match answer {
        TraceAnswer::Found(members) => put_moment(out, "found", members),
        TraceAnswer::NoMoment(counts) => put_hosts(out, counts),
        TraceAnswer::Definite(runs) => put_definite(out, runs),
        TraceAnswer::Possible(members) => put_moment(out, "possibly", members),
    }
}

/// Writes the answer of this name, and a moment.
fn put_moment(out: &mut Writer, name: &str, members: &[MomentMember]) -> Result<(), AllocError>
    ensures { OnOk result (Adds out.old out.new (moment_tokens name.now (map seen_member members.now))) }
{
    put_text(out, "answer", name)?;
    out.key("moment")?;
    out.begin_array()?;
    put_members(out, members)?;
    out.end_array()
}

/// Writes the members of a moment.
fn put_members(out: &mut Writer, members: &[MomentMember]) -> Result<(), AllocError>
    ensures { OnOk result (Adds out.old out.new (members_tokens (map seen_member members.now))) }
{
    for member in members {
        put_member(out, member)?;
    }
    Ok(())
}

/// Writes a member of a moment.
fn put_member(out: &mut Writer, member: &MomentMember) -> Result<(), AllocError>
    ensures { OnOk result (Adds out.old out.new (member_tokens (seen_member member.now))) }
{
    out.begin_object()?;
    put_text(out, "host", member.host.as_str())?;
    put_number(out, "line", member.line)?;
    put_text(out, "event", member.text.as_str())?;
    out.end_object()
}

/// Writes runs that must have overlapped.
fn put_definite(out: &mut Writer, runs: &[HostRun]) -> Result<(), AllocError>
    ensures { OnOk result (Adds out.old out.new (told_tokens (definite (map seen_run runs.now)))) }
{
    put_text(out, "answer", "definitely")?;
    out.key("runs")?;
    out.begin_array()?;
    put_runs(out, runs)?;
    out.end_array()
}

/// Writes runs.
fn put_runs(out: &mut Writer, runs: &[HostRun]) -> Result<(), AllocError>
    ensures { OnOk result (Adds out.old out.new (runs_tokens (map seen_run runs.now))) }
{
    for run in runs {
        put_run(out, run)?;
    }
    Ok(())
}

/// Writes a run.
fn put_run(out: &mut Writer, run: &HostRun) -> Result<(), AllocError>
    ensures { OnOk result (Adds out.old out.new (run_tokens (seen_run run.now))) }
{
    out.begin_object()?;
    put_text(out, "host", run.host.as_str())?;
    put_number(out, "line", run.line)?;
    put_over(out, run.over)?;
    put_text(out, "event", run.text.as_str())?;
    out.end_object()
}

/// Writes at which line a run is over, where that is known.
fn put_over(out: &mut Writer, over: Option<u64>) -> Result<(), AllocError>
    ensures { OnOk result (Adds out.old out.new (over_tokens over)) }
{
    match over {
        Some(over) => put_number(out, "over", over),
        None => Ok(()),
    }
}

/// Writes that there is no moment.
fn put_hosts(out: &mut Writer, counts: &[HostCount]) -> Result<(), AllocError>
    ensures { OnOk result (Adds out.old out.new (told_tokens (none (map seen_count counts.now)))) }
{
    put_text(out, "answer", "none")?;
    out.key("hosts")?;
    out.begin_array()?;
    put_counts(out, counts)?;
    out.end_array()
}

/// Writes the counts of hosts.
fn put_counts(out: &mut Writer, counts: &[HostCount]) -> Result<(), AllocError>
    ensures { OnOk result (Adds out.old out.new (hosts_tokens (map seen_count counts.now))) }
{
    for count in counts {
        put_count(out, count)?;
    }
    Ok(())
}

/// Writes the count of a host.
fn put_count(out: &mut Writer, count: &HostCount) -> Result<(), AllocError>
    ensures { OnOk result (Adds out.old out.new (host_tokens (seen_count count.now))) }
{
    out.begin_object()?;
    put_text(out, "host", count.host.as_str())?;
    put_number(out, "events", count.events)?;
    put_number(out, "matched", count.matched)?;
    out.end_object()
}

/// Writes why an answer stands, if that is said.
fn put_why(out: &mut Writer, why: &str) -> Result<(), AllocError>
    ensures { OnOk result (Adds out.old out.new (why_tokens why.now)) }
{
    if why.is_empty() {
        return Ok(());
    }
    put_text(out, "why", why)
}

/// Writes a member that is a text.
#[tactic(auto, unfolding(crate::specs::Json::text_tokens))]
pub(crate) fn put_text(out: &mut Writer, name: &str, text: &str) -> Result<(), AllocError>
    ensures { OnOk result (Adds out.old out.new (text_tokens name.now text.now)) }
{
    out.key(name)?;
    out.string(text)
}

/// Writes a member that is a number.
#[tactic(auto, unfolding(crate::specs::Json::number_tokens))]
pub(crate) fn put_number(out: &mut Writer, name: &str, number: u64) -> Result<(), AllocError>
    ensures { OnOk result (Adds out.old out.new (number_tokens name.now number)) }
{
    out.key(name)?;
    out.u64(number)
}
