//! An answer as lines of text.
ghost use Rattle.std.specs.Prelude.{◌≡◌, ◌++◌, IfOk, OnOk, map, option_map, string_bytes};
ghost use Rattle.std.specs.List.{flat_map};
ghost use Rattle.trace_detect.specs.Told.{definite, none, seen_count, seen_member, seen_run, told_by};
ghost use Rattle.trace_text.specs.Lines.{lines_of, name_text, host_line, member_line, moments_line, run_line};
ghost use Rattle.trace_text.specs.Lines.{why_head, why_lines};
ghost use Rattle.trace_text.specs.Unknown.{answer_lines};

use std::alloc::{AllocError, Global};
use trace_detect::{HostCount, HostRun, MomentMember, ReasonedAnswer, TraceAnswer};
use trace_names::push_shown;

/// The lines of an answer. `Err` where memory runs out.
pub fn lines_of(alloc: Global, answer: &TraceAnswer) -> Result<String, AllocError>
    ensures { IfOk result (λ text. string_bytes text ≡ lines_of (told_by answer.now)) }
{
    match answer {
        TraceAnswer::Found(members) => moment_lines(alloc, "found\n", members),
        TraceAnswer::NoMoment(counts) => count_lines(alloc, counts),
        TraceAnswer::Definite(runs) => run_lines(alloc, runs),
        TraceAnswer::Possible(members) => moment_lines(alloc, "possibly\n", members),
    }
}

/// The lines of an answer, and of why it stands where that was asked. `Err` where memory runs out.
pub fn reasoned_lines(alloc: Global, told: &ReasonedAnswer) -> Result<String, AllocError>
    ensures { IfOk result (λ text. string_bytes text ≡ answer_lines told.now) }
{
    let mut text = lines_of(alloc, &told.answer)?;
    push_why(&mut text, &told.answer, told.why.as_str())?;
    Ok(text)
}

/// Adds why an answer stands, if that is said.
fn push_why(text: &mut String, answer: &TraceAnswer, why: &str) -> Result<(), AllocError>
    ensures { OnOk result (string_bytes text.new ≡ string_bytes text.old ++ why_lines (told_by answer.now) why.now) }
{
    if why.is_empty() {
        return Ok(());
    }
    text.push_str(why_head(answer))?;
    text.push_str(why)
}

/// What stands before the reasons of an answer.
fn why_head(answer: &TraceAnswer) -> &'static str
    ensures { result.now ≡ why_head (told_by answer.now) }
{
    match answer {
        TraceAnswer::NoMoment(_) => "why: ",
        TraceAnswer::Found(_) | TraceAnswer::Definite(_) | TraceAnswer::Possible(_) => "why:\n",
    }
}

/// These lines, behind a name where there is one.
pub(crate) fn named(alloc: Global, name: Option<&str>, lines: String) -> Result<Vec<u8>, AllocError>
    ensures { IfOk result (λ text. text.items
        ≡ name_text (option_map (λ name. name.now) name.entry) ++ string_bytes lines) }
{
    let Some(name) = name else {
        return Ok(lines.into_bytes());
    };
    let mut text = Vec::new(alloc);
    text.extend_from_slice(name.as_bytes())?;
    text.extend_from_slice(b": ")?;
    text.extend_from_slice(lines.as_bytes())?;
    Ok(text)
}

/// The line that says how many moments there are.
pub(crate) fn count_line(alloc: Global, count: u64) -> Result<Vec<u8>, AllocError>
    ensures { IfOk result (λ text. text.items ≡ moments_line count) }
{
    let text = format!(in alloc; "moments {count}\n")?;
    Ok(text.into_bytes())
}

/// This line, and those of the members of a moment.
fn moment_lines(alloc: Global, head: &str, members: &[MomentMember]) -> Result<String, AllocError>
    ensures { IfOk result (λ text. string_bytes text
        ≡ head.now ++ flat_map member_line (map seen_member members.now)) }
{
    let mut text = String::from_str(alloc, head)?;
    for member in members {
        push_member(&mut text, member)?;
    }
    Ok(text)
}

/// Adds the line of a member of a moment.
fn push_member(text: &mut String, member: &MomentMember) -> Result<(), AllocError>
    ensures { OnOk result (string_bytes text.new ≡ string_bytes text.old ++ member_line (seen_member member.now)) }
{
    push_shown(text, member.host.as_str())?;
    let line = member.line;
    let event = member.text.as_str();
    writeln!(text, " line {line} {event}")
}

/// The lines of runs that must have overlapped.
fn run_lines(alloc: Global, runs: &[HostRun]) -> Result<String, AllocError>
    ensures { IfOk result (λ text. string_bytes text ≡ lines_of (definite (map seen_run runs.now))) }
{
    let mut text = String::from_str(alloc, "definitely\n")?;
    for run in runs {
        push_run(&mut text, run)?;
    }
    Ok(text)
}

/// Adds the line of a run.
fn push_run(text: &mut String, run: &HostRun) -> Result<(), AllocError>
    ensures { OnOk result (string_bytes text.new ≡ string_bytes text.old ++ run_line (seen_run run.now)) }
{
    push_shown(text, run.host.as_str())?;
    let line = run.line;
    let event = run.text.as_str();
    match run.over {
        Some(over) => writeln!(text, " lines {line} to {over} {event}"),
        None => writeln!(text, " line {line} on {event}"),
    }
}

/// The lines of hosts where there is no moment.
fn count_lines(alloc: Global, counts: &[HostCount]) -> Result<String, AllocError>
    ensures { IfOk result (λ text. string_bytes text ≡ lines_of (none (map seen_count counts.now))) }
{
    let mut text = String::from_str(alloc, "none\n")?;
    for count in counts {
        push_count(&mut text, count)?;
    }
    Ok(text)
}

/// Adds the line of a host, how many events it has, and at how many its condition holds.
fn push_count(text: &mut String, count: &HostCount) -> Result<(), AllocError>
    ensures { OnOk result (string_bytes text.new ≡ string_bytes text.old ++ host_line (seen_count count.now)) }
{
    push_shown(text, count.host.as_str())?;
    let (events, matched) = (count.events, count.matched);
    writeln!(text, " events {events} matched {matched}")
}
