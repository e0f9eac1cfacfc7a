//! The lines of a log that is said anew.
ghost use Rattle.std.specs.Prelude.{◌≡◌, option_map, MatchResult, Ok, Err};
ghost use Rattle.trace_log.specs.Numbered.{cut_at, fault_mark, kind_named, number_said, numbered_in};
ghost use Rattle.trace_log.specs.Turns.{seen_numbered};

use crate::fault::LogFaultKind;
use crate::line::text_in;
use crate::number::line_number;

/// What a line of a log says.
#[derive(Clone, Copy)]
pub(crate) enum LineSays<'t> {
    /// An event, in one JSON object.
    Event(&'t str),
    /// A fault, in these words.
    Fault(LogFaultKind, &'t str),
}

/// A line of a log, by its number.
#[derive(Clone, Copy)]
pub(crate) struct NumberedLine<'t> {
    pub number: u64,
    pub says: LineSays<'t>,
}

/// What a line says: `NUMBER JSON`, or `NUMBER!KIND WORDS`.
#[tactic(auto, unfolding(crate::specs::Numbered::numbered_in))]
pub(crate) fn numbered_in(line: &[u8]) -> Result<NumberedLine<'_>, LogFaultKind>
    ensures { MatchResult result (λ one. numbered_in line.now ≡ Ok (seen_numbered one))
        (λ kind. numbered_in line.now ≡ Err kind) }
{
    let text = text_in(line)?;
    let (named, rest) = cut_at_space(text).ok_or(LogFaultKind::Text)?;
    match cut_at_mark(named) {
        Some((named, kind)) => {
            let number = line_number(named).ok_or(LogFaultKind::Text)?;
            let kind = kind_named(kind).ok_or(LogFaultKind::Text)?;
            let says = LineSays::Fault(kind, rest);
            Ok(NumberedLine { number, says })
        }
        None => {
            let number = line_number(named).ok_or(LogFaultKind::Text)?;
            let says = LineSays::Event(rest);
            Ok(NumberedLine { number, says })
        }
    }
}

/// The number of the line of which a line speaks, and this one where it names none.
pub(crate) fn number_said(count: u64, line: &[u8]) -> u64
    ensures { result ≡ number_said count (numbered_in line.now) }
{
    match numbered_in(line) {
        Ok(one) => one.number,
        Err(_) => count,
    }
}

/// What stands before the first space of a text, and what stands after it.
fn cut_at_space(text: &str) -> Option<(&str, &str)>
    ensures { option_map (λ parts. (parts.0.now, parts.1.now)) result ≡ cut_at 32 text.now }
{
    text.split_once(' ')
}

/// What stands before the first `!` of a text, and what stands after it.
fn cut_at_mark(text: &str) -> Option<(&str, &str)>
    ensures { option_map (λ parts. (parts.0.now, parts.1.now)) result ≡ cut_at fault_mark text.now }
{
    text.split_once('!')
}

/// The kind of fault with this name.
#[tactic(auto, unfolding(crate::specs::Numbered::kind_named))]
fn kind_named(name: &str) -> Option<LogFaultKind>
    ensures { result ≡ kind_named name.now }
{
    match name {
        "long" => Some(LogFaultKind::Long),
        "text" => Some(LogFaultKind::Text),
        "clock" => Some(LogFaultKind::Clock),
        "own" => Some(LogFaultKind::Own),
        "order" => Some(LogFaultKind::Order),
        "falls" => Some(LogFaultKind::Falls),
        "cycle" => Some(LogFaultKind::Cycle),
        "many" => Some(LogFaultKind::Many),
        "twice" => Some(LogFaultKind::Twice),
        "waits" => Some(LogFaultKind::Waits),
        _ => None,
    }
}
