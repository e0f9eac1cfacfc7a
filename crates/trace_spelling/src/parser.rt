ghost use Rattle.std.specs.Prelude.{◌≡◌, option_map};
ghost use Rattle.regex.specs.Strings.{matcher_pattern};
ghost use Rattle.trace_spelling.specs.Parsers.{feeds_before, spelled_by};
ghost use Rattle.trace_spelling.specs.Ways.{seen_parts};

use crate::groups::Groups;
use regex::Matcher;

/// The parts of an event, as they stand in a text, and how many lines stand before that of its text.
#[derive(Clone, Copy)]
pub(crate) struct Parts<'t> {
    pub host: &'t str,
    pub clock: &'t str,
    pub text: &'t str,
    pub behind: usize,
}

/// Finds the first match of an expression in a text, and the parts of an event by its groups.
#[derive(Drop)]
pub(crate) struct EventMatcher<'s> {
    pub matcher: Matcher<'s>,
    pub groups: Groups,
}

/// The parts of the event that a text spells, by the first match in it.
pub(crate) fn parts_in<'t>(
    matcher: &mut Matcher<'_>,
    groups: Groups,
    text: &'t str,
) -> Option<Parts<'t>>
    ensures parts { option_map seen_parts result ≡ spelled_by (matcher_pattern matcher.old) groups text.now }
    ensures same { matcher_pattern matcher.new ≡ matcher_pattern matcher.old }
{
    let found = matcher.captures(text)?;
    let host = found.get(groups.host)?;
    let clock = found.get(groups.clock)?;
    let event = found.get(groups.event)?;
    Some(Parts {
        host: host.as_str(),
        clock: clock.as_str(),
        text: event.as_str(),
        behind: feeds_before(text, event.start()),
    })
}

/// How many ends of lines stand before a place of a text.
fn feeds_before(text: &str, place: usize) -> usize
    ensures { result ≡ feeds_before text.now place }
{
    let bytes = text.as_bytes();
    bytes
        .iter()
        .take(place)
        .filter(|byte| **byte == b'\n')
        .count()
}
