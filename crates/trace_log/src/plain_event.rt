//! Events in one JSON object read at one look, as most printers spell them: names and texts without escapes, and at
//! most one space behind the brace, each colon and each comma.
ghost use Rattle.std.specs.Prelude.{◌≡◌, IfSome};
ghost use Rattle.std.specs.List.{list_any};
ghost use Rattle.std.specs.Str.{bytes_eq};
ghost use Rattle.trace_log.specs.Fields.{IsNamed};
ghost use Rattle.trace_log.specs.PlainEvents.{SpellsEvent};

use crate::look::{after_blank, after_byte, lead_at};
use crate::parts::Parts;
use crate::plain::quoted;

/// The most members of an object that is read at one look.
const MOST_MEMBERS: usize = 16;

/// An event in one JSON object: its line, its host, its text, and what stands in the place of its clock.
#[derive(Clone, Copy)]
pub(crate) struct PlainEvent<'t> {
    pub line: &'t [u8],
    pub host: &'t str,
    pub place: &'t [u8],
    pub text: &'t str,
    ghost spelled: { SpellsEvent line.now host.now place.now text.now },
}

/// The event that a line is, if it's spelled so. Its clock isn't looked at.
pub(crate) fn plain_event(line: &[u8]) -> Option<PlainEvent<'_>>
    ensures { IfSome result (λ event. event.line.now ≡ line.now) }
{
    let mut parts = Parts {
        host: None,
        text: None,
        place: None,
    };
    let mut names: [&[u8]; MOST_MEMBERS] = [&[]; MOST_MEMBERS];
    let mut rest = line;
    for count in 0..MOST_MEMBERS {
        let (name, value) = named(rest, lead_at(count))?;
        if is_among(name, &names[..count]) {
            return None;
        }
        names[count] = name;
        let (found, after) = parts.with(name, value)?;
        parts = found;
        rest = after;
        if rest.len() == 1 && rest[0] == b'}' {
            return parts.whole(line);
        }
    }
    None
}

/// The name at the front, which stands behind this byte, and what stands after its colon.
fn named(text: &[u8], lead: u8) -> Option<(&[u8], &[u8])>
    ensures { IfSome result (λ found. IsNamed lead found.0.now text.now found.1.now) }
{
    let rest = after_blank(after_byte(text, lead)?);
    let (name, rest) = quoted(rest)?;
    let rest = after_byte(rest, b':')?;
    Some((name, rest))
}

/// Whether a name is one of these.
fn is_among(name: &[u8], names: &[&[u8]]) -> bool
    ensures { result ≡ list_any (λ other. bytes_eq name.now other.now) names.now }
{
    for other in names {
        if name == *other {
            return true;
        }
    }
    false
}
