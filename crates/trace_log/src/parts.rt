//! What is found of an event in one JSON object, member after member.
ghost use Rattle.std.specs.Prelude.{◌≡◌, IfSome};
ghost use Rattle.trace_log.specs.PlainEvents.{FindsParts, SpellsParts};
ghost use Rattle.trace_log.specs.SeenParts.{seen_parts};

use crate::look::after_blank;
use crate::plain::{after_value, braced, quoted};
use crate::plain_event::PlainEvent;

/// What was found of an event: its host, its text, and the place of its clock.
#[derive(Clone, Copy, Drop)]
pub(crate) struct Parts<'t> {
    pub host: Option<&'t [u8]>,
    pub text: Option<&'t [u8]>,
    pub place: Option<&'t [u8]>,
}

impl<'t> Parts<'t> {
    /// Passes over the value of the member with this name at the front: what is found then, and what stands after it.
    pub fn with(self, name: &[u8], text: &'t [u8]) -> Option<(Parts<'t>, &'t [u8])>
        ensures { IfSome result (λ found.
            FindsParts name.now text.now found.1.now (seen_parts self.entry) (seen_parts found.0)) }
    {
        let value = after_blank(text);
        if name == b"host".as_slice() {
            let (host, rest) = quoted(value)?;
            let host = Some(host);
            return Some((Parts { host, ..self }, rest));
        }
        if name == b"event".as_slice() {
            let (said, rest) = quoted(value)?;
            let text = Some(said);
            return Some((Parts { text, ..self }, rest));
        }
        if name == b"clock".as_slice() {
            if self.place.is_some() {
                return None;
            }
            let (clock, rest) = braced(value)?;
            let place = Some(clock);
            return Some((Parts { place, ..self }, rest));
        }
        let rest = after_value(value)?;
        Some((self, rest))
    }

    /// The event of the line, where all its parts were found.
    pub fn whole(self, line: &'t [u8]) -> Option<PlainEvent<'t>>
        requires { SpellsParts line.now (seen_parts self) }
        ensures { IfSome result (λ event. event.line.now ≡ line.now) }
    {
        let host = text_of(self.host?)?;
        let text = text_of(self.text?)?;
        let place = self.place?;
        Some(PlainEvent {
            line,
            host,
            place,
            text,
        })
    }
}

/// The text that bytes are.
fn text_of(bytes: &[u8]) -> Option<&str>
    ensures { IfSome result (λ text. text.now ≡ bytes.now) }
{
    match str::from_utf8(bytes) {
        Ok(text) => Some(text),
        Err(_) => None,
    }
}
