use crate::plain_event::PlainEvent;
use json::Value;

/// How the clock of an event is given.
#[derive(Clone, Copy)]
pub(crate) enum Spelled<'t, 'v> {
    /// As a text.
    Text(&'t str),
    /// As the members of an object that was read.
    Members(&'t [(&'v str, Value<'v>)]),
    /// In one object with the host and the text.
    Beside(PlainEvent<'t>),
}
