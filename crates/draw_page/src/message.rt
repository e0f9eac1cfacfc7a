//! The messages of a page.
ghost use Rattle.std.specs.Prelude.{◌++◌, OnOk};
ghost use Rattle.draw_page.specs.Adding.{Adds};
ghost use Rattle.draw_page.specs.Messages.{end_tokens, message_tokens};

use crate::data::put_count;
use json::Writer;
use std::alloc::AllocError;

/// A message.
#[derive(Clone, Copy, Debug)]
pub struct PageMessage {
    pub from: MessageEnd,
    pub to: MessageEnd,
}

/// An end of a message.
#[derive(Clone, Copy, Debug)]
pub enum MessageEnd {
    /// The event at this place of the page's events.
    Event(usize),
    /// No event of the page, but one of the host at this place; or none at all, where the message is never received.
    Host(usize),
}

/// Writes a message.
pub(crate) fn put_message(out: &mut Writer, message: PageMessage) -> Result<(), AllocError>
    ensures { OnOk result (Adds out.old out.new (message_tokens message)) }
{
    out.begin_object()?;
    put_end(out, "from", "from_host", message.from)?;
    put_end(out, "to", "to_host", message.to)?;
    out.end_object()
}

/// Writes an end of a message under its name, and its host under another name where no event is shown.
fn put_end(out: &mut Writer, name: &str, host_name: &str, end: MessageEnd) -> Result<(), AllocError>
    ensures { OnOk result (Adds out.old out.new (end_tokens name.now host_name.now end)) }
{
    match end {
        MessageEnd::Event(place) => put_count(out, name, place as u64),
        MessageEnd::Host(host) => {
            out.key(name)?;
            out.null()?;
            put_count(out, host_name, host as u64)
        }
    }
}
