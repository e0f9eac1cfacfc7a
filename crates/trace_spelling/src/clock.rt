ghost use Rattle.std.specs.Prelude.{◌≡◌, ◌++◌, OnOk};
ghost use Rattle.trace_rewrite.specs.Lines.{event_line};
ghost use Rattle.trace_spelling.specs.Events.{clock_in_text};

use json::{Error, Scratch, Value};
use std::alloc::{AllocError, Global};
use trace_rewrite::push_event;

/// Adds the line of an event whose clock is given as a text: it is the JSON object that the text is, and else the text.
pub(crate) fn push_with_text(
    alloc: Global,
    out: &mut Vec<u8>,
    number: u64,
    host: &str,
    clock: &str,
    text: &str,
) -> Result<(), AllocError>
    ensures { OnOk result
        (out.new.items ≡ out.old.items ++ event_line number host.now (clock_in_text clock.now) text.now) }
{
    let mut scratch = Scratch::new(alloc);
    match Value::parse(alloc, clock, &mut scratch) {
        Ok(Value::Object(members)) => {
            push_event(alloc, out, number, host, &Value::Object(members), text)
        }
        Err(Error::OutOfMemory) => Err(AllocError),
        _ => push_event(alloc, out, number, host, &Value::String(clock), text),
    }
}
