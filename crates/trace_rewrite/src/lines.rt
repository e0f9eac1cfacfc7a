ghost use Rattle.std.specs.Prelude.{◌≡◌, ◌++◌, ◌≤◌, length, OnOk, IfOk};
ghost use Rattle.json.specs.Tree.{HasNumbers};
ghost use Rattle.json.specs.Value.{value_view};
ghost use Rattle.std.specs.Str.{IsUtf8};
ghost use Rattle.trace_log.specs.Event.{most_bytes};
ghost use Rattle.trace_rewrite.specs.Lines.{event_json, event_line, event_text, fault_line, in_one_line, SaysEvent};

use itoa::Buffer;
use json::{Value, Writer};
use std::alloc::{AllocError, Global};
use trace_log::{LogFaultKind, MAX_LINE};

/// Adds the line that says the event of the line with this number. It says the fault `long` instead where it would have
/// more bytes than a line may have.
#[tactic(auto, unfolding(crate::specs::Lines::event_line))]
pub fn push_event(
    alloc: Global,
    out: &mut Vec<u8>,
    number: u64,
    host: &str,
    clock: &Value<'_>,
    text: &str,
) -> Result<(), AllocError>
    requires { HasNumbers (value_view clock.now) }
    ensures line { OnOk result
        (out.new.items ≡ out.old.items ++ event_line number host.now (value_view clock.now) text.now) }
    ensures says { OnOk result (length (event_text number host.now (value_view clock.now) text.now) ≤ most_bytes →
        SaysEvent number host.now (value_view clock.now) text.now
        (event_text number host.now (value_view clock.now) text.now)) }
{
    let json = event_json(alloc, host, clock, text)?;
    let mut buffer = Buffer::new();
    let digits = buffer.format(number).as_bytes();
    if json.len() >= MAX_LINE - digits.len() {
        return push_fault(out, number, LogFaultKind::Long, "more than 65536 bytes");
    }
    out.extend_from_slice(digits)?;
    out.push(b' ')?;
    out.extend_from_slice(&json)?;
    out.push(b'\n')?;
    Ok(())
}

/// Adds the line that says that the line with this number has a fault, in these words.
#[tactic(auto, unfolding(crate::specs::Lines::fault_line))]
pub fn push_fault(
    out: &mut Vec<u8>,
    number: u64,
    kind: LogFaultKind,
    words: &str,
) -> Result<(), AllocError>
    ensures { OnOk result (out.new.items ≡ out.old.items ++ fault_line number kind words.now) }
{
    let mut buffer = Buffer::new();
    out.extend_from_slice(buffer.format(number).as_bytes())?;
    out.push(b'!')?;
    out.extend_from_slice(kind.name().as_bytes())?;
    out.push(b' ')?;
    push_words(out, words.as_bytes())?;
    out.push(b'\n')?;
    Ok(())
}

/// Adds words, with a space in the place of each LF.
fn push_words(out: &mut Vec<u8>, words: &[u8]) -> Result<(), AllocError>
    ensures { OnOk result (out.new.items ≡ out.old.items ++ in_one_line words.now) }
{
    for byte in words {
        out.push(if *byte == b'\n' { b' ' } else { *byte })?;
    }
    Ok(())
}

/// An event, as a JSON text: an object of its host, its clock and its text, as a line of a log in the form `lines` is.
pub fn event_json(
    alloc: Global,
    host: &str,
    clock: &Value<'_>,
    text: &str,
) -> Result<Vec<u8>, AllocError>
    requires { HasNumbers (value_view clock.now) }
    ensures json { IfOk result (λ json. json.items ≡ event_json host.now (value_view clock.now) text.now) }
    ensures utf8 { IfOk result (λ json. IsUtf8 json.items) }
{
    let mut writer = Writer::new(Vec::new(alloc));
    writer.begin_object()?;
    writer.key("host")?;
    writer.string(host)?;
    writer.key("clock")?;
    writer.value(clock)?;
    writer.key("event")?;
    writer.string(text)?;
    writer.end_object()?;
    Ok(writer.into_inner())
}
