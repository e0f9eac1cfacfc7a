ghost use Rattle.std.specs.Prelude.{◌≡◌, Err, Ok, option_map};
ghost use Rattle.json.specs.Find.{get};
ghost use Rattle.json.specs.Tree.{HasNumbers};
ghost use Rattle.json.specs.Value.{value_view};
ghost use Rattle.trace_log.specs.declared.fault.LogFaultKind.TheVariants.{Text};
ghost use Rattle.trace_log.specs.Event.{text_at};
ghost use Rattle.trace_messages.specs.Faults.{Reads};
ghost use Rattle.trace_messages.specs.Words.{text_in, words_in, words_in_json};

use crate::ids::ids_at;
use crate::message_fault::MessageFault;
use json::{Error, Scratch, Value};
use std::alloc::Global;
use trace_log::{LogFaultKind, MAX_LINE};
use trace_order::MessageWords;

/// What a line says.
#[tactic(auto, unfolding(crate::specs::Words::words_in), using(trace_log::proofs::Distinct::tells_names))]
pub(crate) fn words_in(
    alloc: Global,
    scratch: &mut Scratch,
    line: &[u8],
) -> Result<MessageWords, MessageFault>
    ensures { Reads (λ words. words) result (words_in line.now) }
{
    let text = text_in(line)?;
    match Value::parse_strict(alloc, text, scratch) {
        Ok(value) => words_in_json(alloc, &value),
        Err(Error::OutOfMemory) => Err(MessageFault::Memory),
        Err(Error::DuplicateKey) => Err(MessageFault::Has(
            LogFaultKind::Text,
            "a name stands twice",
        )),
        Err(_) => Err(MessageFault::Has(LogFaultKind::Text, "no JSON object")),
    }
}

/// The text that a line is: at most so many bytes, in UTF-8, without a byte order mark.
#[tactic(auto, using(trace_log::proofs::Texts::utf8_passes, trace_log::proofs::Texts::not_utf8))]
fn text_in(line: &[u8]) -> Result<&str, MessageFault>
    ensures { Reads (λ text. text.now) result (text_in line.now) }
{
    if line.len() > MAX_LINE {
        return Err(MessageFault::Has(LogFaultKind::Long, "more than 65536 bytes"));
    }
    let Ok(text) = str::from_utf8(line) else {
        return Err(MessageFault::Has(LogFaultKind::Text, "not UTF-8"));
    };
    if line.starts_with(&[0xef, 0xbb, 0xbf]) {
        return Err(MessageFault::Has(
            LogFaultKind::Text,
            "a byte order mark stands at the beginning of the line; a log has none",
        ));
    }
    Ok(text)
}

/// The event in a JSON object.
#[tactic(auto, unfolding(crate::specs::Words::words_in_json))]
fn words_in_json(alloc: Global, value: &Value<'_>) -> Result<MessageWords, MessageFault>
    requires { HasNumbers (value_view value.now) }
    ensures { Reads (λ words. words) result (words_in_json (value_view value.now)) }
{
    let Some(host) = text_at(value, "host") else {
        return Err(MessageFault::Has(LogFaultKind::Text, "no text \"host\""));
    };
    let Some(text) = text_at(value, "event") else {
        return Err(MessageFault::Has(LogFaultKind::Text, "no text \"event\""));
    };
    let receives = ids_at(alloc, value, "recv")?;
    let sends = ids_at(alloc, value, "send")?;
    let host = String::from_str(alloc, host)?;
    let text = String::from_str(alloc, text)?;
    Ok(MessageWords::new(host, text, receives, sends))
}

/// The text of a member of an object.
fn text_at<'a>(value: &Value<'a>, name: &str) -> Option<&'a str>
    ensures { option_map (λ text. text.now) result ≡ text_at name.now (value_view value.now) }
{
    value.get(name)?.as_str()
}
