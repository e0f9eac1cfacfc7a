//! The ids that an event sends or receives.
ghost use Rattle.std.specs.Prelude.{◌≡◌, IfOk, map, option_map, string_bytes};
ghost use Rattle.json.specs.Find.{get};
ghost use Rattle.json.specs.Print.{print};
ghost use Rattle.json.specs.Tree.{HasNumbers, json_tokens};
ghost use Rattle.json.specs.Value.{items_view, value_view};
ghost use Rattle.trace_messages.specs.Faults.{Reads};
ghost use Rattle.trace_messages.specs.Words.{all_in, digits_in, id_in, ids_in, ids_of, no_ids, one_in, told};
ghost use Rattle.std.specs.Str.{IsUtf8};

use crate::message_fault::MessageFault;
use json::{Value, Writer};
use std::alloc::{AllocError, Global};
use trace_log::LogFaultKind;

/// The id that a value is: a text, or a whole number.
fn id_in<'a>(value: &Value<'a>) -> Option<&'a str>
    ensures { option_map (λ id. id.now) result ≡ id_in (value_view value.now) }
{
    match value {
        Value::String(text) => Some(*text),
        Value::Number(text) => digits(text),
        _ => None,
    }
}

/// A number of digits alone.
fn digits(text: &str) -> Option<&str>
    ensures { option_map (λ id. id.now) result ≡ digits_in text.now }
{
    for byte in text.as_bytes() {
        if !byte.is_ascii_digit() {
            return None;
        }
    }
    Some(text)
}

/// The most bytes of a value that is told.
const MAX_VALUE: usize = 1000;

/// The ids in the member of an object with this name: those of a list, or one, or none where it is null or there is no
/// such member.
pub(crate) fn ids_at(
    alloc: Global,
    value: &Value<'_>,
    name: &str,
) -> Result<Vec<String>, MessageFault>
    requires { HasNumbers (value_view value.now) }
    ensures { Reads (λ ids. map string_bytes ids.items) result
        (ids_of name.now (get name.now (value_view value.now))) }
{
    let Some(member) = value.get(name) else {
        return Ok(Vec::new(alloc));
    };
    let Some(ids) = all_in(alloc, member)? else {
        return Err(MessageFault::Told(LogFaultKind::Text, no_ids(alloc, name, member)?));
    };
    Ok(ids)
}

/// The ids that a value has: those of a list, or one, or none where it is null.
fn all_in(alloc: Global, value: &Value<'_>) -> Result<Option<Vec<String>>, AllocError>
    ensures { IfOk result (λ found. option_map (λ ids. map string_bytes ids.items) found
        ≡ all_in (value_view value.now)) }
{
    match value {
        Value::Null => Ok(Some(Vec::new(alloc))),
        Value::Array(values) => ids_in(alloc, values),
        _ => one_in(alloc, value),
    }
}

/// The id that a value is, alone.
fn one_in(alloc: Global, value: &Value<'_>) -> Result<Option<Vec<String>>, AllocError>
    ensures { IfOk result (λ found. option_map (λ ids. map string_bytes ids.items) found
        ≡ one_in (id_in (value_view value.now))) }
{
    let Some(id) = id_in(value) else {
        return Ok(None);
    };
    let mut ids = Vec::new(alloc);
    ids.push(String::from_str(alloc, id)?)?;
    Ok(Some(ids))
}

/// The ids that these values are.
fn ids_in(alloc: Global, values: &[Value<'_>]) -> Result<Option<Vec<String>>, AllocError>
    ensures { IfOk result (λ found. option_map (λ ids. map string_bytes ids.items) found
        ≡ ids_in (items_view values.now)) }
{
    let mut ids = Vec::new(alloc);
    for value in values {
        let Some(id) = id_in(value) else {
            return Ok(None);
        };
        ids.push(String::from_str(alloc, id)?)?;
    }
    Ok(Some(ids))
}

/// What is said of a member with this value, which has no ids.
fn no_ids(alloc: Global, name: &str, value: &Value<'_>) -> Result<String, AllocError>
    requires { HasNumbers (value_view value.now) }
    ensures { IfOk result (λ words. string_bytes words ≡ no_ids name.now (value_view value.now)) }
{
    let json = printed(alloc, value)?;
    let shown = told(&json);
    format!(in alloc; "\"{name}\" is no id, and no list of ids: {shown}")
}

/// A value as JSON.
fn printed(alloc: Global, value: &Value<'_>) -> Result<Vec<u8>, AllocError>
    requires { HasNumbers (value_view value.now) }
    ensures json { IfOk result (λ json. json.items ≡ print (json_tokens (value_view value.now))) }
    ensures utf8 { IfOk result (λ json. IsUtf8 json.items) }
{
    let mut writer = Writer::new(Vec::new(alloc));
    writer.value(value)?;
    Ok(writer.into_inner())
}

/// What is told of a text, which may be too long.
pub(crate) fn told(text: &[u8]) -> &str
    requires { IsUtf8 text.now }
    ensures { result.now ≡ told text.now }
{
    if text.len() > MAX_VALUE {
        return "a long value";
    }
    match str::from_utf8(text) {
        Ok(text) => text,
        Err(_) => "",
    }
}
