//! The log that the records of all processes make.
ghost use Rattle.std.specs.Prelude.{◌≡◌, IfErr, ◌++◌, ◌<◌, ◌≤◌, IfOk, OnOk, ◌↔◌, IsTrue, MatchResult, flat_map, length, map, decimal, string_bytes};
ghost use Rattle.json.specs.Json.{object};
ghost use Rattle.json.specs.Tree.{HasNumbers};
ghost use Rattle.json.specs.Value.{value_view};
ghost use Rattle.std.specs.Str.{IsUtf8};
ghost use Rattle.trace_log.specs.Event.{most_bytes};
ghost use Rattle.trace_log.specs.Fields.{members_from};
ghost use Rattle.trace_log.specs.PlainEvents.{clock_object};
ghost use Rattle.trace_rewrite.specs.Lines.{event_json};
ghost use Rattle.wullaphi_record.specs.Logs.{IsWhyNoLine, IsWhyNoLines, IsWhyNoLog, Legible, json_of, AreOfOneRun, AreDistinct, IsNew, IsReadWhole, events_of, fields_of, line_of, log_of, logged_at, logged_of};
ghost use Rattle.wullaphi_record.specs.Recorded.{IsKept};

use crate::fault::RecordFault;
use crate::numbers::numbers_at;
use crate::record::Record;
use itoa::Buffer;
use json::Value;
use std::alloc::{AllocError, Global};
use trace_log::MAX_LINE;
use trace_rewrite::event_json;

/// The log of what these records hold, in the form `lines`: for each event a JSON object with the name of its record,
/// the vector clock, which counts the recorded events of each process, and the text. The events of a record stand
/// together, in their order.
///
/// `Twice`: two records are of one process or have one name. `Long`: a line would have more than 65,536 bytes, since the
/// names are long.
pub fn recorded_log(alloc: Global, records: &[Record]) -> Result<String, RecordFault>
    ensures first { MatchResult
        result
        (λ _. AreDistinct records.now)
        (IsWhyNoLog records.now) }
    ensures text { IfOk result (λ text. string_bytes text ≡ log_of records.now) }
    ensures read { IfOk result (λ text. AreOfOneRun records.now →
        IsReadWhole (string_bytes text) (events_of records.now)) }
{
    if !are_distinct(records) {
        return Err(RecordFault::Twice);
    }
    let mut log = String::new(alloc);
    for record in records {
        push_record(alloc, &mut log, records, record)?;
    }
    Ok(log)
}

/// Whether no two of the records are of one process or have one name.
fn are_distinct(records: &[Record]) -> bool
    ensures { IsTrue result ↔ AreDistinct records.now }
{
    for second in 0..records.len() {
        if !is_new(records, second) {
            return false;
        }
    }
    true
}

/// Whether no record before this place is of its process or has its name.
fn is_new(records: &[Record], second: usize) -> bool
    requires { second < length records.now }
    ensures { IsTrue result ↔ IsNew records.now second }
{
    let other = &records[second];
    for first in 0..second {
        let one = &records[first];
        if one.process == other.process || one.name == other.name {
            return false;
        }
    }
    true
}

/// Adds the lines of a record.
fn push_record(
    alloc: Global,
    log: &mut String,
    records: &[Record],
    own: &Record,
) -> Result<(), RecordFault>
    ensures added { OnOk result (string_bytes log.new
        ≡ string_bytes log.old ++ flat_map line_of (logged_of records.now own.now)) }
    ensures why { IfErr result (IsWhyNoLines records.now own.now) }
    ensures kept { IsKept own.now }
    ensures legible { OnOk result (Legible records.now own.now) }
{
    for at in 0..own.events.len() {
        let line = event_line(alloc, records, own, at)?;
        log.push_str(line.as_str())?;
        log.push('\n')?;
    }
    Ok(())
}

/// The line of an event of a record, without its LF.
fn event_line(
    alloc: Global,
    records: &[Record],
    own: &Record,
    at: usize,
) -> Result<String, RecordFault>
    requires { at < length own.now.events }
    ensures short { IfOk result (λ line. length (string_bytes line) ≤ most_bytes) }
    ensures why { IfErr result (IsWhyNoLine records.now own.now at) }
    ensures line { IfOk result (λ line. string_bytes line ≡ json_of (logged_at records.now own.now at)) }
    ensures utf8 { IfOk result (λ line. IsUtf8 (string_bytes line)) }
{
    let numbers = numbers_at(alloc, records, own, at)?;
    let digits = digits_of(alloc, &numbers)?;
    let clock = clock_value(alloc, records, &numbers, &digits)?;
    let event = own.event_at(at);
    let line = event_json(alloc, own.name.as_str(), &clock, event.text.as_str())?;
    if line.len() > MAX_LINE {
        return Err(RecordFault::Long);
    }
    match String::from_utf8(line) {
        Ok(line) => Ok(line),
        Err(_) => unreachable!(),
    }
}

/// The digits of each number.
fn digits_of(alloc: Global, numbers: &[u32]) -> Result<Vec<String>, AllocError>
    ensures { IfOk result (λ digits. map string_bytes digits.items ≡ map decimal numbers.now) }
{
    let mut digits = Vec::with_capacity(alloc, numbers.len())?;
    for number in numbers {
        let mut buffer = Buffer::new();
        digits.push(String::from_str(alloc, buffer.format(*number))?)?;
    }
    Ok(digits)
}

/// A clock as JSON: for each record its name, and a number with its digits.
fn clock_value<'d>(
    alloc: Global,
    records: &'d [Record],
    numbers: &[u32],
    digits: &'d [String],
) -> Result<Value<'d>, AllocError>
    requires count { length numbers.now ≡ length records.now }
    requires digits { map string_bytes digits.now ≡ map decimal numbers.now }
    ensures value { IfOk result (λ value.
        value_view value ≡ object (members_from (fields_of records.now numbers.now))) }
    ensures numbers { IfOk result (λ value. HasNumbers (value_view value)) }
{
    let mut members = Vec::with_capacity(alloc, records.len())?;
    for place in 0..records.len() {
        let record = &records[place];
        members.push((record.name.as_str(), Value::Number(digits[place].as_str())))?;
    }
    Ok(Value::Object(members))
}
