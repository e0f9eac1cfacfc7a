//! The lines that say the events with their clocks.
ghost use Rattle.std.specs.Prelude.{◌≡◌, ◌++◌, ◌<◌, IfOk, OnOk, map, decimal, string_bytes};
ghost use Rattle.json.specs.Tree.{HasNumbers};
ghost use Rattle.json.specs.Value.{value_view};
ghost use Rattle.trace_order.specs.State.{names_in, seen_ordered};
ghost use Rattle.trace_messages.specs.Printed.{clock_json, ordered_line};

use itoa::Buffer;
use json::Value;
use std::alloc::{AllocError, Global};
use trace_order::{MessageOrder, OrderedEvent};
use trace_rewrite::push_event;

/// Adds the line that says an event that is given on.
pub(crate) fn push_ordered(
    alloc: Global,
    order: &MessageOrder,
    one: &OrderedEvent,
    out: &mut Vec<u8>,
) -> Result<(), AllocError>
    ensures { OnOk result (out.new.items
        ≡ out.old.items ++ ordered_line (names_in order.now.hosts.items) (seen_ordered one.now)) }
{
    let digits = digits_of(alloc, &one.clock)?;
    let clock = clock_value(alloc, order, &one.clock, &digits)?;
    let event = &one.event;
    push_event(
        alloc,
        out,
        event.line(),
        order.name(event.host()),
        &clock,
        event.text(),
    )
}

/// The digits of each number of a clock.
fn digits_of(alloc: Global, clock: &[u32]) -> Result<Vec<String>, AllocError>
    ensures { IfOk result (λ digits. map string_bytes digits.items ≡ map decimal clock.now) }
{
    let mut digits = Vec::with_capacity(alloc, clock.len())?;
    for number in clock {
        let mut buffer = Buffer::new();
        digits.push(String::from_str(alloc, buffer.format(*number))?)?;
    }
    Ok(digits)
}

/// A clock as JSON, by the digits of its numbers.
fn clock_value<'d>(
    alloc: Global,
    order: &'d MessageOrder,
    clock: &[u32],
    digits: &'d [String],
) -> Result<Value<'d>, AllocError>
    requires { map string_bytes digits.now ≡ map decimal clock.now }
    ensures value { IfOk result (λ value.
        value_view value ≡ clock_json (names_in order.now.hosts.items) clock.now) }
    ensures numbers { IfOk result (λ value. HasNumbers (value_view value)) }
{
    let mut members = Vec::with_capacity(alloc, clock.len())?;
    for host in 0..clock.len() {
        if clock[host] > 0 {
            members.push((order.name(host), Value::Number(digits[host].as_str())))?;
        }
    }
    Ok(Value::Object(members))
}
