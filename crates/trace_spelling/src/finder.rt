ghost use Rattle.std.specs.Prelude.{◌≡◌, ◌++◌, IfOk};
ghost use Rattle.std.specs.Option.{is_some};
ghost use Rattle.json.specs.Tree.{HasNumbers};
ghost use Rattle.json.specs.Value.{value_view};
ghost use Rattle.regex.specs.Strings.{matcher_pattern};
ghost use Rattle.trace_spelling.specs.Fields.{spelled_along, spelled_in};
ghost use Rattle.trace_spelling.specs.Parsers.{spelled_by};
ghost use Rattle.trace_spelling.specs.Ways.{seen_fields};
ghost use Rattle.trace_spelling.specs.Windows.{event_said, seen_waits};

use crate::clock::push_with_text;
use crate::fields::{Fields, MemberReader};
use crate::parser::{EventMatcher, parts_in};
use crate::waiting::{WaitingLine, number_at};
use json::{Error, Value};
use std::alloc::{AllocError, Global};
use trace_rewrite::push_event;

/// Finds the event in a text.
#[derive(Drop)]
pub(crate) enum Finder<'s> {
    /// By the groups of an expression.
    Parser(EventMatcher<'s>),
    /// By the members of a JSON object.
    Fields(MemberReader<'s>),
}

impl Finder<'_> {
    ghost use Rattle.trace_spelling.specs.Ways.{seen_way, spelled};

    /// Adds the line of the event that the text of these lines spells. `false`: it spells none.
    #[tactic(auto, using(crate::proofs::Found::of_text, crate::proofs::Found::of_no_text))]
    pub fn say(
        &mut self,
        alloc: Global,
        text: &[u8],
        waits: &[WaitingLine],
        out: &mut Vec<u8>,
    ) -> Result<bool, AllocError>
        ensures some { IfOk result (λ said. said ≡ is_some (spelled (seen_way self.old) text.now)) }
        ensures line { IfOk result (λ _. out.new.items
            ≡ out.old.items ++ event_said (seen_waits waits.now) (spelled (seen_way self.old) text.now)) }
        ensures same { seen_way self.new ≡ seen_way self.old }
    {
        let Ok(text) = str::from_utf8(text) else {
            return Ok(false);
        };
        match self {
            Finder::Parser(events) => say_matched(alloc, events, text, waits, out),
            Finder::Fields(members) => say_members(alloc, members, text, waits, out),
        }
    }
}

/// Adds the line of the event that the first match of an expression spells.
fn say_matched(
    alloc: Global,
    events: &mut EventMatcher<'_>,
    text: &str,
    waits: &[WaitingLine],
    out: &mut Vec<u8>,
) -> Result<bool, AllocError>
    ensures some { IfOk result (λ said.
        said ≡ is_some (spelled_by (matcher_pattern events.old.matcher) events.old.groups text.now)) }
    ensures line { IfOk result (λ _. out.new.items ≡ out.old.items ++ event_said (seen_waits waits.now)
        (spelled_by (matcher_pattern events.old.matcher) events.old.groups text.now)) }
    ensures same { matcher_pattern events.new.matcher ≡ matcher_pattern events.old.matcher }
    ensures groups { events.new.groups ≡ events.old.groups }
{
    let Some(parts) = parts_in(&mut events.matcher, events.groups, text) else {
        return Ok(false);
    };
    let number = number_at(waits, parts.behind);
    push_with_text(alloc, out, number, parts.host, parts.clock, parts.text)?;
    Ok(true)
}

/// Adds the line of the event that the members of a JSON object spell.
fn say_members(
    alloc: Global,
    members: &mut MemberReader<'_>,
    text: &str,
    waits: &[WaitingLine],
    out: &mut Vec<u8>,
) -> Result<bool, AllocError>
    ensures some { IfOk result (λ said. said ≡ is_some (spelled_in (seen_fields members.old.fields.now) text.now)) }
    ensures line { IfOk result (λ _. out.new.items ≡ out.old.items
        ++ event_said (seen_waits waits.now) (spelled_in (seen_fields members.old.fields.now) text.now)) }
    ensures same { members.new.fields ≡ members.old.fields }
{
    match Value::parse(alloc, text, &mut members.scratch) {
        Ok(value) => say_object(alloc, members.fields, &value, waits, out),
        Err(Error::OutOfMemory) => Err(AllocError),
        Err(_) => Ok(false),
    }
}

/// The same of a value.
fn say_object(
    alloc: Global,
    fields: &Fields,
    value: &Value<'_>,
    waits: &[WaitingLine],
    out: &mut Vec<u8>,
) -> Result<bool, AllocError>
    requires { HasNumbers (value_view value.now) }
    ensures some { IfOk result (λ said.
        said ≡ is_some (spelled_along (seen_fields fields.now) (value_view value.now))) }
    ensures line { IfOk result (λ _. out.new.items ≡ out.old.items
        ++ event_said (seen_waits waits.now) (spelled_along (seen_fields fields.now) (value_view value.now))) }
{
    let Some(host) = fields.host.text_in(value) else {
        return Ok(false);
    };
    let Some(clock) = fields.clock.value_in(value) else {
        return Ok(false);
    };
    let Some(text) = fields.event.text_in(value) else {
        return Ok(false);
    };
    let number = number_at(waits, 0);
    match clock {
        Value::String(spelled) => push_with_text(alloc, out, number, host, spelled, text)?,
        _ => push_event(alloc, out, number, host, clock, text)?,
    }
    Ok(true)
}
