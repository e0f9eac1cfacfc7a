ghost use Rattle.std.specs.Prelude.{◌≡◌, option_map};
ghost use Rattle.json.specs.Value.{members_view, value_view};
ghost use Rattle.trace_log.specs.Judgement.{Gives};
ghost use Rattle.trace_log.specs.Clock.{clock_of, member_in, number_in};
ghost use Rattle.trace_log.specs.Event.{clock_in};
ghost use Rattle.trace_log.specs.Views.{seen_member, seen_clock};

use crate::event::Member;
use crate::fault::{LineFault, LogFaultKind};
use crate::number::number;
use json::Value;
use std::alloc::Global;

/// The clock that a value is.
pub(crate) fn clock_in(alloc: Global, value: Option<&Value<'_>>) -> Result<Vec<Member>, LineFault>
    ensures { Gives (λ clock. seen_clock clock.items) result
        (clock_in (option_map (λ value. value_view value.now) value.entry)) }
{
    match value {
        Some(Value::Object(members)) => clock_of(alloc, members),
        _ => Err(LineFault::Has(LogFaultKind::Clock)),
    }
}

/// The clock that the members of an object are.
fn clock_of(alloc: Global, members: &[(&str, Value<'_>)]) -> Result<Vec<Member>, LineFault>
    ensures { Gives (λ clock. seen_clock clock.items) result
        (clock_of (members_view members.now)) }
{
    let mut clock = Vec::with_capacity(alloc, members.len())?;
    for member in members {
        let one = member_in(alloc, member.0, &member.1)?;
        clock.push(one)?;
    }
    Ok(clock)
}

/// The member of a clock that a member of an object is.
fn member_in(alloc: Global, name: &str, value: &Value<'_>) -> Result<Member, LineFault>
    ensures { Gives seen_member result (member_in name.now (value_view value.now)) }
{
    let number = number_in(value).ok_or(LogFaultKind::Clock)?;
    let name = String::from_str(alloc, name)?;
    Ok(Member { name, number })
}

/// The number that a value is.
pub(crate) fn number_in(value: &Value<'_>) -> Option<u32>
    ensures { result ≡ number_in (value_view value.now) }
{
    number(value.as_number()?)
}
