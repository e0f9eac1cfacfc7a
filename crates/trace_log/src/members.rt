//! The members of an object, read against the names of the clock before.
ghost use Rattle.std.specs.Prelude.{IsTrue};
ghost use Rattle.json.specs.Value.{members_view};
ghost use Rattle.trace_log.specs.Clock.{clock_of};
ghost use Rattle.trace_log.specs.Look.{NextNumbers};
ghost use Rattle.trace_log.specs.Views.{seen_clock};

use crate::clock::number_in;
use crate::event::{Member, has_name};
use json::Value;

/// Whether the members of an object are the clock before with other numbers, none of which is lower. They are put into
/// `next`.
pub(crate) fn look_at(members: &[(&str, Value<'_>)], before: &[Member], next: &mut [u32]) -> bool
    ensures { IsTrue result → NextNumbers (clock_of (members_view members.now)) (seen_clock before.now) next.new }
{
    if members.len() != before.len() || next.len() < before.len() {
        return false;
    }
    for place in 0..before.len() {
        let member = &members[place];
        let one = &before[place];
        if !has_name(one, member.0) {
            return false;
        }
        let Some(number) = number_in(&member.1) else {
            return false;
        };
        if number < one.number {
            return false;
        }
        next[place] = number;
    }
    true
}
