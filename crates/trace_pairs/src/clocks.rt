//! Clocks that are kept.
ghost use Rattle.std.specs.Prelude.{◌≡◌, IfOk, IsTrue, OnOk, string_bytes};
ghost use Rattle.trace_log.specs.Names.{names_in};
ghost use Rattle.trace_log.specs.Seen.{seen_clock};

use std::alloc::{AllocError, Global};
use trace_log::Member;

/// A clock of its own with these members.
pub(crate) fn clock_of(alloc: Global, clock: &[Member]) -> Result<Vec<Member>, AllocError>
    ensures { IfOk result (λ members. seen_clock members.items ≡ seen_clock clock.now) }
{
    let mut members = Vec::with_capacity(alloc, clock.len())?;
    for member in clock {
        let name = member.name.clone()?;
        let number = member.number;
        members.push(Member { name, number })?;
    }
    Ok(members)
}

/// Puts a clock into the place of another one. Where the names are the same, as they mostly are, it wants no memory.
pub(crate) fn put_clock(
    alloc: Global,
    clock: &mut Vec<Member>,
    next: &[Member],
) -> Result<(), AllocError>
    ensures { OnOk result (seen_clock clock.new.items ≡ seen_clock next.now) }
{
    if have_names(clock, next) {
        put_numbers(clock, next);
        return Ok(());
    }
    *clock = clock_of(alloc, next)?;
    Ok(())
}

/// Whether two clocks have the same names, in the same order.
fn have_names(clock: &[Member], next: &[Member]) -> bool
    ensures { IsTrue result → names_in (seen_clock clock.now) ≡ names_in (seen_clock next.now) }
{
    if clock.len() != next.len() {
        return false;
    }
    for place in 0..clock.len() {
        if !has_name_of(&clock[place], &next[place]) {
            return false;
        }
    }
    true
}

/// Whether two members have one name.
fn has_name_of(one: &Member, other: &Member) -> bool
    ensures { IsTrue result → string_bytes one.now.name ≡ string_bytes other.now.name }
{
    one.name.as_str() == other.name.as_str()
}

/// Puts the numbers of a clock into the place of those of one with the same names.
fn put_numbers(clock: &mut [Member], next: &[Member])
    requires { names_in (seen_clock clock.old) ≡ names_in (seen_clock next.now) }
    ensures { seen_clock clock.new ≡ seen_clock next.now }
{
    for place in 0..clock.len() {
        clock[place].number = next[place].number;
    }
}
