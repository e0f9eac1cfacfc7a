//! How far clocks reach.
ghost use Rattle.std.specs.Prelude.{◌≡◌, ℕ, List, map, max, IfOk, IfSome, None, OnOk};
ghost use Rattle.trace_log.specs.Clock.{number_of};
ghost use Rattle.trace_log.specs.Kept.{number_kept};
ghost use Rattle.trace_log.specs.Views.{seen_clock};
ghost use Rattle.trace_schedule.specs.Schedule.{Fits, IsCountedEarly};

use crate::recorded_event::RecordedEvent;
use std::alloc::{AllocError, Global};
use std::collections::HashMap;
use trace_log::Member;

/// The line of the first event that one before it counts, or its own clock doesn't, if there is one.
pub(crate) fn first_counted(
    alloc: Global,
    order: &[&RecordedEvent],
) -> Result<Option<u64>, AllocError>
    ensures none { IfOk result (λ found. found ≡ None → Fits (map (λ one. one.now) order.now)) }
    ensures some { IfOk result (λ found. IfSome found (λ line.
        (place : ℕ) × IsCountedEarly (map (λ one. one.now) order.now) place line)) }
{
    let mut reached = HashMap::new(alloc);
    for event in order {
        if event.own() <= reached_of(&reached, event.host()) {
            return Ok(Some(event.line()));
        }
        reach(&mut reached, event.clock())?;
    }
    Ok(None)
}

/// The greatest number that these clocks give a host, and 0 where none does.
fn reached_of(reached: &HashMap<&str, u32>, host: &str) -> u32
    ensures { result ≡ number_kept reached.now host.now }
{
    reached.get(host).copied().unwrap_or(0)
}

/// Reaches as far as this clock too.
fn reach<'e>(reached: &mut HashMap<&'e str, u32>, clock: &'e [Member]) -> Result<(), AllocError>
    ensures { OnOk result ((host : List ℕ) →
        number_kept reached.new host
        ≡ max (number_kept reached.old host) (number_of host (seen_clock clock.now))) }
{
    for member in clock {
        let name = member.name.as_str();
        let number = reached_of(reached, name);
        reached.insert(name, member.number.max(number))?;
    }
    Ok(())
}
