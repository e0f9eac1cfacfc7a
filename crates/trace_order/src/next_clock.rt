ghost use Rattle.std.specs.Prelude.{◌≡◌, ℕ, ◌<◌, ◌≤◌, Err, IfOk, length, max, slice_index};
ghost use Rattle.trace_order.specs.Clocks.{IsNextClock, greatest, most_number, next_clock};
ghost use Rattle.trace_order.specs.declared.order_fault.GiveFault.TheVariants.{Many};

use crate::order_fault::GiveFault;
use std::alloc::{AllocError, Global};

/// The greatest number of a clock.
const MOST_NUMBER: u32 = 4_294_967_294;

/// The clock of the event of a host behind one with this clock, that receives what was sent with that one: the greatest
/// of both, and the host's own number one more.
pub(crate) fn next_clock(
    alloc: Global,
    before: &[u32],
    sender: &[u32],
    host: usize,
    line: u64,
) -> Result<Vec<u32>, GiveFault>
    ensures next { IfOk result (λ clock. IsNextClock before.now sender.now host clock.items) }
    ensures clock { IfOk result (λ clock. clock.items ≡ next_clock before.now sender.now host) }
    ensures most { IfOk result (λ clock. slice_index clock.items host ≤ most_number) }
    ensures many { (at : ℕ) → result ≡ Err (Many at)
        → (at ≡ line) × (most_number < slice_index (next_clock before.now sender.now host) host) }
{
    let mut clock = greatest(alloc, before, sender)?;
    while clock.len() <= host {
        clock.push(0)?;
    }
    if clock[host] >= MOST_NUMBER {
        return Err(GiveFault::Many(line));
    }
    clock[host] += 1;
    Ok(clock)
}

/// The greatest of both clocks, host by host.
pub(crate) fn greatest(
    alloc: Global,
    before: &[u32],
    sender: &[u32],
) -> Result<Vec<u32>, AllocError>
    ensures numbers { IfOk result (λ clock. (i : ℕ) →
        slice_index clock.items i ≡ max (slice_index before.now i) (slice_index sender.now i)) }
    ensures hosts { IfOk result (λ clock. length clock.items ≡ max (length before.now) (length sender.now)) }
    ensures clock { IfOk result (λ clock. clock.items ≡ greatest before.now sender.now) }
{
    let count = before.len().max(sender.len());
    let mut clock = Vec::with_capacity(alloc, count)?;
    for i in 0..count {
        clock.push(number_at(before, i).max(number_at(sender, i)))?;
    }
    Ok(clock)
}

/// The number of a host in a clock.
fn number_at(clock: &[u32], host: usize) -> u32
    ensures { result ≡ slice_index clock.now host }
{
    if host < clock.len() { clock[host] } else { 0 }
}
