ghost use Rattle.std.specs.Prelude.{◌≡◌, ℕ, List, IfOk, IsTrue, false};
ghost use Rattle.trace_log.specs.Judgement.{Gives};
ghost use Rattle.trace_log.specs.Clock.{number_of};
ghost use Rattle.trace_log.specs.Order.{falls, follows};
ghost use Rattle.trace_log.specs.Views.{seen_clock};
ghost use Rattle.trace_log.specs.Kept.{number_kept};

use crate::event::{Member, has_name, number_of};
use crate::fault::{LineFault, LogFaultKind, ask};
use std::alloc::{AllocError, Global};
use std::collections::HashMap;

/// Whether a clock of a host may follow its earlier one.
pub(crate) fn judge(
    alloc: Global,
    host: &str,
    earlier: &[Member],
    clock: &[Member],
) -> Result<(), LineFault>
    ensures { Gives (λ _. tt) result (follows host.now (seen_clock earlier.now) (seen_clock clock.now)) }
{
    ask(
        number_of(host, earlier) < number_of(host, clock),
        LogFaultKind::Order,
    )?;
    let falls = falls(alloc, earlier, clock)?;
    ask(!falls, LogFaultKind::Falls)?;
    Ok(())
}

/// Whether a number of the earlier clock is greater than in the later one.
fn falls(alloc: Global, earlier: &[Member], later: &[Member]) -> Result<bool, AllocError>
    ensures { IfOk result (λ falls_there. falls_there ≡ falls (seen_clock earlier.now) (seen_clock later.now)) }
{
    if stands_in_place(earlier, later) {
        return Ok(false);
    }
    let numbers = numbers_of(alloc, later)?;
    for one in earlier {
        if number_kept(&numbers, one.name.as_str()) < one.number {
            return Ok(true);
        }
    }
    Ok(false)
}

/// Whether each name of the earlier clock stands at the same place of the later one, with a number no lower.
fn stands_in_place(earlier: &[Member], later: &[Member]) -> bool
    ensures { IsTrue result → falls (seen_clock earlier.now) (seen_clock later.now) ≡ false }
{
    if earlier.len() > later.len() {
        return false;
    }
    for i in 0..earlier.len() {
        let one = &earlier[i];
        let next = &later[i];
        if next.number < one.number || !has_name(next, one.name.as_str()) {
            return false;
        }
    }
    true
}

/// The numbers of a clock, by name.
fn numbers_of(alloc: Global, clock: &[Member]) -> Result<HashMap<&str, u32>, AllocError>
    ensures { IfOk result (λ numbers. (name : List ℕ) →
        number_kept numbers name ≡ number_of name (seen_clock clock.now)) }
{
    let mut numbers = HashMap::new(alloc);
    for one in clock {
        let name = one.name.as_str();
        let number = number_kept(&numbers, name);
        numbers.insert(name, one.number.max(number))?;
    }
    Ok(numbers)
}

/// The number that is kept of a name, and 0 where none is.
fn number_kept(numbers: &HashMap<&str, u32>, name: &str) -> u32
    ensures { result ≡ number_kept numbers.now name.now }
{
    numbers.get(name).copied().unwrap_or(0)
}
