ghost use Rattle.std.specs.Prelude.{◌≡◌, ◌+◌, ◌*◌, ◌^◌, ◌<◌, ◌≤◌, false, length};
ghost use Rattle.std.specs.Prelude.{None, IfNone, IfSome, OnOk, OnErr, MatchOption};
ghost use Rattle.wcp_clock.specs.Limits.{most_processes};
ghost use Rattle.wcp_queue.specs.Floor.{has_head, HaveHeads, IsCutOfHeads};
ghost use Rattle.wcp_queue.specs.Elimination.{queue_of, waiting_in, tests_each, AreStable, AreStableBut};
ghost use Rattle.wcp_queue.specs.Elimination.{Compares, Eliminates, AddsCandidate};

use crate::floor::Floor;
use crate::queue::Queues;
use std::alloc::AllocError;
use wcp_clock::{Clock, PerProcess};

/// Adds a snapshot of `p`, one of the watched processes by rising number, and eliminates heads. Finds the cut of the
/// heads that are left, if every process has one. `Err` where memory runs out.
#[inline(always)]
pub fn add_candidate(
    queues: &mut Queues,
    p: usize,
    clock: &Clock,
    floor: &mut Floor,
    found: &mut Option<PerProcess<u32>>,
) -> Result<(), AllocError>
    requires few { length queues.old ≤ most_processes }
    requires within { p < length queues.old }
    requires stable { AreStable queues.old floor.old }
    requires waiting { HaveHeads (length queues.old) floor.old → ⊥ }
    requires none { found.old ≡ None }
    requires room { floor.old.tests + tests_each (length queues.old) * (waiting_in queues.old + 1) < 2 ^ 64 }
    ensures rows { length queues.new ≡ length queues.old }
    ensures stable { AreStable queues.new floor.new }
    ensures left { OnOk result (AddsCandidate p clock.now queues.old floor.old queues.new floor.new) }
    ensures cut { MatchOption
        found.new
        (HaveHeads (length queues.old) floor.new → ⊥)
        (IsCutOfHeads (length queues.old) floor.new) }
    ensures tests { floor.new.tests + tests_each (length queues.old) * waiting_in queues.new
        ≤ floor.old.tests + tests_each (length queues.old) * (waiting_in queues.old + 1) }
    ensures refused { OnErr result (queues.new ≡ queues.old) }
    ensures no_test { OnErr result (floor.new ≡ floor.old) }
    ensures not_found { OnErr result (found.new ≡ found.old) }
{
    if floor.has_head(p) {
        queues.push(p, clock)?;
        return Ok(());
    }
    let n = queues.len();
    if compare(queues, p, clock, floor) {
        eliminate(queues, floor);
    }
    find_cut(floor, n, found);
    Ok(())
}

/// Finds the cut of the heads, if each of `n` processes has one.
fn find_cut(floor: &Floor, n: usize, found: &mut Option<PerProcess<u32>>)
    requires some { 0 < n }
    requires few { n ≤ most_processes }
    requires none { found.old ≡ None }
    ensures { MatchOption found.new (HaveHeads n floor.now → ⊥) (IsCutOfHeads n floor.now) }
{
    if floor.have_heads(n) {
        *found = Some(floor.cut(n));
    }
}

/// Goes on until each process has a head or none of its snapshots waits.
fn eliminate(queues: &mut Queues, floor: &mut Floor)
    requires few { length queues.old ≤ most_processes }
    requires room { floor.old.tests + tests_each (length queues.old) * waiting_in queues.old < 2 ^ 64 }
    ensures rows { length queues.new ≡ length queues.old }
    ensures stable { AreStable queues.new floor.new }
    ensures left { Eliminates queues.old floor.old queues.new floor.new }
    ensures tests { floor.new.tests + tests_each (length queues.old) * waiting_in queues.new
        ≤ floor.old.tests + tests_each (length queues.old) * waiting_in queues.old }
{
    while let Some(p) = first_to_compare(queues, floor) {
        compare_next(queues, p, floor);
    }
}

/// The first process that has no head while a snapshot of it waits.
pub fn first_to_compare(queues: &Queues, floor: &Floor) -> Option<usize>
    requires { length queues.now ≤ most_processes }
    ensures none { IfNone result (AreStable queues.now floor.now) }
    ensures within { IfSome result (λ p. p < length queues.now) }
    ensures no_head { IfSome result (λ p. has_head floor.now p ≡ false) }
    ensures some { IfSome result (λ p. 0 < length (queue_of queues.now p)) }
{
    for p in 0..queues.len() {
        if !floor.has_head(p) && !queues.is_empty(p) {
            return Some(p);
        }
    }
    None
}

/// Compares the oldest waiting snapshot of `p` with the floor.
fn compare_next(queues: &mut Queues, p: usize, floor: &mut Floor)
    requires few { length queues.old ≤ most_processes }
    requires within { p < length queues.old }
    requires no_head { has_head floor.old p ≡ false }
    requires some { 0 < length (queue_of queues.old p) }
    requires room { floor.old.tests + tests_each (length queues.old) < 2 ^ 64 }
    ensures rows { length queues.new ≡ length queues.old }
    ensures left { Eliminates queues.old floor.old queues.new floor.new }
    ensures fewer { waiting_in queues.new + 1 ≡ waiting_in queues.old }
    ensures tests { floor.new.tests ≤ floor.old.tests + tests_each (length queues.old) }
{
    let clock = queues.pop(p);
    compare(queues, p, &clock, floor);
}

/// Compares a snapshot of `p` with the floor: it is dropped, or becomes the head and raises the floor,
/// which drops the heads that precede it. Where the answer is false no snapshot waits of a process
/// without a head then.
fn compare(queues: &Queues, p: usize, clock: &Clock, floor: &mut Floor) -> bool
    requires few { length queues.now ≤ most_processes }
    requires within { p < length queues.now }
    requires no_head { has_head floor.old p ≡ false }
    requires room { floor.old.tests + tests_each (length queues.now) < 2 ^ 64 }
    ensures left { Compares p clock.now queues.now floor.old floor.new }
    ensures tests { floor.new.tests ≤ floor.old.tests + tests_each (length queues.now) }
    ensures covered { result ≡ false → AreStableBut p queues.now floor.old → AreStable queues.now floor.new }
{
    let n = queues.len();
    if floor.is_above(n, p, clock.get(p as u32)) {
        return !queues.is_empty(p);
    }
    floor.set_head(n, p, clock);
    !queues.are_empty()
}
