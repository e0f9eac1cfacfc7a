ghost use Rattle.std.specs.Prelude.{◌≡◌, ◌<◌, ℕ, List, length, false, true, slice_index_or, IfSome, IfNone, MatchBool};
ghost use Rattle.trace_moment.specs.Moment.{Taken};
ghost use Rattle.trace_runs.specs.Kept.{watched_in, IsPassed, IsPassedBy, IsSettled, IsSettledWith, NoneIsPassed};
ghost use Rattle.trace_runs.specs.Kept.{NoneIsPassedBut};
ghost use Rattle.trace_runs.specs.Keeping.{KeepWaiting};

use crate::queue::RunQueue;

/// Drops first runs that are over too early, until none is. Only the first run of the host at `place` has changed since
/// none was. The marks are of the hosts that are still to be compared with the others.
pub(crate) fn eliminate(queues: &mut [RunQueue], touched: &mut [bool], place: usize)
    requires within { place < length queues.old }
    requires in_step { length touched.old ≡ length queues.old }
    ensures waiting { (taken : List Taken) → KeepWaiting taken queues.old → KeepWaiting taken queues.new }
    ensures settled { NoneIsPassedBut place queues.old → NoneIsPassed queues.new }
    ensures watched { watched_in queues.new ≡ watched_in queues.old }
{
    touched[place] = true;
    while let Some(host) = first_touched(touched) {
        match first_passed(queues, host) {
            Some(passed) => {
                queues[passed].drop_first();
                touched[passed] = true;
            }
            None => touched[host] = false,
        }
    }
}

/// The first host that is marked.
fn first_touched(touched: &[bool]) -> Option<usize>
    ensures within { IfSome result (λ host. host < length touched.now) }
    ensures touched { IfSome result (λ host. slice_index_or touched.now host false ≡ true) }
    ensures none { IfNone result
        ((host : ℕ) → host < length touched.now → slice_index_or touched.now host false ≡ false) }
{
    for host in 0..touched.len() {
        if touched[host] {
            return Some(host);
        }
    }
    None
}

/// This host or another one, the first run of which is over too early for that of the other of the two.
fn first_passed(queues: &[RunQueue], host: usize) -> Option<usize>
    requires { host < length queues.now }
    ensures none { IfNone result (IsSettledWith host queues.now) }
    ensures within { IfSome result (λ passed. passed < length queues.now) }
    ensures passed { IfSome result (λ passed. IsPassed passed queues.now) }
{
    for other in 0..queues.len() {
        if other != host {
            if is_passed_by(queues, host, other) {
                return Some(host);
            }
            if is_passed_by(queues, other, host) {
                return Some(other);
            }
        }
    }
    None
}

/// Whether the first run of the host at `q` is over at an event that doesn't count the beginning of that at `p`.
fn is_passed_by(queues: &[RunQueue], q: usize, p: usize) -> bool
    requires q_within { q < length queues.now }
    requires p_within { p < length queues.now }
    ensures { MatchBool result (IsPassedBy queues.now q p) (IsSettled queues.now q p) }
{
    match queues[q].first_end() {
        Some(numbers) => !queues[p].is_counted(numbers.get(p).copied().unwrap_or(0)),
        None => false,
    }
}
