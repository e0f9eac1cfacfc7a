ghost use Rattle.std.specs.Prelude.{◌≡◌, ◌<◌, length, MatchBool};
ghost use Rattle.trace_runs.specs.Kept.{AllStand, CountAll, FailsAt, HaveFirsts, MissOne, OneFails, OneHasNone};
ghost use Rattle.trace_runs.specs.Kept.{StandsAt};

use crate::queue::RunQueue;

/// Whether these numbers of an event of the host at `q` count the beginnings of all other first runs.
fn count_all(numbers: &[u32], q: usize, queues: &[RunQueue]) -> bool
    ensures { MatchBool result (CountAll numbers.now q queues.now) (MissOne numbers.now q queues.now) }
{
    for p in 0..queues.len() {
        let number = numbers.get(p).copied().unwrap_or(0);
        if p != q && !queues[p].is_counted(number) {
            return false;
        }
    }
    true
}

/// Whether each host has a first run that is over, or whose last event counts the beginnings of all others. The one at
/// `failing` is asked first.
pub(crate) fn all_stand(queues: &[RunQueue], failing: &mut usize) -> bool
    ensures { MatchBool result (AllStand queues.now) (OneFails queues.now) }
{
    if *failing < queues.len() && !stands(queues, *failing) {
        return false;
    }
    for q in 0..queues.len() {
        if !stands(queues, q) {
            *failing = q;
            return false;
        }
    }
    true
}

/// Whether the host at `q` has a first run that is over, or whose last event counts the beginnings of all others.
fn stands(queues: &[RunQueue], q: usize) -> bool
    requires { q < length queues.now }
    ensures { MatchBool result (StandsAt queues.now q) (FailsAt queues.now q) }
{
    let queue = &queues[q];
    queue.has_first() && (queue.first_end().is_some() || count_all(queue.latest(), q, queues))
}

/// Whether each host has a first run.
pub(crate) fn have_firsts(queues: &[RunQueue]) -> bool
    ensures { MatchBool result (HaveFirsts queues.now) (OneHasNone queues.now) }
{
    for q in 0..queues.len() {
        if !queues[q].has_first() {
            return false;
        }
    }
    true
}
