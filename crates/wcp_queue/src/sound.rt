//! Whether parts are those of a checker.
ghost use Rattle.std.specs.Prelude.{◌≡◌, ◌↔◌, ℕ, ◌+◌, ◌*◌, ◌^◌, ◌<◌, ◌≤◌, true, false, All, IsTrue, IfSome, length};
ghost use Rattle.std.specs.Prelude.{slice_index_or, sum};
ghost use Rattle.wcp_clock.specs.Limits.{most_processes};
ghost use Rattle.wcp_model.specs.Watched.{AreSomeWatched};
ghost use Rattle.wcp_queue.specs.Elimination.{tests_each};
ghost use Rattle.wcp_queue.specs.Parts.{IsSoundSearch};

use crate::elimination::first_to_compare;
use crate::floor::Floor;
use crate::queue::Queues;
use wcp_clock::{MAX_PROCS, PerProcess};
use wcp_model::Watched;

/// How many snapshots of a process a checker takes at most: their numbers are 32 bits long.
const MOST_TAKEN: u64 = 1 << 32;

/// Whether some of `n` processes are watched, and nobody else.
pub fn are_some_watched(n: u32, watched: &Watched) -> bool
    ensures { IsTrue result ↔ AreSomeWatched n watched.now }
{
    let mut some = false;
    for p in 0..MAX_PROCS as u32 {
        if watched.has(p) {
            if p >= n {
                return false;
            }
            some = true;
        }
    }
    some
}

/// Whether no process has more snapshots than their numbers can count.
pub fn are_few_taken(taken: &[u64]) -> bool
    ensures { IsTrue result ↔ All (λ count. count ≤ 2 ^ 32) taken.now }
{
    for count in taken {
        if *count > MOST_TAKEN {
            return false;
        }
    }
    true
}

/// Whether no process has both marks.
pub fn are_apart(closed: &[bool], lost: &[bool]) -> bool
    requires { length closed.now ≡ length lost.now }
    ensures { IsTrue result ↔ ((p : ℕ) → slice_index_or lost.now p false ≡ true
        → slice_index_or closed.now p false ≡ false) }
{
    for p in 0..lost.len() {
        if lost[p] && closed[p] {
            return false;
        }
    }
    true
}

/// Whether these are the queues, the floor and the cut found of a search with so many rows, for which
/// these numbers of snapshots were taken.
pub fn is_sound_search(
    rows: u32,
    queues: &Queues,
    floor: &Floor,
    found: &Option<PerProcess<u32>>,
    taken: &[u64],
) -> bool
    requires few { rows ≤ most_processes }
    requires processes { length taken.now ≡ most_processes }
    requires few_taken { All (λ count. count ≤ 2 ^ 32) taken.now }
    ensures { IsTrue result ↔ IsSoundSearch rows queues.now floor.now found.now taken.now }
{
    if queues.len() != rows as usize || !is_cut_of(rows, found) {
        return false;
    }
    if first_to_compare(queues, floor).is_some() {
        return false;
    }
    if found.is_none() && floor.have_heads(rows as usize) {
        return false;
    }
    are_few_tests(rows, floor.tests(), queues.waiting(), count(taken))
}

/// Whether a cut that was found has so many rows.
fn is_cut_of(rows: u32, found: &Option<PerProcess<u32>>) -> bool
    ensures { IsTrue result ↔ IfSome found.now (λ intervals. length intervals ≡ rows) }
{
    match found {
        Some(intervals) => intervals.len() == rows,
        None => true,
    }
}

/// How many snapshots were taken.
fn count(taken: &[u64]) -> u64
    requires processes { length taken.now ≡ most_processes }
    requires few_taken { All (λ count. count ≤ 2 ^ 32) taken.now }
    ensures value { result ≡ sum taken.now }
    ensures few { result ≤ 16 * 2 ^ 32 }
{
    let mut all: u64 = 0;
    for count in taken {
        all += *count;
    }
    all
}

/// Whether so many component tests are at most one of each snapshot that was taken and does not wait,
/// for each row, and none where there is one row.
fn are_few_tests(rows: u32, tests: u64, waiting: u64, taken: u64) -> bool
    requires few { rows ≤ most_processes }
    requires few_taken { taken ≤ 16 * 2 ^ 32 }
    ensures { IsTrue result ↔ (tests + tests_each rows * waiting ≤ tests_each rows * taken) }
{
    let each: u128 = if rows > 1 { u128::from(rows) } else { 0 };
    u128::from(tests) + each * u128::from(waiting) <= each * u128::from(taken)
}
