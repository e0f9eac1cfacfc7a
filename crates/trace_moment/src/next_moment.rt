ghost use Rattle.std.specs.Prelude.{◌≡◌, ℕ, List, length, map};
ghost use Rattle.trace_log.specs.Log.{Logged};
ghost use Rattle.trace_moment.specs.Moment.{Taken, IsEarliest};
ghost use Rattle.trace_moment.specs.Behind.{behind};
ghost use Rattle.trace_moment.specs.Kept.{watched_in, without_kept, KeepFirstsWhere};
ghost use Rattle.trace_moment.specs.Keeping.{KeepAll, KeepAllTaken};

use crate::elimination::{all_stand, eliminate, raise_all};
use crate::queue::EventQueue;

/// Drops the first candidates, the events of the moment, and eliminates among those behind them. Answers whether the
/// first candidates are now known to be the next moment.
pub(crate) fn go_behind(queues: &mut [EventQueue], floors: &mut [u32]) -> bool
    requires in_step { length floors.old ≡ length queues.old }
    ensures behind { (taken : List Taken) (moment : ℕ → Logged) → KeepAll taken queues.old floors.old →
        IsEarliest (watched_in queues.old) taken moment →
        KeepAllTaken (behind (watched_in queues.old) moment taken) queues.new floors.new result }
    ensures firsts { KeepFirstsWhere result queues.new }
    ensures watched { watched_in queues.new ≡ watched_in queues.old }
{
    drop_heads(queues);
    raise_all(floors, queues);
    eliminate(queues, floors);
    all_stand(queues, floors)
}

/// Drops the first candidate of each host.
fn drop_heads(queues: &mut [EventQueue])
    ensures { queues.new ≡ map without_kept queues.old }
{
    for q in 0..queues.len() {
        queues[q].drop_head();
    }
}
