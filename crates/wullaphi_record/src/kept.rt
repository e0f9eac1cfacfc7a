//! The events that a record keeps.
ghost use Rattle.std.specs.Prelude.{◌≡◌, ◌+◌, ◌<◌, ◌++◌, ◌∷◌, [], drop, length, map};
ghost use Rattle.std.specs.VecDeque.{deque_capacity, deque_len};
ghost use Rattle.wullaphi_record.specs.Recorded.{AreInOrder, NoneFalls, last_clock};
ghost use Rattle.wullaphi_record.specs.Views.{seen_event, seen_events};

use crate::recorded::RecordedEvent;
use std::collections::VecDeque;

/// Puts an event behind the last one, where there is room.
pub(crate) fn put_last(events: &mut VecDeque<RecordedEvent>, event: RecordedEvent)
    requires room { deque_len events.old < deque_capacity events.old }
    ensures put { seen_events events.new ≡ seen_events events.old ++ seen_event event ∷ [] }
    ensures count { length events.new.items ≡ length events.old.items + 1 }
    ensures in_order { AreInOrder (seen_events events.old) →
        NoneFalls (last_clock (seen_events events.old)) event.clock → AreInOrder (seen_events events.new) }
{
    events.push_back_reserved(event);
}

/// Gives up the first event.
pub(crate) fn give_up_first(events: &mut VecDeque<RecordedEvent>)
    requires some { 0 < length events.old.items }
    ensures rest { seen_events events.new ≡ drop 1 (seen_events events.old) }
    ensures count { length events.new.items + 1 ≡ length events.old.items }
    ensures room { deque_len events.new < deque_capacity events.new }
    ensures in_order { AreInOrder (seen_events events.old) → AreInOrder (seen_events events.new) }
    ensures follows { (clock : _) → NoneFalls (last_clock (seen_events events.old)) clock →
        NoneFalls (last_clock (seen_events events.new)) clock }
{
    let _first = events.pop_front();
}
