ghost use Rattle.std.specs.Prelude.{◌≡◌, ℕ, ◌<◌, ◌↔◌, true, List, ◌++◌, length, slice_index, IsTrue};
ghost use Rattle.std.specs.FinSet as set;
ghost use Rattle.wcp_clock.specs.Limits.{most_processes};
ghost use Rattle.wcp_lane.specs.Message.{AllMayFollow};
ghost use Rattle.wcp_lane.specs.Passes.{Numbers};
ghost use Rattle.wcp_lane.specs.Ends.{AreCounts, IsSpanOf};

use crate::members::Members;
use crate::message::Origin;
use wcp_clock::MAX_PROCS;

/// How many items of each number were put or taken. The place of an item is a u64, so a count may be more
/// than that.
pub type Counts = [u128; MAX_PROCS];

/// The one origin of the items of a message, how many of it stand before them, and how many they are.
#[derive(Clone, Copy)]
pub struct Span {
    origin: u32,
    place: u64,
    items: u64,
}

impl Span {
    pub fn of<M: Origin>(message: &M) -> Span
        ensures { IsSpanOf M.origin M.place (M.items message.now) result }
    {
        Span {
            origin: message.origin(),
            place: message.place(),
            items: message.count(),
        }
    }
}

/// Counts the items of a message that are the next ones of their origin.
pub fn count_up<M: Origin>(counts: &mut Counts, span: &Span)
    requires { span.now.origin < most_processes }
    ensures { (items before : List M.Item) (numbers : Numbers) → IsSpanOf M.origin M.place items span.now
        → AreCounts M.origin counts.old before → AllMayFollow M.origin M.place M.last numbers before items
        → AreCounts M.origin counts.new (before ++ items) }
{
    counts[span.origin as usize] = u128::from(span.place) + u128::from(span.items);
}

/// Whether the counts of all these members are the same.
pub fn agree(members: &Members, put: &Counts, taken: &Counts) -> bool
    ensures { IsTrue result
        ↔ ((p : ℕ) → p < most_processes → set.contains members.now p ≡ true
        → slice_index put.now p ≡ slice_index taken.now p) }
{
    for p in 0..MAX_PROCS {
        if members.has(p as u32) && put[p] != taken[p] {
            return false;
        }
    }
    true
}
