//! The events before a cut.
ghost use Rattle.std.specs.Prelude.{◌≡◌, ◌+◌, ◌<◌, ◌≤◌, ◌↔◌, false, length, replicate, Some, All, IfOk, IsTrue};
ghost use Rattle.wcp_clock.specs.Limits.{most_processes};
ghost use Rattle.draw_layout.specs.Events.{AreIntervals};
ghost use Rattle.draw_layout.specs.Halves.{AreHalves, AreMarked, HasLaterMember, IsCutOrder, MaySplit, MemberLaw};
ghost use Rattle.draw_layout.specs.Messages.{AreSends};
ghost use Rattle.wcp_model.specs.WorkloadComputation.{IsFitOrder, IsWithin};

use crate::events::is_event;
use std::alloc::{AllocError, Global};
use wcp_clock::MAX_PROCS;
use wcp_model::{GlobalCut, Task};

/// The law of members: of a process that a satisfying cut names, the events before the cut are those
/// of the intervals below its member.
pub fn member_law()
    ensures { MemberLaw }
{}

/// For each communication event of a fit order of `n` processes whether it stands before the cut. The
/// order comes with the interval of each task and the place of the send of each receive. `Err` where
/// memory runs out.
pub(crate) fn halves(
    alloc: Global,
    n: u32,
    order: &[Task],
    intervals: &[u32],
    sent: &[usize],
    cut: &Option<GlobalCut>,
) -> Result<Vec<bool>, AllocError>
    requires few { n ≤ most_processes }
    requires within { All (IsWithin n) order.now }
    requires fit { IsFitOrder order.now order.now }
    requires intervals { AreIntervals n order.now intervals.now }
    requires sends { AreSends order.now sent.now }
    requires cut { MaySplit n order.now cut.now }
    ensures { IfOk result (λ halves. AreHalves n order.now cut.now halves.items) }
{
    match cut {
        None => vec![in alloc; true; order.len()],
        Some(cut) => {
            let mut halves = vec![in alloc; false; order.len()]?;
            mark_past(order, intervals, sent, cut, &mut halves);
            Ok(halves)
        }
    }
}

/// Marks the events in the past of the cut, where nothing is marked: it takes one look at each, from the
/// last one to the first.
fn mark_past(
    order: &[Task],
    intervals: &[u32],
    sent: &[usize],
    cut: &GlobalCut,
    halves: &mut [bool],
)
    requires cut { IsCutOrder (length cut.now) order.now intervals.now sent.now cut.now }
    requires none { halves.old ≡ replicate (length order.now) false }
    ensures { AreHalves (length cut.now) order.now (Some cut.now) halves.new }
{
    let mut later = [false; MAX_PROCS];
    for place in (0..order.len()).rev() {
        mark(order, intervals, sent, cut, place, halves, &mut later);
    }
}

/// Marks the event at a place, if it is in the past of the cut, and the send of the message that it
/// receives, where all behind the place is marked.
fn mark(
    order: &[Task],
    intervals: &[u32],
    sent: &[usize],
    cut: &GlobalCut,
    place: usize,
    halves: &mut [bool],
    later: &mut [bool],
)
    requires cut { IsCutOrder (length cut.now) order.now intervals.now sent.now cut.now }
    requires place { place < length order.now }
    requires marked { AreMarked (length cut.now) order.now cut.now (place + 1) halves.old later.old }
    ensures { AreMarked (length cut.now) order.now cut.now place halves.new later.new }
{
    let task = order[place];
    if !is_event(task.action) {
        return;
    }
    let p = task.p as usize;
    if later[p] || has_later_member(cut, task.p, intervals[place]) {
        halves[place] = true;
        halves[sent[place]] = true;
    }
    later[p] = halves[place];
}

/// Whether the cut has a member of process `p` behind interval `k`.
fn has_later_member(cut: &GlobalCut, p: u32, k: u32) -> bool
    requires { p < length cut.now }
    ensures { IsTrue result ↔ HasLaterMember cut.now p k }
{
    match cut.get(p) {
        None => false,
        Some(member) => k < member,
    }
}
