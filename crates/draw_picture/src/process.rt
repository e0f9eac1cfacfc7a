//! The row of a process.
ghost use Rattle.std.specs.Prelude.{◌<◌, length, MatchOption};

use draw_layout::Layout;
use draw_shapes::{Frame, Name, push_bar, push_row};
use std::alloc::{AllocError, Global};
use wcp_model::GlobalCut;

/// Process `p`: its row, and its true states, of which the member of the cut is outlined.
pub(crate) fn push_process(
    alloc: Global,
    text: &mut String,
    frame: &Frame,
    layout: &Layout,
    cut: &Option<GlobalCut>,
    p: u32,
    name: &Name,
) -> Result<(), AllocError>
    requires events { p < length layout.now.events.items }
    requires truths { p < length layout.now.truths.items }
    requires members { MatchOption cut.now (Unit {0}) (λ cut. p < length cut) }
{
    push_row(text, frame, p, name)?;
    let events = layout.events[p as usize].numbers();
    let member = match cut {
        None => None,
        Some(cut) => cut.get(p),
    };
    for k in layout.truths[p as usize].numbers() {
        let (from, to) = (begin_of(events, *k), end_of(events, *k));
        let tooltip = format!(in alloc; "interval {k}")?;
        push_bar(text, frame, p, from, to, member == Some(*k), &tooltip)?;
    }
    Ok(())
}

/// The column in which state `k` begins, where a process has events in these columns.
fn begin_of(events: &[u32], k: u32) -> u32 {
    if k == 0 {
        return 0;
    }
    match events.get(k as usize - 1) {
        Some(column) => *column,
        None => 0,
    }
}

/// The column in which state `k` ends.
fn end_of(events: &[u32], k: u32) -> u32 {
    match events.get(k as usize) {
        Some(column) => *column,
        None => u32::MAX,
    }
}
