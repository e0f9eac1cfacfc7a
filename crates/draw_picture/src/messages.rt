//! The arrows of messages.
ghost use Rattle.std.specs.Prelude.{◌≡◌, ◌<◌, length, IfOk};
ghost use Rattle.draw_layout.specs.Messages.{AreSends};

use crate::look::Look;
use crate::steps::step_text;
use draw_layout::Layout;
use draw_shapes::{Frame, Place, push_arrow, push_open};
use std::alloc::{AllocError, Global};
use wcp_model::{Action, Task};

/// For each task of an order whether its message is received.
pub(crate) fn received_sends(
    alloc: Global,
    order: &[Task],
    sent: &[usize],
) -> Result<Vec<bool>, AllocError>
    requires sends { AreSends order.now sent.now }
    ensures { IfOk result (λ received. length received.items ≡ length order.now) }
{
    let mut received = vec![in alloc; false; order.len()]?;
    for (place, task) in order.iter().enumerate() {
        if let Action::Recv(_) = task.action {
            received[sent[place]] = true;
        }
    }
    Ok(received)
}

/// The arrow of the message that the task at this place receives, or sends and nobody receives, if it does either.
pub(crate) fn push_message(
    alloc: Global,
    text: &mut String,
    frame: &Frame,
    look: &Look<'_>,
    order: &[Task],
    layout: &Layout,
    received: &[bool],
    place: usize,
) -> Result<(), AllocError>
    requires place { place < length order.now }
    requires columns { length layout.now.columns.items ≡ length order.now }
    requires sent { AreSends order.now layout.now.sent.items }
    requires received { length received.now ≡ length order.now }
{
    let task = order[place];
    match task.action {
        Action::Recv(_) => {
            let sent = layout.sent[place];
            push_received(alloc, text, frame, look, order, layout, sent, place)
        }
        Action::Send(to) if !received[place] => {
            let from = place_of(task, layout.columns[place]);
            if !frame.shows(from.column) {
                return Ok(());
            }
            let tooltip = step_text(alloc, look, place, task)?;
            push_open(text, frame, from, to, &tooltip)
        }
        _ => Ok(()),
    }
}

/// The arrow of a message that the task at one place sends and the one at another receives.
fn push_received(
    alloc: Global,
    text: &mut String,
    frame: &Frame,
    look: &Look<'_>,
    order: &[Task],
    layout: &Layout,
    sent: usize,
    received: usize,
) -> Result<(), AllocError>
    requires columns { length layout.now.columns.items ≡ length order.now }
    requires sent { sent < length order.now }
    requires received { received < length order.now }
{
    let from = place_of(order[sent], layout.columns[sent]);
    let to = place_of(order[received], layout.columns[received]);
    if !frame.shows(from.column) && !frame.shows(to.column) {
        return Ok(());
    }
    let send = step_text(alloc, look, sent, order[sent])?;
    let receive = step_text(alloc, look, received, order[received])?;
    let tooltip = format!(in alloc; "{send}; {receive}")?;
    push_arrow(text, frame, from, to, &tooltip)
}

/// Where a task stands, of which the column is known.
pub(crate) fn place_of(task: Task, column: u32) -> Place {
    Place {
        row: task.p,
        column,
    }
}
