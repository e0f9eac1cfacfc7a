//! The picture of a computation.
ghost use Rattle.std.specs.Prelude.{◌≡◌, ◌+◌, ◌<◌, ◌≤◌, ◌^◌, ℕ, length, slice_index, string_bytes, All, IfOk, MatchOption};
ghost use Rattle.wcp_clock.specs.Limits.{most_processes, most_steps};
ghost use Rattle.draw_picture.specs.Picture.{IsPicture};
ghost use Rattle.draw_layout.specs.Layout.{IsLayout};
ghost use Rattle.draw_layout.specs.Messages.{AreSends};
ghost use Rattle.wcp_model.specs.WorkloadComputation.{IsWithin};

use crate::look::Look;
use crate::messages::{push_message, received_sends};
use crate::process::push_process;
use crate::steps::step_text;
use crate::told::found;
use draw_layout::{Layout, greatest};
use draw_shapes::{
    Frame, Mark, Name, head_of, picture_height, push_dot, push_left_out, push_legend, push_moment,
    push_number,
};
use std::alloc::{AllocError, Global};
use wcp_model::{Action, GlobalCut, Task};

/// The picture of the computation of a fit order of tasks, about a cut or without one, as its layout says: the text of
/// an SVG document. As many columns as the look says are drawn at most: about the line of the cut, or the first ones
/// where there is no cut. `Err` where memory runs out.
pub fn draw(
    alloc: Global,
    names: &[Name],
    look: &Look<'_>,
    order: &[Task],
    layout: &Layout,
    cut: &Option<GlobalCut>,
) -> Result<String, AllocError>
    requires few { length names.now ≤ most_processes }
    requires few_tasks { length order.now ≤ most_steps }
    requires within { All (IsWithin (length names.now)) order.now }
    requires layout { IsLayout (length names.now) order.now cut.now layout.now }
    requires members { MatchOption cut.now (Unit {0}) (λ cut. length cut ≡ length names.now) }
    ensures { IfOk result (λ text. IsPicture (length names.now) order.now cut.now layout.now (string_bytes text)) }
{
    let frame = frame_about(names, look.most_columns, layout, cut);
    let received = received_sends(alloc, order, &layout.sent)?;
    let left_out = frame.left_out(&layout.columns);
    let marks = marks(alloc, order, &received, left_out, cut)?;
    let title = title(alloc, names.len(), cut.is_some())?;
    let head = head_of(alloc, &frame, picture_height(&frame, marks.len()), &title)?;
    let found = found(alloc, cut)?;
    let shapes = shapes(alloc, &frame, names, look, order, layout, &received, cut)?;
    let notes = notes(alloc, &frame, left_out, &marks)?;
    format!(in alloc;
        "{head}<text class=\"found\" x=\"14\" y=\"22\">{found}</text>\n{shapes}{notes}</svg>\n"
    )
}

/// The frame of a layout about a cut, or without one.
fn frame_about(names: &[Name], most_columns: u32, layout: &Layout, cut: &Option<GlobalCut>) -> Frame
    requires few { length names.now ≤ 16 }
{
    let last = greatest(&layout.columns);
    let widest = names.iter().map(|name| name.width()).max().unwrap_or(0);
    let n = names.len() as u32;
    if cut.is_some() {
        return Frame::about(
            n,
            widest,
            most_columns,
            last.max(layout.line),
            Some(layout.line),
        );
    }
    Frame::about(n, widest, most_columns, last, None)
}

/// What the picture shows, in words.
fn title(alloc: Global, n: usize, found: bool) -> Result<String, AllocError> {
    let what = if found {
        "and the first moment at which all conditions could have held"
    } else {
        "whose conditions never could have held at one moment"
    };
    format!(in alloc; "A computation of {n} processes, {what}")
}

/// The shapes of a picture, each once.
fn marks(
    alloc: Global,
    order: &[Task],
    received: &[bool],
    left_out: (usize, usize),
    cut: &Option<GlobalCut>,
) -> Result<Vec<Mark>, AllocError>
    requires received { length received.now ≡ length order.now }
    ensures { IfOk result (λ marks. length marks.items ≤ 6) }
{
    let mut marks = Vec::with_capacity(alloc, 6)?;
    marks.push(Mark::True)?;
    if cut.is_some() {
        marks.push(Mark::Member)?;
        marks.push(Mark::Moment)?;
    }
    marks.push(Mark::Message)?;
    if has_open(order, received) {
        marks.push(Mark::Open)?;
    }
    if left_out.0 > 0 || left_out.1 > 0 {
        marks.push(Mark::Far)?;
    }
    Ok(marks)
}

/// Whether a message is sent that nobody receives.
fn has_open(order: &[Task], received: &[bool]) -> bool
    requires received { length received.now ≡ length order.now }
{
    for (place, task) in order.iter().enumerate() {
        if let Action::Send(_) = task.action {
            if !received[place] {
                return true;
            }
        }
    }
    false
}

/// All that is drawn of the computation: the processes, one below another, the arrows, the dots, and the line of the
/// cut.
fn shapes(
    alloc: Global,
    frame: &Frame,
    names: &[Name],
    look: &Look<'_>,
    order: &[Task],
    layout: &Layout,
    received: &[bool],
    cut: &Option<GlobalCut>,
) -> Result<String, AllocError>
    requires few { length names.now ≤ 16 }
    requires events { length layout.now.events.items ≡ length names.now }
    requires truths { length layout.now.truths.items ≡ length names.now }
    requires columns { length layout.now.columns.items ≡ length order.now }
    requires sent { AreSends order.now layout.now.sent.items }
    requires received { length received.now ≡ length order.now }
    requires members { MatchOption cut.now (Unit {0}) (λ cut. length cut ≡ length names.now) }
{
    let mut text = String::new(alloc);
    for p in 0..names.len() {
        push_process(alloc, &mut text, frame, layout, cut, p as u32, &names[p])?;
    }
    for place in 0..order.len() {
        push_message(
            alloc, &mut text, frame, look, order, layout, received, place,
        )?;
    }
    for place in 0..order.len() {
        let (task, column) = (order[place], layout.columns[place]);
        if frame.shows(column) {
            let tooltip = step_text(alloc, look, place, task)?;
            push_dot(&mut text, frame, task.p, column, &tooltip)?;
        }
    }
    push_cut(&mut text, frame, layout.line, cut)?;
    Ok(text)
}

/// The line of the cut, and the numbers of the states that it crosses, where there is a cut.
fn push_cut(
    text: &mut String,
    frame: &Frame,
    line: u32,
    cut: &Option<GlobalCut>,
) -> Result<(), AllocError> {
    let Some(cut) = cut else {
        return Ok(());
    };
    push_moment(text, frame, line)?;
    for p in 0..cut.len() {
        if let Some(member) = cut.get(p) {
            push_number(text, frame, line, p, member as u64)?;
        }
    }
    Ok(())
}

/// What stands below the processes: what is left out, and what the shapes mean.
fn notes(
    alloc: Global,
    frame: &Frame,
    left_out: (usize, usize),
    marks: &[Mark],
) -> Result<String, AllocError>
    requires few { length marks.now ≤ 6 }
{
    let mut text = String::new(alloc);
    push_left_out(&mut text, frame, left_out)?;
    push_legend(&mut text, frame, marks)?;
    Ok(text)
}
