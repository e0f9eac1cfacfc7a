//! What the shapes of a picture mean.
ghost use Rattle.std.specs.Prelude.{◌<◌, ◌≤◌, length};

use crate::frame::Frame;
use std::alloc::AllocError;

/// How high a row of the legend is, in pixels.
const ROW: u32 = 20;

/// How far below the rows the legend is, in pixels.
const GAP: u32 = 16;

/// How wide an entry of the legend is, in pixels.
const ENTRY: u32 = 160;

/// A kind of shape.
#[derive(Clone, Copy, Debug)]
pub enum Mark {
    /// A true state.
    True,
    /// A true state that is in the cut.
    Member,
    /// A run of true states that is told.
    Run,
    /// The line of the cut.
    Moment,
    /// A message.
    Message,
    /// A message that nobody receives.
    Open,
    /// A message of which one end is left out.
    Far,
}

/// The most kinds that a picture shows.
const MARKS: u32 = 6;

impl Mark {
    /// Its class in the style.
    fn class(self) -> &'static str {
        match self {
            Mark::True => "true",
            Mark::Member | Mark::Run => "member",
            Mark::Moment => "moment",
            Mark::Message => "message",
            Mark::Open => "message open",
            Mark::Far => "message far",
        }
    }

    /// What it means.
    fn words(self) -> &'static str {
        match self {
            Mark::True => "condition true",
            Mark::Member => "true at the moment",
            Mark::Run => "runs that overlap",
            Mark::Moment => "the moment",
            Mark::Message => "message",
            Mark::Open => "never received",
            Mark::Far => "other end left out",
        }
    }

    /// Whether it is drawn as a bar, and not as a line.
    fn is_bar(self) -> bool {
        match self {
            Mark::True | Mark::Member | Mark::Run => true,
            Mark::Moment | Mark::Message | Mark::Open | Mark::Far => false,
        }
    }
}

/// How high a picture with a legend of so many shapes is, in pixels.
pub fn picture_height(frame: &Frame, shapes: usize) -> u32
    requires { shapes ≤ 6 }
    ensures { result ≤ 6000 }
{
    let columns = entries_in_a_row(frame);
    frame.bottom() + GAP + ROW * (shapes as u32).div_ceil(columns)
}

/// How many entries stand side by side.
fn entries_in_a_row(frame: &Frame) -> u32
    ensures some { 0 < result }
    ensures few { result ≤ 6 }
{
    (frame.width() / ENTRY).max(1).min(MARKS)
}

/// The legend of these shapes, below the rows.
pub fn push_legend(text: &mut String, frame: &Frame, marks: &[Mark]) -> Result<(), AllocError>
    requires few { length marks.now ≤ 6 }
{
    let (columns, top) = (entries_in_a_row(frame), frame.bottom() + GAP);
    for place in 0..marks.len() {
        let (row, column) = (place as u32 / columns, place as u32 % columns);
        push_entry(text, 14 + ENTRY * column, top + ROW * row, marks[place])?;
    }
    Ok(())
}

/// How many events stand left and right of the columns that are drawn, where any do.
pub fn push_left_out(
    text: &mut String,
    frame: &Frame,
    left_out: (usize, usize),
) -> Result<(), AllocError> {
    let (left, right) = left_out;
    if left == 0 && right == 0 {
        return Ok(());
    }
    let y = frame.bottom() - 4;
    writeln!(
        text,
        "<text class=\"small\" x=\"14\" y=\"{y}\">left out: {left} events left of these columns, and {right} right of \
         them</text>"
    )
}

/// A shape and what it means.
fn push_entry(text: &mut String, x: u32, y: u32, mark: Mark) -> Result<(), AllocError>
    requires x { x ≤ 2000 }
    requires y { y ≤ 10000 }
{
    let (class, words) = (mark.class(), mark.words());
    if mark.is_bar() {
        let above = y - y.min(5);
        writeln!(
            text,
            "<rect class=\"{class}\" x=\"{x}\" y=\"{above}\" width=\"24\" height=\"9\" rx=\"2\"/>"
        )?;
    } else {
        writeln!(text, "<path class=\"{class}\" d=\"M{x} {y}h24\"/>")?;
    }
    let (behind, below) = (x + 32, y + 4);
    writeln!(
        text,
        "<text class=\"small\" x=\"{behind}\" y=\"{below}\">{words}</text>"
    )
}
