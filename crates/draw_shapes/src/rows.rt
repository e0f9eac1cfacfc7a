//! The rows of hosts.
use crate::frame::Frame;
use crate::name::Name;
use std::alloc::AllocError;

/// A host's row: its name at both ends, and its line.
pub fn push_row(text: &mut String, frame: &Frame, row: u32, name: &Name) -> Result<(), AllocError> {
    let (left, y, right) = (frame.left(), frame.down(row), frame.right());
    push_name(text, left - 12, y + 4, "end", name)?;
    push_name(text, right + 12, y + 4, "start", name)?;
    writeln!(text, "<path class=\"axis\" d=\"M{left} {y}H{right}\"/>")
}

/// A name that begins or ends at this place. A shortened one has the whole as its tooltip.
fn push_name(
    text: &mut String,
    x: u32,
    y: u32,
    anchor: &str,
    name: &Name,
) -> Result<(), AllocError> {
    write!(text, "<text x=\"{x}\" y=\"{y}\" text-anchor=\"{anchor}\">")?;
    let whole = name.whole();
    match name.shortened() {
        None => writeln!(text, "{whole}</text>"),
        Some(begin) => writeln!(text, "{begin}<title>{whole}</title></text>"),
    }
}

/// A true state, from one column to another, with this tooltip: a bar, which is higher and outlined if it is a member
/// of the moment. Nothing where no column between the two is drawn.
pub fn push_bar(
    text: &mut String,
    frame: &Frame,
    row: u32,
    from: u32,
    to: u32,
    is_member: bool,
    tooltip: &str,
) -> Result<(), AllocError> {
    let (left, right) = (frame.across(from), frame.across(to));
    if left >= right {
        return Ok(());
    }
    let width = (right - left).saturating_sub(2);
    push_bar_at(text, frame, row, left + 1, width, is_member, tooltip)
}

/// A state that is true at the event in this column alone, where that is drawn.
pub fn push_spot(
    text: &mut String,
    frame: &Frame,
    row: u32,
    column: u32,
    is_member: bool,
    tooltip: &str,
) -> Result<(), AllocError> {
    if !frame.shows(column) {
        return Ok(());
    }
    let x = frame.across(column).saturating_sub(8);
    push_bar_at(text, frame, row, x, 16, is_member, tooltip)
}

/// A bar of this width, from so far right on.
fn push_bar_at(
    text: &mut String,
    frame: &Frame,
    row: u32,
    x: u32,
    width: u32,
    is_member: bool,
    tooltip: &str,
) -> Result<(), AllocError> {
    let (class, above, height) = if is_member {
        ("member", 6u32, 13u32)
    } else {
        ("true", 4u32, 9u32)
    };
    let y = frame.down(row) - above;
    writeln!(
        text,
        "<rect class=\"{class}\" x=\"{x}\" y=\"{y}\" width=\"{width}\" height=\"{height}\" rx=\"2\">\
         <title>{tooltip}</title></rect>"
    )
}

/// The dot of an event in this column, with this tooltip, where the column is drawn.
pub fn push_dot(
    text: &mut String,
    frame: &Frame,
    row: u32,
    column: u32,
    tooltip: &str,
) -> Result<(), AllocError> {
    if !frame.shows(column) {
        return Ok(());
    }
    let (x, y) = (frame.across(column), frame.down(row));
    writeln!(
        text,
        "<circle class=\"event\" cx=\"{x}\" cy=\"{y}\" r=\"3\"><title>{tooltip}</title></circle>"
    )
}

/// The line of the moment.
pub fn push_moment(text: &mut String, frame: &Frame, column: u32) -> Result<(), AllocError> {
    let (x, end) = (frame.across(column), frame.bottom() - 20);
    writeln!(
        text,
        "<path class=\"moment\" d=\"M{x} 34V{end}\"><title>the moment</title></path>"
    )
}

/// What stands beside the line of the moment in this column, at this row.
pub fn push_number(
    text: &mut String,
    frame: &Frame,
    column: u32,
    row: u32,
    number: u64,
) -> Result<(), AllocError> {
    let (x, y) = (frame.across(column) + 5, frame.down(row) - 10);
    writeln!(
        text,
        "<text class=\"small\" x=\"{x}\" y=\"{y}\">{number}</text>"
    )
}
