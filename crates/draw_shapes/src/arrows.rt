//! The arrows of messages.
use crate::frame::Frame;
use std::alloc::AllocError;

/// Where an event stands.
#[derive(Clone, Copy, Debug)]
pub struct Place {
    /// The row of its host.
    pub row: u32,
    /// Its column.
    pub column: u32,
}

/// The arrow of a message, with this tooltip, where one of its ends is drawn: an end that isn't is at the edge.
pub fn push_arrow(
    text: &mut String,
    frame: &Frame,
    from: Place,
    to: Place,
    tooltip: &str,
) -> Result<(), AllocError> {
    let class = match (frame.shows(from.column), frame.shows(to.column)) {
        (true, true) => "message",
        (false, false) => return Ok(()),
        _ => "message far",
    };
    let (x, y) = (frame.across(from.column), frame.down(from.row));
    let (tip, end) = (frame.across(to.column), frame.down(to.row));
    writeln!(
        text,
        "<path class=\"{class}\" d=\"M{x} {y}L{tip} {end}\"><title>{tooltip}</title></path>"
    )
}

/// The arrow of a message to the host in this row, who never receives it, with this tooltip, where the send is drawn:
/// it ends on its way.
pub fn push_open(
    text: &mut String,
    frame: &Frame,
    from: Place,
    to_row: u32,
    tooltip: &str,
) -> Result<(), AllocError> {
    if !frame.shows(from.column) {
        return Ok(());
    }
    let (x, y) = (frame.across(from.column), frame.down(from.row));
    let end = if to_row < from.row { y - 14 } else { y + 14 };
    let tip = x + 20;
    writeln!(
        text,
        "<path class=\"message open\" d=\"M{x} {y}L{tip} {end}\"><title>{tooltip}; never received</title></path>"
    )
}
