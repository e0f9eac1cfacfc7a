//! The shapes of a still picture: what a host, a true state, an event, a message and a moment look like in SVG.
//!
//! Tested, and said by no clause: all of it. `tests/wcpdraw.py` compares whole pictures, and computes the contrasts of
//! their colours.
#![tactic(auto)]

mod arrows;
mod frame;
mod head;
mod legend;
mod name;
mod rows;

pub use arrows::{Place, push_arrow, push_open};
pub use frame::{Frame, MOST_COLUMNS, MOST_ROWS};
pub use head::head_of;
pub use legend::{Mark, picture_height, push_left_out, push_legend};
pub use name::{Name, escaped};
pub use rows::{push_bar, push_dot, push_moment, push_number, push_row, push_spot};
