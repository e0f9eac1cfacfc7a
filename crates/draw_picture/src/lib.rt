//! The picture of a computation and its cut: the text of an SVG document.
//!
//! What is proved. `draw`: a picture has the line that tells the cut, with the interval of each process that has one in
//! it, or that there is no cut. `draw` takes a layout of exactly this cut, or of none, as `draw_layout` says: its
//! `requires`.
//!
//! Tested, and said by no clause: how the layout is drawn. `.ci/stored_runs` and
//! `tests/wcpdraw.py` compare whole pictures, byte by byte.
#![tactic(auto)]

mod look;
mod messages;
mod picture;
mod process;
mod steps;
mod told;

pub use look::Look;
pub use picture::draw;
pub use told::found;
