//! A still picture of the events of a page about its moment: the text of an SVG document.
//!
//! What is proved. `still`: a picture has a line that begins with what the page answers.
//!
//! Tested, and said by no clause: how the events are drawn. `tests/stills.py` compares the events, columns, arrows and
//! members in the pictures of random logs with what their clocks say.
#![tactic(auto)]

mod columns;
mod history;
mod knowing;
mod picture;
mod runs;
mod scene;
mod sources;

pub use picture::still;
