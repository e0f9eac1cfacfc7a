//! What the words of a call say to read, and what is wrong with a word, in a line.
//!
//! Tested, and said by no clause: which file is opened, and opened again, how several inputs are read as one, what is
//! told of a terminal, and each line.
#![tactic(auto)]

mod joined;
mod opening;
mod source;
mod usage;

pub use joined::JoinedReader;
pub use opening::{FileFault, open, open_again, tell_terminal};
pub use source::InputSource;
pub use usage::usage_line;
