//! The names of hosts, as lines of text show them.
//!
//! What is proved. `shown_name` and `push_shown`: a name with each of its control characters escaped, so that no name
//! ends a line (`specs/Names.antt`).
#![tactic(auto)]

mod names;

pub use names::{push_shown, shown_name};
