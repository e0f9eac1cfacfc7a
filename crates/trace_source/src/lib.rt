//! Where the events of a log come from.
//!
//! A source gives events, one after another, and takes no more of what it reads than it needs for the next one; what it
//! gave, and how much it took, is said by its story (`specs/Story.antt`).
//!
//! What is proved. `Clocked`, a log with clocks: what it gives is what `trace_log` says of the lines of its input
//! (`specs/Clocked.antt`). It takes no line behind the one that ends the next event, and reads at most 65,536 bytes
//! ahead of the lines. The input is lent to it: what is left of it is known once the source is gone.
#![tactic(auto)]

mod clocked;
mod source;

pub use clocked::Clocked;
pub use source::Source;
