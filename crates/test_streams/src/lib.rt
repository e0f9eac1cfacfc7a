//! Readers and writers for tests: they give or take little at a time, or fail.
#![tactic(auto)]

mod sink;
mod source;
mod trouble;

pub use sink::{Sink, Sinks};
pub use source::Source;
pub use trouble::Trouble;
