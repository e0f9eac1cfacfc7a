//! The parts of a run, each in a thread of its own, which leave their ends.
//!
//! What is proved. `start_all`: each thread stands at the place of its part, and promises the end of just that one.
//! `join_all`: where all were let through their gate, each end stands at the place of its part, and is one that its
//! part leaves. A `Part` says itself when it may run and what it leaves as it has run. That no thread goes on before
//! its gate is opened no clause says: what is behind a lock is known by its type alone.
#![tactic(auto)]

mod part;
mod start_gate;
mod starting;

pub use part::{Part, RunsWith};
pub use start_gate::StartGate;
pub use starting::{EndOf, Started, join_all, start, start_all};
