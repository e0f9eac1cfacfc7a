//! The core of the detector: the probes, relays and checker of a plan, in one interleaving of their
//! steps.
//!
//! What is proved. `World`, of the history of its steps and replies: each step has the reply that the definitions give
//! from the plan, the step and the earlier replies alone: the first refusal that applies, else done, and for a check
//! the item whose turn it is. A refused step changes nothing. After each step what was taken of each process is a
//! front of what it emitted. `report` is one of which the headline holds: found with the least cut of the whole
//! computation and of every longer one, nothing only where all is drained and no satisfying cut exists, else
//! undecided. `tally` counts the snapshots of the emissions and of what was taken. On want of memory nothing has
//! changed, and only a send and a check may want any. `play` says the same of a whole list of steps. Premises are the
//! checked plan and the answer Ok, and no others.
#![tactic(auto)]

mod detector;
mod messages;
mod plays;
mod processes;
mod transport;
mod world;

pub use plays::{Played, play};
pub use world::World;
