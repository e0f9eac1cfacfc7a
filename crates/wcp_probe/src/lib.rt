//! The part of the detector that lives in a worker's thread: its vector clock, and what it emits.
//!
//! What is proved. `ProbeCore`, per call against the probe log: a new probe stands for the empty log, an accepted call
//! leaves a probe that stands for the log with that call at its end, and what is pending is its last emission; which
//! refusal comes, the first in its order, and that none comes where none applies; a refusal changes nothing and hands
//! the value back. `Stamped` has no public constructor: a probe's `stamp` alone makes one, as `stamp_open` alone makes
//! an `OpenStamped`, which is for whichever process takes it: one that its sender takes back changes nothing.
//! `ToldProbe` says the same of a probe that is made of parts and of stamps that are told, and neither makes a
//! `Stamped` nor takes one.
#![tactic(auto)]

mod messages;
mod open_messages;
mod open_stamp;
mod parts;
mod probe;
mod stamp;
mod told_probe;

pub use open_stamp::OpenStamped;
pub use parts::ProbeParts;
pub use probe::{ProbeCore, Refusal};
pub use stamp::Stamped;
pub use told_probe::ToldProbe;
