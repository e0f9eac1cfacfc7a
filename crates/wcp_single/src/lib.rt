//! The outcome of a workload: the least cut of its computation, or that no satisfying cut exists.
//!
//! What is proved. `single`: found with the least cut of the workload's computation, or nothing where no satisfying
//! cut exists, and for each process emitted and taken are the number of its states that are emitted, whichever fit
//! order is followed. `single_in_order`: the same along a fit order that is known. Its states and clocks come from one
//! `ProbeCore` for each process, and its cut from a `Checker` that takes what they emit.
#![tactic(auto)]

mod stamp_queue;
mod workload_outcome;
mod workload_process;
mod workload_run;

pub use workload_outcome::{single, single_in_order};
