//! A workload that runs in threads, to its outcome.
//!
//! What is proved. `run`, of a workload that could be read and whose plan is checked: an answer is the workload's
//! outcome, the one that `single` gives, whatever the schedule of its threads. Where there is none, the fault that it
//! tells of the ends of its threads is the first that applies, said of the private call that looks for it; `Lost`
//! doesn't come today, since each worker leaves the end of its probe.
#![tactic(auto)]

mod first_fault;
mod opening;
mod played_ends;
mod run_fault;
mod workload_run;

pub use run_fault::RunFault;
pub use wcp_threads::{EndOf, Part, RunsWith};
pub use wcp_watch::{
    CheckFault, CheckerEnd, Checking, Ends, Parts, SettleFault, StartFault, check_loop, run_parts,
    settle,
};
pub use wcp_worker::{Gate, Open};
pub use workload_run::run;
