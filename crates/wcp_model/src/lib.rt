//! Words that all crates share: steps, workloads, plans and outcomes, and the definitions and laws
//! of computations, happened-before and cuts.
//!
//! What is proved. The record of the headline and all definitions that it rests on. The laws over them, each the
//! contract of a function without a body: the minimum law and that a least cut exists (`minimum_law`,
//! `least_cut_law`), the fit-order law (`fit_order_law`), the clock law and that each state has a clock (`clock_law`,
//! `states_have_clocks`), the log law (`log_law`), the task log law (`task_log_law`), the growth law and the
//! early-find law (`growth_law`, `early_find_law`), the event-flag law and the send-flag law (`event_flag_law`,
//! `send_flag_law`: whatever resets the flag, each member of a least cut is emitted), and the first-reason law, that
//! the first of some reasons by their tests is the first that holds (`first_reason_law`). `Plan::check` gives the
//! first fault that a plan has, and none exactly where it has none; `is_attached`, `is_leaf` and `parent_of` answer
//! as the definitions of the tree do; `plain_plan` is the plan of one relay that serves every process, each watched
//! and with its flag reset by each event, and passes the check within the limits.
#![tactic(auto)]

mod clock_laws;
mod cut_laws;
mod first_reasons;
mod fit_orders;
mod flag;
mod flag_laws;
mod growth_laws;
mod outcome;
mod plan;
mod probe_log;
mod probe_setup;
mod state;
mod step;
mod task_log;
mod watched;
mod workload;

pub use clock_laws::{clock_law, states_have_clocks};
pub use cut_laws::{least_cut_law, minimum_law};
pub use first_reasons::first_reason_law;
pub use fit_orders::fit_order_law;
pub use flag::Flag;
pub use flag_laws::{event_flag_law, send_flag_law};
pub use growth_laws::{early_find_law, growth_law};
pub use outcome::{GlobalCut, Outcome, Report, Tallies, Tally};
pub use plan::{Parent, Plan, PlanFault, plain_plan};
pub use probe_log::log_law;
pub use probe_setup::ProbeSetup;
pub use state::State;
pub use step::{Reply, Step, Why};
pub use task_log::task_log_law;
pub use watched::Watched;
pub use workload::{Action, Task, Workload};
