//! What a text means: the workload or the schedule that it spells, or the fault that it has; and the
//! text of a workload.
//!
//! What is proved. `read_workload` and `read_schedule`: an answer is what the text spells, its plan passed its check,
//! and a workload could be read; each text that spells such a thing is read as it; a text is refused exactly where it
//! has a fault, with that line and kind, where the fault is said by one definition (`HasTextFault` in
//! `specs/TextFault.antt`). `read_ordered`: what `read_workload` answers, with a fit order of the tasks.
//! `workload_text`: the exact bytes, and they spell the workload again, so that it is read back. `ring_workload`:
//! exactly the tasks of the definition, and that they could be read.
#![tactic(auto)]

mod fault;
mod head;
mod head_line;
mod lines;
mod number;
mod opening;
mod printed_line;
mod printed_step;
mod printing;
mod ring;
mod schedule;
mod schedule_line;
mod step_line;
mod task_line;
mod text;
mod watch_line;
mod workload;

pub use fault::{FaultKind, ReadFault, ScriptFault};
pub use printing::workload_text;
pub use ring::{MAX_ROUNDS, ring_workload};
pub use schedule::{Schedule, read_schedule};
pub use wcp_single::{single, single_in_order};
pub use workload::{OrderedWorkload, read_ordered, read_workload};
