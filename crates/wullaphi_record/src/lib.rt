//! A record of what the processes of a watch do as they go, and the log that the records of all of them make.
//!
//! What is proved. `Record::event` adds an event with the clock of the probe, or says the first reason why not; a record
//! that keeps the last events gives up its first one where it is full. `recorded_log`: the bytes that `specs/Logs.antt`
//! says of the records, or the first reason why there is no log. A log in the form `lines` is read as just these events,
//! if no two of them know each other, as in each run. By its clocks one event happened before another exactly where the
//! process of the other had received from it, by the clocks of the probes (`recorded_clocks_law`).
//!
//! Said by no clause: that a process records an event where it happens.
#![tactic(auto)]

mod event;
mod fault;
mod kept;
mod laws;
mod log;
mod numbers;
mod record;
mod recorded;

pub use fault::RecordFault;
pub use laws::recorded_clocks_law;
pub use log::recorded_log;
pub use record::Record;
