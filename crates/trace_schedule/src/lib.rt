//! The schedule of a moment: the events that led to it, in an order in which they can have happened.
//!
//! What is proved. `Recorded`, a source that keeps what another one gave: it gives the same, and takes no more of what
//! is read (`specs/Recorded.antt`). `ask_recorded`: what is answered to a question is what `trace_asking` answers, and
//! the events are those that were read for it. `in_order`: where that is a moment it lists the events that happened
//! before its members, and the members, each as often as the log has it, by how many events their clocks count, and none
//! behind one that it happened before (`IsSchedule` in `specs/Schedule.antt`); any other answer stays as it is (`Lists`
//! in `specs/InOrder.antt`). It refuses nothing but a moment, and that only where memory runs out, or where clocks
//! contradict each other: one counts the event of the line that is told, and no more events than that one does, or that
//! event doesn't count itself (`Contradict`).
//!
//! Said by no clause: in which order events stand whose clocks count as many. They stand as in the log.
#![tactic(auto)]

mod listing;
mod ordered_fault;
mod ordering;
mod past;
mod reached;
mod recorded;
mod recorded_event;
mod recording;

pub use listing::in_order;
pub use ordered_fault::OrderedFault;
pub use recorded::Recorded;
pub use recorded_event::RecordedEvent;
pub use recording::{RecordedAnswer, ask_recorded};
