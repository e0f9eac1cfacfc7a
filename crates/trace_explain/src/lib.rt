//! Why a log has its earliest moment, or none: sentences about the events of the watched hosts, by their lines.
//!
//! What is proved. A `History` keeps of each event that it takes the line, whether the condition of its host holds at
//! it, and the numbers of the watched hosts in its clock (`specs/History.antt`). `History::explain`, of what was taken:
//! there is a moment, and each sentence is said of a member of the earliest one. It is so of the events that were
//! taken: where the condition began to hold and where it ceased, and up to which line the member knows each other
//! host, whose next event has a greater number. Or there is none: each state of one host is over at an event of
//! another, at which no moment begins later than there, as the line that this event knows of the host tells; the
//! reasons are those of all states of the host, in their order (`specs/Reasons.antt`). The states are eliminated as in
//! `trace_moment`, but over all events (`specs/Left.antt`). `History::text`: the sentences, a line each, as
//! `specs/Texts.antt` says them.
//!
//! Said by no clause: which host's states are told to have run out, where those of several do.
#![tactic(auto)]

mod elimination;
mod explain;
mod held;
mod history;
mod left;
mod past;
mod reason;
mod text;

pub use history::History;
pub use reason::{Explanation, HeldState, StateOver};
