//! The tree of a watch: a ring for each process and a lane for each relay that serves relays, from live probes to the
//! checker, for every checked plan.
//!
//! What is proved. `watch` wires every checked plan: the ring of a process is the one of its leaf's feed for it, each
//! relay puts on the lane that its parent takes from, for just the processes below it, the checker's inbox takes from
//! the root's lane, each ring, each lane and each relay's hold has the room of the plan, and everything is empty.
//! `leaf_relay` keeps all that it is handed, and its hold is empty with the room that was asked. What probes and relays
//! do once they run is proved in `wcp_relay`, whose names are handed on here.
#![tactic(auto)]

mod lane_wiring;
mod members;
mod ring_opening;
mod watch_opening;

pub use watch_opening::{leaf_relay, watch};
pub use wcp_relay::{
    Bundle, CheckerInbox, Feed, LiveProbe, MAX_BUNDLE, ProbeEnd, Receipts, Relay, RelayEnd,
    RelayFault, Watch,
};
