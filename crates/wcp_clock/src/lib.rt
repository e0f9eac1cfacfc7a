//! Vector clocks, what comes of a process (snapshots, and a mark that it closed or was lost), and the limits of the
//! product.
//!
//! What is proved. `Clock` is the list of its components: `tick`, `merge` and `precedes` are exact; `tick` answers
//! false, and counts nothing, exactly where the component is at least the limit.
#![tactic(auto)]

mod clock;
mod limits;
mod note;
mod per_process;
mod process_set;

pub use clock::Clock;
pub use limits::{
    CLOCK_LIMIT, GATE_TURNS, MAX_CAP, MAX_HOLD, MAX_LANE, MAX_PATH, MAX_PROCS, MAX_RELAYS,
    MAX_STEPS,
};
pub use note::{Item, Note};
pub use per_process::{Padding, PerProcess};
pub use process_set::ProcessSet;
