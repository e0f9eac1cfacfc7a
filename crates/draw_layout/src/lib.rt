//! Where the events of a workload stand in a picture of it.
//!
//! What is proved. `lay_out`, of a fit order of tasks and a satisfying cut of its computation, if there is one: the
//! interval that the process of each task is in, and for each receive the place of the send of its message. Each
//! communication event stands in one column: along a process columns rise, each message goes right, all before the cut
//! stands left of the line and all behind it right, and each event stands as far left as that allows, so that its
//! column is 1 and the greatest of those that it stands right of. An event stands before the cut if the state that it
//! ends happened before a member of it, whether or not its own process has one; `member_law`: where it has one, these
//! are the events of the intervals below the member. The row of a process has the column of each of its events, and its
//! true states.
#![tactic(auto)]

mod cut_halves;
mod events;
mod layout;
mod messages;
mod place_queue;
mod row;
mod rows;
mod standing;

pub use cut_halves::member_law;
pub use layout::{Layout, lay_out};
pub use row::Row;
pub use standing::greatest;
