//! The rules of a meeting: who of its members is there, and whether all ever were at once.
//!
//! What is proved. An `Attendance` is made of the processes that are to meet, and takes what processes do, step by step:
//! each arrives, in an interval and with a label, a number of its own that says where it is, and leaves again. For every
//! order of any steps it tells the first point at which all members were there, with the interval and the label of each
//! process that was there then, exactly where there is such a point (`first_meeting` in `specs/Steps.antt`); who is there,
//! as long as they have not met; and who ever came. A process that left is no longer there, and nothing that comes behind
//! a meeting changes it. In every attendance, also one that threads keep under a lock, all members were there where they
//! have met (the ghost field `all_in`). A `MeetingPlace` says where a member waits (`specs/Places.antt`).
//!
//! Said by no clause: the words in which an attendance is told.
#![tactic(auto)]

mod account;
mod attendance;
mod place;
mod present;
mod step;

pub use attendance::{Attendance, Gathering};
pub use place::MeetingPlace;
pub use present::Present;
pub use step::MeetingStep;
