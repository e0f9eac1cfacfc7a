//! Workers: each plays a process of a workload in a thread, by its live probe and by the lanes to its partners.
//!
//! What is proved. Plays a process of a workload in a thread. `open_workers`: a worker for each process, with what it
//! does in order, its live probe, and one lane for each two processes of which the one sends to the other, for as many
//! messages as these sends, nothing sent or taken; that the lane has room for them all, a test shows. `Worker::run`:
//! where it did all, there is a log that follows its actions one by one, its probe has put the emissions of that log
//! and of its close, what it put on its lane to each other process are the stamps that it sent there, and the stamps
//! that it received from there are the first that it took of those that came; where it gave up, it holds no end of a
//! lane any more. `match_lanes`, on the mailboxes that all left: accepted exactly where what was put on the lane
//! between each two was all taken.
#![tactic(auto)]

mod gate;
mod lane_ends;
mod lane_matching;
mod mailbox;
mod matched_lanes;
mod message;
mod new_lane;
mod player;
mod worker;
mod worker_end;
mod worker_opening;
mod worker_part;

pub use gate::{Gate, Open};
pub use lane_ends::{Inbox, Outbox};
pub use mailbox::Mailbox;
pub use matched_lanes::match_lanes;
pub use message::Message;
pub use worker::Worker;
pub use worker_end::{WorkerEnd, WorkerFault};
pub use worker_opening::open_workers;
