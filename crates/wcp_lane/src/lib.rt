//! Relay lanes: bounded, many putters, one taker. What is taken of each origin, followed by what is in
//! the lane, is what was put of it, at every step of every schedule.
//!
//! What is proved. A lane between threads, of bounded capacity, with many putters and one taker, in any schedule. The
//! lane rule holds at every step: what was taken of a number, followed by what is in the lane, is what was put of it,
//! numbered 0, 1, 2, .., with nothing behind a last item. Per call: `lane` answers the first fault that applies, or one
//! putter for each set and a taker that have put and taken nothing, of a lane with the room that was asked; an accepted
//! `put` or `try_put` adds its message, and the items of that, to what the putter has put, a refused one hands it back
//! and changes nothing; `take` and `try_take` give a message whose items each are of one of the lane's numbers, the
//! next one of it, or change nothing; `reconcile` is accepted exactly where as many items were taken as put of each
//! number of that putter, and then they are the same list. When a lane is cut, and that a put or a take returns, no
//! clause says.
#![tactic(auto)]

mod counts;
mod fault;
mod members;
mod message;
mod opening;
mod passes;
mod putter;
mod receipts;
mod taker;

pub use fault::{Cut, LaneFault, Unfinished};
pub use members::Members;
pub use message::Origin;
pub use opening::lane;
pub use putter::{PutReceipt, Putter};
pub use receipts::reconcile;
pub use taker::{TakeReceipt, Taker};
