//! The link from one process to its leaf relay: a ring of notes with one end that puts and one that takes.
//!
//! What is proved. The link from one process to its leaf relay, for two threads. `ring` gives the two ends of one
//! ring, empty. `try_put` appends the note to what was put, or hands it back and changes nothing, which it never does
//! where a slot is known to be free. `try_take` appends what it gives to what was taken; it gives the first of the
//! notes that it has seen in the ring, and nothing only where it knows of none. `end` keeps what was put.
//! `match_ends`, on the ends of one ring: what was taken is a prefix of what was put, and it answers `Matched` exactly
//! where the two are the same list. What one end knows of the other's calls may be out of date until the ends meet.
//! `gone` and `linked` change nothing but what is seen. No clause says what they answer, or speaks of waking a thread
//! that sleeps.
#![tactic(auto)]

mod matching;
mod opening;
mod putter;
mod sleeper;
mod taker;

pub use matching::{Matched, Unfinished, match_ends};
pub use opening::ring;
pub use putter::{Gone, PutterEnd, RingPutter};
pub use sleeper::{Bell, Sleeper};
pub use taker::RingTaker;
