//! A checker as bytes, so that it goes on after a restart of its program.
//!
//! What is proved. `save` gives the one spelling of what the checker has come to, by the definition in
//! `specs/Spelling.antt`: words of 8 bytes, the lowest byte first, and their checksum, Adler-32, behind them. `load` of
//! these bytes gives that same checker, which so stands for what it took before. A checker that `load` gives is one
//! that there can be, and has these bytes as its spelling, so any other bytes are refused. Both calls give an `Err`
//! for want of memory alone. `save_watch` and `load_watch` do the same of all that is asked of the notes of one watch.
#![tactic(auto)]

mod bytes;
mod reading;
mod saved;
mod watch;
mod watch_reading;
mod watch_writing;
mod writing;

pub use saved::{load, save};
pub use watch::{SavedWatch, Tagged, load_watch, save_watch};
