//! The program `wcpwatch` as a function from words and bytes to bytes and a status.
//!
//! What is proved. `drive`: with no word or `single`, over a reader and a writer that tell their bytes, status 0 or 1
//! means that the whole input spells a workload that could be read, that exactly the report text of its outcome was
//! appended to the output, and nothing to the errors; 0 exactly where the report is found. With status 2 nothing was
//! written, or a prefix of the report where a write failed. With `run` alone the same holds, word for word, of the
//! outcome that a run in threads came to, whatever their schedule. With `replay` alone, on status 0 or 1, exactly the
//! line of each reply and then the report text were appended, for the schedule that the input spells, of replies and a
//! report of which the headline holds. A ring's text is printed on status 0, for a number of processes and of rounds in
//! the ranges, and nothing is read; that `ring` prints the one that its words ask for is shown by tests. Help reads
//! nothing, nor does the version, of which exactly two lines are written on status 0; words that the program doesn't
//! know read and write nothing, with status 2.
#![tactic(auto)]

mod answers;
mod fault;
mod help;
mod program;
mod words;

pub use fault::Fault;
pub use program::{drive, refuse};
