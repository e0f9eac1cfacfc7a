//! The probe and the checker for programs in C: a static library, whose calls test what they are given.
//!
//! What is proved, for every input. Memory that holds a probe, a stamp or a note is told from memory that holds none,
//! and each call of a probe makes the step of `ProbeCore` on what the memory stands for, or refuses it by a number. The
//! checker takes the next note of its process and of its watch, or refuses it and is as before. It asks one question of
//! the notes, or several; the report of each is that of `Checker`, and the tag that it tells is that of the note in the
//! cut. All that a handle holds is saved as bytes; these are loaded as what was saved, and all others are refused.
//! `wcp_single` answers the outcome of the workload that the text spells, printed, or the line that names the fault of
//! the text, or that it is longer than the program reads.
#![tactic(auto)]

mod answer;
mod asked;
mod checker;
mod handle;
mod held;
mod in_cut;
mod masks;
mod note;
mod open_stamp;
mod parts;
mod probe;
mod questions;
mod saved;
mod saving;
mod several;
mod shelf;
mod single;
mod spent;
mod stamp;
mod told;
mod told_of;
mod version;
mod watched;
mod watching;

pub use handle::WcpChecker;
pub use note::WcpNote;
pub use probe::WcpProbe;
pub use stamp::WcpStamp;
