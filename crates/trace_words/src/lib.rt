//! What the words of a call of `wcptrace` ask for.
//!
//! What is proved. `read_options`, for all words: by one definition over what `clap` is proved to find in them
//! (`IsRequestOf` in `specs/Requests.antt`) a trace is asked for exactly where no word is refused and the form is known,
//! and its lists are the values of each option in the order given; help, the version and words that the program doesn't
//! know come where `clap` answers so, and only there. The word `help` alone counts as `--help`. Where memory runs out
//! nothing is said, nor of the text of the help.
//!
//! `Options::are_fit`: words are fit only where they go together (`go_together` in `specs/Fitting.antt`): not both a page
//! and a picture, `--events` with a page alone, `--columns` with a picture alone, and so on for each option; and where
//! those that say how a log is spelled do (`spell_one_way` in `specs/Spelled.antt`). The words that say conditions, those
//! about any two hosts and those of a spelling are given as they were found.
//!
//! Tested, and said by no clause: what `clap` finds in plain words, the line on words that ask for nothing that the
//! program knows, and that the words of `--events` and `--columns` are numbers.
#![tactic(auto)]

mod any_two;
mod command;
mod fitting;
mod help;
mod line_number;
mod options;
mod spelling;

pub use help::VERSION;
pub use options::{Options, TraceRequest, read_options};
pub use spelling::SpellingWords;
