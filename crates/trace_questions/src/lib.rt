//! The questions about a log that a TOML file asks.
//!
//! What is proved. `read_questions` (`read`): the text parses as a TOML document, and the questions are those that the
//! document says, in their order, by one definition (`questions_in` in `specs/Wordings.antt`), each with its name and
//! with what its words say: of hosts, the conditions, as `trace_condition` reads them, or of any two hosts whose names
//! match, as `trace_pairs` reads it. It asks of hosts whether their conditions must have held at once exactly where
//! `true` stands at its key `definitely`, and then no condition is of a point. `why`: each asks for reasons as the
//! caller says. `have`: each about hosts has a condition, and no two of one host. `refused`: a text is refused only for
//! what its fault says. `Text`: it isn't UTF-8. `Toml`: it's no document. `Question`: the document says no questions,
//! or the words of one say nothing. `Expression`: the words of the question at this place, which has this name, are
//! refused as those crates refuse them, with this host and this error; the questions before it say something, and the
//! grammar reads their expressions. `Memory` may come at any text.
//!
//! Tested, and said by no clause: the lines that tell a fault, and the line and column that they name. So are the
//! lines of `why_no_conditions`.
#![tactic(auto)]

mod asked_words;
mod explain;
mod fault;
mod keys;
mod questions;
mod why_no_pair;
mod why_no_states;
mod why_none;
mod wording;

pub use fault::QuestionsFault;
pub use questions::read_questions;
pub use why_none::why_no_conditions;
