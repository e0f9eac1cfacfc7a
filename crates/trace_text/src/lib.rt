//! What is printed of an answer about a log: lines of text, or a line of JSON.
//!
//! What is proved. `answer_text`: its bytes are those that `specs/Printed.antt` says of the answer, behind the name of
//! its question where it has one; as JSON they are one object, printed as the toolchain's `json` prints it, and a line
//! feed. In lines each control character of a host's name is escaped, and of an id for which a line waits
//! (`shown_name` in `trace_names`); texts stand as they are. `lines_of`: the same lines without a name, as text.
//! `count_text`: how many moments were told. `status_of`: 0 where the answer is a moment, or that the conditions must have
//! held at once, and 1 where it isn't. `unknown_text` and `unknown_lines`: what stands in the place of an answer that
//! isn't known, as lines wait at the end of the log (`unknown_bytes`). `told`: what is printed of what was detected, with its
//! status (`Tells` in `specs/Unknown.antt`): an answer with the reasons that it has, or that it isn't known. Any other
//! fault is given back.
#![tactic(auto)]

mod format;
mod lines;
mod objects;
mod printed;
mod reasoned;
mod text;
mod waiting;

pub use format::AnswerFormat;
pub use lines::reasoned_lines;
pub use printed::Printed;
pub use reasoned::{UNKNOWN, reasoned_text, told, waiting_of};
pub use text::{answer_text, count_text, status_of};
pub use waiting::{WaitingLines, unknown_lines, unknown_text};
