//! A log that is rewritten line by line, as a reader of the new lines.
//!
//! A rewriter (`Rewrite`) says what each line of a log makes known, and what its end does, in the numbered lines that
//! `trace_log` reads (`LogLayout::Numbered`). `RewritingReader` gives what a rewriter says of the lines of an input.
//!
//! What is proved. `RewritingReader`: the bytes that it gives are what its rewriter says of the input's lines, of a
//! reader that tells its bytes: of those from the form's first line to its last, by their numbers, and of the log's end
//! behind them (`said_remaining` in `specs/Remaining.antt`, `read_lines` and `said_from` in `specs/Given.antt`). A line
//! that is too long is given too where it stands before the first, by its front, and none behind it. After a read that
//! failed, or where memory ran out, none of these bytes is lost: after a read that failed in a line each read fails,
//! and where memory ran out the next read tries again. `Rewrite`: what is said of a line and those behind it is a piece
//! for the line and then what is said of the others from there on, so a rewriter knows no line before it comes.
//!
//! `event_json`: the text of the object of an event's three members (`event_json` in `specs/Lines.antt`).
//! `push_event`: the line that is added says the event, or the fault `long` where it would have more than 65,536 bytes
//! (`event_line`). The log reads it as the line of this number, whose text is a JSON document: the object of these three
//! members, if the clock nests less than 128 deep (`SaysEvent`). `push_fault`: the line that is added names the number
//! and the kind, and its words have no LF (`fault_line`).
//!
//! Said by no clause: that what is said of a line is given before the next line is read, so that an open pipe is
//! answered in time.
#![tactic(auto)]

mod lines;
mod reader;
mod rewrite;

pub use lines::{event_json, push_event, push_fault};
pub use reader::RewritingReader;
pub use rewrite::Rewrite;
