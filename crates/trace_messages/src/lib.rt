//! A log without clocks, in which events send and receive messages, rewritten as a log with vector clocks.
//!
//! A line is one JSON object with the texts `host` and `event` and, where the event is one, with `recv`, what it
//! receives, and `send`, what it sends: an id or a list of ids. An id is a text, or a whole number, which counts as the
//! text of its digits; null is no id. An event follows the one before it of its host and each event that sends what it
//! receives. It waits until all of these were given on. An id may be received by many, and is sent once.
//!
//! What is proved. `MessageLog::take`: the event that the line says was read behind those of the lines before, or the
//! line's fault was said, and nothing is behind it: it says no event, or one that sends an id again, which the fault
//! names with the line that sends it first (`SaysFault` in `specs/Lines.antt`). Then each event that waits for none is
//! given on, until each host's first event that waits receives what no event sent that was given on. Of each host the
//! events are given on in their order, each once. For each of them a numbered line is added (`LogLayout::Numbered` of
//! `trace_log`), with the number of its line, its host, its clock and its text (`TakesLine`). What is printed of a clock
//! is read by `trace_log` as that clock, and the clocks of all events that were given on are happened-before: by them
//! one event happened before another
//! (`HappenedBefore` in `trace_moment`) exactly where it is that one or happened before it by the messages and the
//! order along each host (`HaveClocks` in `specs/Named.antt`; Lamport 1978). Which lines say an event, and which have
//! the fault `long` or `text`, and in what words, stands in `specs/Words.antt`.
//!
//! Where lines wait at the end of the log, its fault `waits` is said there: of the first of them, how many they are and
//! for which id that one waits; or the fault `order`, where that is asked for (`end_said` in `specs/Said.antt`). So a
//! log of which lines wait is never read to its end without a fault. With `Unsent::Assumed` the events that wait are
//! given on there, in a copy of the order in which each that waits for a message that no event sends receives nothing
//! (`assumed_said`), and the fault is of those that wait then too. That their clocks are happened-before of the log
//! without these receives is no clause; tests compare them with a search by brute force.
//!
//! Which bytes are said of the lines of a log, and of its end, is a function of these lines (`message_lines` in
//! `specs/Said.antt`). Where memory runs out, the same is left to be said. So a `RewritingReader` of `trace_rewrite`
//! over a `MessageLog` gives these bytes.
#![tactic(auto)]

mod ids;
mod log_end;
mod message_fault;
mod message_log;
mod message_words;
mod printed;
mod unsent;

pub use message_log::MessageLog;
pub use unsent::Unsent;
