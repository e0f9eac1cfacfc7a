//! Several questions about one log, which is read once.
//!
//! What is proved. `Asking`, over any source of events: each answer of `next_answer` is what is answered to that
//! question alone (`AnswersOf` in `specs/Answered.antt`). It comes at the event at which the moment becomes known,
//! behind which the source gave none, or at the end of the log. Each question is answered once, or a fault of the log
//! ends those that no answer was given to (`specs/Asking.antt`).
//!
//! Of a log with clocks (`Clocked` of `trace_source`) these are the answers by its bytes (`Answers` in
//! `specs/OfBytes.antt`): an answer comes at the first event at which one is known, no earlier and no later, and no
//! line is taken behind the one that ends it; none was known without this event. Of hosts it is the earliest moment of
//! the events so far, which stays it whatever comes after them. Where none is known of all events, the log was read to
//! its last line and may end there: the answer is what `trace_detect` says of them all. A fault of the log is answered
//! only where the log has it first, and no answer was known of the events before it.
//!
//! Where it is asked whether conditions must have held at once, the answer is the least runs that overlap, or at the
//! end that no runs do (`specs/Definite.antt` of `trace_detect`). Where the reasons are asked for of an answer about
//! hosts, its text explains exactly the events that were read (`TellsKnownSo`, `TellsLastSo` in `specs/Seeking.antt`).
//!
//! Of any two hosts is so what would be so of these two if they were asked for alone, each under the same condition;
//! which hosts there are, and in which order, is said by the first event of each. The answer comes at the first event at
//! which a moment of two hosts is known, no earlier and no later: it is the earliest of those two hosts, whatever comes
//! after this event, no moment of any two was known without it, and of no two that come before these two one is known
//! with it. Where none is known of all events, the answer is the earliest moment of the first two hosts that have one;
//! or that no two have one, with how many events each host that matches has, and at how many the condition holds; or
//! that no host matches.
//!
//! `ask`, over a reader that tells its bytes: what is answered to a question alone, by these bytes. At most 65,536 bytes
//! are read ahead of the lines. `ask_on`: the same, and then as many events more are read as are wanted; or fewer, where
//! the log ends behind them, or a fault comes, which changes no answer. It tells exactly how many they were, and which of
//! these it was (`specs/ReadingOn.antt`).
//!
//! Said by no clause: in which order answers of one event come, which reads fail, when memory runs out, and what a
//! listener is told: each event, with the hosts of the first question, where that names its hosts.
#![tactic(auto)]

mod asked;
mod asking;
mod one;
mod question;
mod reading_on;
mod seeker;
mod two_hosts;

pub use asking::{Asking, QuestionAnswer};
pub use one::{ask, ask_on};
pub use question::{Question, Subject};
pub use reading_on::{Behind, ReadOn, Sighting};
