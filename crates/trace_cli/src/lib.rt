//! The program `wcptrace` as a function from words and bytes to bytes and a status.
//!
//! What is proved. `drive`, over a reader and a writer that tell their bytes: on status 0 or 1 exactly the answer to
//! what the words ask for was appended to the output, and nothing to the errors; on status 2 it was printed that the
//! answer isn't known, which comes only where lines wait at the end of the log and no moment was known of the others
//! (`Tells` of `trace_text`), or nothing, or a prefix of either where a write failed; on status 141, which
//! comes only where a write failed, a prefix of the answer was appended, and nothing to the errors. Where the words
//! ask to watch a log, 0 means that the earliest moment was printed: at the first event at which it is known, which
//! stays it whatever comes after, and no line was taken behind the one that ends this event; or that the whole input
//! was read, no moment was known of it, and it is the earliest of all its events. 1 means that the whole input was
//! read, that there is no moment, and that each watched host logs something: that was printed, with how often each
//! condition held. At most 65,536 bytes are read ahead of the lines. Which lines and events an input has, when a
//! condition holds and what a moment is are said by `wcp_io`, `trace_log`, `trace_condition` and `trace_moment`. Help
//! and the version read nothing.
//!
//! Where the words ask for a page or a picture, it is that of this answer (`IsLogShown` of `trace_pages`), to the log as
//! far as it was read when the answer was known. A log is answered only where the words go together (`go_together` of
//! `trace_words`). Of the log the lines from `--from-line` to `--to-line` are read, with the numbers that they have in
//! it.
//!
//! Where a file asks questions, they are those that the file says, and what was appended to the output are answers, one
//! behind another, each behind the name of its question (`HasTold` in `specs/Questions.antt`): each is what is answered
//! to that question alone, and no question is answered twice. Where one asks whether its conditions must have held at
//! once, an event that forgets is a fault for all of them (`form_for` in the same file). Where one of them is named, it
//! is asked alone (`ArePicked` there), and a page or a picture may show its answer (`ShowsOne`). On status 0 and 1 all were
//! answered, 0 where a moment was found or there must have been one. On status 2 a question has no answer, or a fault
//! ended the run: then the answers so far stand, and behind them, where lines wait, of each other question that it
//! isn't known; or a prefix of them where a write failed, as on status 141.
//!
//! Where each moment is asked for, what was appended are the moments, one behind another: each is the earliest of
//! those that begin, at every host, behind the one before (`HasToldAll` in `specs/EachMoment.antt`). On status 0 the
//! log was read to its end and has none behind the last, and how many they are was appended; on status 1 it has none,
//! and what is answered without that option was. On status 2 the moments so far stand, behind which it was appended
//! that more aren't known, where lines wait, or a prefix of them where a write failed.
//!
//! Where it is asked whether the conditions must have held at once, the answer is that they must, with the least runs of
//! the hosts of which each begins before any other one is over; or that no runs are so, with the earliest moment, or that
//! there is none (`TellsRuns` and `IsLastDecision` in `specs/Definite.antt` of `trace_detect`). It comes at the first
//! event at which it is known that they must. Then an event that forgets is a fault.
//!
//! Where a schedule is asked for, the answer to a moment lists in its place the events that happened before its members,
//! and the members, each once, and none behind one that it happened before (`Lists` of `trace_schedule`). Status 2 comes
//! also where clocks contradict each other.
//!
//! Where it is asked why the answer stands, sentences were printed behind it that are so of the events that were read
//! (`IsWhyOf` of `trace_asking`). Where any two hosts are asked about, the answer is that of two hosts as
//! if they were asked for alone: of the first two of which a moment is known, at the first event at which one is, or
//! that no two have one (`IsLastOfTwo` of `trace_asking`). As JSON each answer is one object, which has the same
//! members (`bytes_of` of `trace_text`).
//!
//! What the words ask for is said by `trace_words`.
//!
//! A reader that tells has the bytes left that its input has, so what is proved of the program over known bytes holds
//! over it. So it does over a `LogReader`: the bytes of a log that is read as it stands are those of its input, those
//! of a log in another spelling are the numbered lines that its spelling says of the input's lines, and those of a log
//! without clocks the numbered lines that say its events with the clocks that their messages make (`read_as` in
//! `specs/Respelled.antt`). `LogSpelling::asked_for`: a log is said anew only as the words say (`IsSaidFor` there).
//!
//! Tested, and said by no clause: that the reader reads the file that they name, that 141 is given exactly where the
//! writer's fault is a closed pipe, that the program reads a log by the spelling that was asked for, what is told of a
//! log that is being read, and when, that an expression is refused by its option, with which line of the log the answer
//! to a file's question is written, which expressions match no event, and what `AnswerWriter` changes of an answer:
//! control characters on a terminal, and what JSON says of such expressions.
#![tactic(auto)]

mod answer_writer;
mod answering;
mod asked;
mod audience;
mod conditions;
mod detecting;
mod each_moment;
mod ends;
mod expressions;
mod fault;
mod file_page;
mod first_hosts;
mod notes;
mod program;
mod question_file;
mod respelled;
mod shown_names;
mod spelling;
mod teller;
mod telling_reader;
mod unmatched;
mod whole_reader;

pub use answer_writer::{AnswerWriter, Shows};
pub use asked::{asked_questions, read_file};
pub use audience::Audience;
pub use ends::{EndExpressions, may_lack_ends};
pub use expressions::check_expressions;
pub use fault::TraceFault;
pub use notes::Notes;
pub use program::{drive, refuse};
pub use respelled::LogReader;
pub use spelling::LogSpelling;
pub use teller::ProgressTeller;
pub use telling_reader::TellingReader;
pub use unmatched::Unmatched;
pub use whole_reader::WholeReader;
