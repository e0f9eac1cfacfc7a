//! Other spellings of logs, read as numbered lines.
//!
//! A spelling (`Spelling`) finds the parts of an event by the groups `host`, `clock` and `event` of a regular
//! expression, in one line or several, or by the members of JSON lines. Its rewriter (`SpellingRewriter`, a `Rewrite`
//! of `trace_rewrite`) says each event in a numbered line.
//!
//! What is proved. `SpellingRewriter`: what is said of the lines of a log and of its end is what the definitions give
//! (`said_lines` in `specs/Said.antt`): lines wait until they are as many as an event has; then, joined by LF, they are
//! the event that they spell (`specs/Ways.antt`), with the number of the line in which its text begins; where they
//! spell none, the first of them is passed over, or has the fault `text`, whose words say what they lack
//! (`specs/Unmatched.antt`). A line that is too long has the fault `long`,
//! and lines that wait at the end of the log are passed over or have the fault `text`. Where memory runs out, a
//! rewriter is as before. By an expression, an event is that of its first match, in which all three groups took part
//! (`specs/Parsers.antt`); by members, that of a JSON document whose member for the host and for the text is a text
//! (`specs/Fields.antt`), and of a name that stands twice in an object the last counts. A clock that is a text is the
//! JSON object that the text is, if it is one, and else the text, which `trace_log` refuses. `Spelling::by_parser`: the
//! groups are those with these names, the pattern is what the grammar of regular expressions reads in its text, and an
//! event has as many lines as was said, or one more than the expression names ends of lines (`HasParser` in
//! `specs/Spellings.antt`). `Spelling::by_fields`: the members are those with these names (`HasFields`).
//! `Spelling::rewriter`: it begins before the first line, with the rule of its spelling.
//!
//! Tested alone: which braces of an expression are bare, as ShiViz writes them, and are read as `\{`; where the dots of
//! a member's name part it; how many lines were passed over.
#![tactic(auto)]

mod braces;
mod breaks;
mod clock;
mod fault;
mod fields;
mod finder;
mod groups;
mod naming;
mod parser;
mod rewriter;
mod spelling;
mod unmatched;
mod waiting;

pub use fault::SpellingFault;
pub use rewriter::SpellingRewriter;
pub use spelling::{FieldNames, Spelling};
