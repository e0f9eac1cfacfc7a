//! The search for the earliest moment of a log: an event of each watched host at which its condition holds, so that
//! no state is over where another begins.
//!
//! What is proved. A search takes the events of the watched hosts as the log has them, and whether the condition of
//! its host holds at each. `Search::take`, where the clock of each event follows that of its host's event before, as
//! the reader of `trace_log` tells: it answers that the moment is known exactly where one is, which is the earliest of
//! what was taken and stays it whatever follows (`HasTaken` in `specs/Search.antt`). From then on it takes events
//! without memory, and nothing of the search changes. Where memory runs out, the search has taken what it had taken
//! before. `Search::end`: the earliest moment of what was taken is known, or there is none. `Search::event`: the
//! lines and the texts of the events of the moment that is known. `Search::go_on`, where nothing was taken after the
//! moment was known: the search goes on with what lies behind it, as if no condition had held up to its events, and
//! knows the next moment exactly where one is. What a moment is, when a state is over and which one is the earliest
//! stand in `specs/Moment.antt`, what lies behind a moment in `specs/Behind.antt`.
//!
//! Of an event whose state waits a search keeps the line, the text and the numbers of the watched hosts alone
//! (`specs/Kept.antt`).
#![tactic(auto)]

mod candidate;
mod elimination;
mod next_moment;
mod queue;
mod search;
mod watched;

pub use candidate::KeptEvent;
pub use search::Search;
pub use watched::{Lasting, WatchedHost};
