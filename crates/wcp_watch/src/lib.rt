//! A watch that runs: the checker's loop, the threads of its parts, and `settle`, which proves the run's
//! report from the ends of the watch.
//!
//! What is proved. A watch that runs. `check_loop`: its end is of the inbox's lane, each question has taken all that it
//! took, and the report that the end tells of a question is that of all this for the question's own watched processes,
//! exact wherever clocks rise, or, where the question met want of memory, a cut found among this or undecided; unless
//! the lane was cut, of every process the close mark or the mark that it was lost was taken; and it tells the lowest
//! process that was lost, if one was, where no report is that there is no cut; of a book which allows what the first
//! question of the watch reports of this lane, and perhaps nothing else, it needs no more. `settle`: an answer says
//! that the checker took of each process what its probe put, each note once and in order, through every ring and lane
//! of its path, that the report of each question is the exact one by clocks of this, all drained, that the tallies are
//! the counts, and that the book's shares are just these, so that its totals are their sums; each refusal is the first
//! that applies of: an end of another watch or one twice, an end that is missing, an end with a fault, a link that
//! wasn't matched or a share that is another, and there is none where none applies. Its premise is that the ends which
//! carry the watch's number come from its watch. `run_parts`: workers, relays and the checker, each in a thread of its
//! own; an answer has the end of each at the place of its part, and each end is one that its part leaves.
#![tactic(auto)]

mod checker_end;
mod checking;
mod checking_part;
mod ends;
mod lanes;
mod matching;
mod rings;
mod running;
mod seated_ends;
mod seats;
mod settle_fault;
mod settling;
mod shares;

pub use checker_end::{CheckFault, CheckerEnd};
pub use checking::check_loop;
pub use checking_part::Checking;
pub use running::{Ends, Parts, StartFault, run_parts};
pub use settle_fault::SettleFault;
pub use settling::settle;
