//! The search for runs of a log's watched hosts that must have overlapped, while the log is read.
//!
//! What is proved. A search takes the events of the watched hosts as the log has them, and whether the condition of its
//! host holds at each. `RunSearch::take`, where the clock of each event follows that of its host's event before, as the
//! reader of `trace_log` tells: it answers that runs are known exactly at the first event at which some are. Runs are
//! known if they are the least ones that overlap, and stay it whatever follows; none are where the log may go on so
//! that no runs overlap (`specs/Runs.antt`). So a run needs no end where a later event of its host, in the run, knows
//! that the others have begun. From then on the search takes events without memory, and nothing of it changes. Where
//! memory runs out, it has taken what it had taken before. `RunSearch::end`: the least runs of what was taken that
//! overlap are known, or no runs overlap. `RunSearch::run`: the line and the text of the first event of each of these
//! runs, and the line of the event at which it is over, if it is. What runs are, and when they overlap, stands in
//! `trace_definitely`, with the law that the conditions must have held at once exactly where such runs are.
//!
//! Of the hosts' runs those are kept that may be among the ones that overlap (`specs/Keeping.antt`): of its first event
//! the line, the text and its number, and once it is over the numbers of the watched hosts in the clock of the event
//! that ends it. The states of all watched hosts count as lasting until their next events.
#![tactic(auto)]

mod elimination;
mod kept;
mod queue;
mod search;
mod standing;
mod taking;

pub use kept::KeptRun;
pub use search::RunSearch;
