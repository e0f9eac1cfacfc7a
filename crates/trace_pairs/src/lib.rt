//! The search for the earliest moment of any two of the hosts of a log whose names match an expression.
//!
//! What is proved. `PairSearch::take`, over the events of a log one after another, where the clock of each follows that
//! of its host's event before, as the reader of `trace_log` tells (`TellsNext` in `specs/Searching.antt`). The hosts
//! are those whose names match, in the order of their first events. What is so of two of them is said by what
//! `trace_moment` says of these two alone, each under the same condition (`specs/Taking.antt`): which events a search
//! of theirs takes, which moments there are, which one is known. It answers at the first event with which a moment of
//! any two is known, and never before. The moment is that of the first two of which one is known, by the first of the
//! two and then by the second; it is known whatever comes later, and told by the hosts, the lines and the texts of its
//! two events (`specs/Pairs.antt`). `PairSearch::end`: the earliest moment of the first two hosts that have one, or
//! none where no two have one. `PairSearch::counts`: how many events each host has, and at how many the condition
//! holds. A host that comes late may be in a moment with states that came long before it.
//!
//! For the hosts that haven't come, of each host the events are kept at which the condition holds, the one right behind
//! each of them, which ends its state, and the last one, each with its whole clock. That what is left out changes no
//! moment, nor what may follow, is proved (`specs/Thinned.antt`). An event is taken by one search for each other host.
//!
//! `read_hosts_condition`: the hosts and the expressions are those that the words say, by one definition (`hosts_said`
//! in `specs/Words.antt`). `Usage` comes exactly where the words say none, unless memory ran out; `Expression` for the
//! first expression that wasn't read.
//!
//! Said by no clause: when memory runs out.
#![tactic(auto)]

mod clocks;
mod hosts;
mod hosts_condition;
mod hosts_saying;
mod kept;
mod kept_taken;
mod moment;
mod pair_search;
mod rows;

pub use hosts_condition::{HostsCondition, read_hosts_condition};
pub use moment::{MatchedCount, PairMember, PairMoment};
pub use pair_search::PairSearch;
