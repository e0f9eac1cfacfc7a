//! A watch of threads of your own, in one call: each process is run with a probe that it is lent, and what all of them
//! leave proves the report.
//!
//! What is proved. The one crate of a program that watches threads of its own. `watch_questions` opens the tree of a
//! plan, runs each process in a thread with the probe that it is lent, each relay and the checker, closes, joins and
//! settles. Where it answers: there is a log of each process's probe, which is of the watch of the number that was
//! given, what the checker took of it are all its notes, once and in order, the report of each question is the exact
//! one by clocks of all that, for the question's own watched processes, all drained, the tallies are the counts, and
//! what each process gave back stands at its place. A plan with a fault, another number of processes than the plan's,
//! and a question that the plan can't be asked are answered exactly where they apply. `watch_processes` asks one
//! question, of all processes that the plan watches. `LentProbe`, per call: the call of a live probe, where nothing is
//! ever pending. A lent probe can't be dropped or closed by who has it. Where an impl of `Process` says how its probe
//! stands as it answers, the answer says it too. A `LosableProcess` says which answers mean that its part is done: then
//! its probe is closed, and else it is dropped. Where the watch answers, all are done. Where it answers that a process
//! was lost, that is the lowest whose answer says that it isn't done; there are the items that the checker took, by
//! which it is the lowest too, of each process up to its close mark or the mark that it was lost, and the report is
//! that of these, and never that there is no cut. That these are what the processes had put no clause says. What its
//! threads did beside their probes no clause says, nor what becomes of the book, which is under a lock. `wait_for_cut`
//! gives what its book was told, or `NotRun`: a `Book<A>` tells what `A` allows, whatever that is, and the checker's
//! loop tells it no report but its checker's. That a watch tells its book of the cut, and ends it, is tested.
//! `watch_beside` answers what `watch_processes` does, and what its monitor answered; that the monitor runs meanwhile,
//! and is given the watch's book, is tested.
//!
//! `WatchOutcome::push_report`: the exact bytes, by what was counted of the processes. That the counts say what the
//! processes did is tested.
//!
//! `send` and `recv` of a lent probe go through a channel. Proved is what each adds to the log of the probe, which refusal
//! of the probe it tells, and what it hands back. That the channel gets what was stamped, and which message comes, no
//! clause says, nor when an end of the channel is gone: these are tested.
//!
//! `Meeting::arrive` observes that the condition holds, and then waits; proved is that it adds that observation to the
//! log of the probe, and nothing else. So a process that waits stands between a true observation and its next call. What
//! the attendance under the meeting's lock tells of the steps that it took is proved (`wcp_meeting`): all have met exactly
//! where all members were there at one point; and so is at which places a member waits (`MeetingPlace::waits_at`). That
//! `arrive` takes these steps, who wakes whom, and which place a meeting keeps for whom, is tested.
//!
//! `WatchedMutex`, `WatchedOnce` and `WatchedQueue` order processes, and the watch sees it: who lets go, writes, puts
//! or gets leaves an open stamp, and who comes next takes it. Proved is what each call adds to the log of its probe,
//! and where it is refused, which refusal of a stamp that was, with what was done before. A lock's guard shows the stamp
//! that was taken, and the one that is left is that of the probe's last event; an event of another process that the
//! clock counts already is passed over, and adds nothing. Where an impl of `Critical` says what it does to its probe,
//! `with` says that it came between the two stamps. That the stamp under a lock is that of who had it last no clause
//! says, nor that a stamp of an ended watch counts as none, nor whose stamp a cell or a queue gives: these are tested.
//! So is which condition lasts: no clause speaks of what `hold` and `let_go` change.
//!
//! `OpenWatch::open` is for who runs the threads: a plan's fault is answered exactly where it applies, and `parts`
//! hands out just the probes and relays of the tree that was opened. The types of the parts, and of what each leaves as
//! it has run, keep that they are of that watch. So `WatchEnds::settle` has no premise: an answer is the exact report
//! of what the probes emitted whose ends were added, and a refusal is the first reason that applies, where an end of
//! the checker that wasn't added counts as missing, and so does that of a probe that was dropped. That the parts run,
//! and in which threads, is left to the caller.
#![tactic(auto)]

mod beside;
mod channel_fault;
mod channels;
mod holding;
mod left_stamp;
mod lending;
mod lent_probe;
mod meeting;
mod open_messages;
mod opening;
mod own_ends;
mod own_parts;
mod probe_counts;
mod process;
mod process_counts;
mod questions;
mod queue_places;
mod refused_plan;
mod run_counts;
mod run_message;
mod seat;
mod waiting;
mod warnings;
mod watch_fault;
mod watch_outcome;
mod watch_run;
mod watched_guard;
mod watched_lock;
mod watched_once;
mod watched_queue;
mod watching;

pub use beside::watch_beside;
pub use channel_fault::ChannelFault;
pub use lent_probe::{LentProbe, Loan};
pub use meeting::Meeting;
pub use opening::{OpenWatch, Opening, WatchParts};
pub use own_ends::{WatchCheckerEnd, WatchEnds, WatchProbeEnd, WatchRelayEnd};
pub use own_parts::{WatchChecker, WatchProbe, WatchRelay};
pub use process::{LosableProcess, Process};
pub use process_counts::ProcessCounts;
pub use refused_plan::RefusedPlan;
pub use waiting::{TellsNews, wait_for_cut};
pub use watch_fault::WatchFault;
pub use watch_outcome::WatchOutcome;
pub use watched_guard::WatchedGuard;
pub use watched_lock::{Critical, WatchedMutex};
pub use watched_once::WatchedOnce;
pub use watched_queue::WatchedQueue;
pub use watching::{watch_processes, watch_questions};
pub use wcp_book::{Answers, AnyAnswer, Book, CutAnswer, ToldAnswer};
pub use wcp_clock::Clock;
pub use wcp_meeting::{Attendance, Gathering, MeetingPlace, Present};
pub use wcp_model::{
    Flag, GlobalCut, Outcome, Parent, Plan, PlanFault, Report, Tallies, Tally, Watched, plain_plan,
};
pub use wcp_probe::{OpenStamped, Refusal, Stamped};
pub use wcp_report::{push_report, report_text};
pub use wcp_tree::LiveProbe;
pub use wcp_watch::SettleFault;
