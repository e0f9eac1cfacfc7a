//! The earliest moment of a log at which the conditions of all its watched hosts hold, while the log comes in.
//!
//! What is answered at the end of a log, where no host has two conditions (`AnswersLast` in `specs/Detection.antt`):
//! the earliest moment of all events; or that there is none, where each watched host logs something, with how often
//! each condition held; or the first watched host that logs nothing, where there is no moment. `specs/Told.antt` says
//! what an answer tells. Which events a log has, when a condition holds and what a moment is are said by `trace_log`,
//! `trace_condition` and `trace_moment`.
//!
//! What is proved. `Watcher`: what the search knows of the events that it took (`IsWatching` in `specs/Watcher.antt`),
//! and what `found_answer` and `last_answer` tell of it.
//!
//! `RunWatcher`: beside it the search for runs that must have overlapped (`trace_runs`), by the same conditions, and what
//! `found` and `last` tell of it (`specs/RunWatcher.antt`, `specs/Definite.antt`).
//!
//! `Moments`: the moments of one log, one behind the other. Each answer of `next_moment` is the earliest of those that
//! begin, at each host, behind the one told before, and comes at the first event at which it is known. At the end of
//! the log the last ones come, and then there is none (`specs/Moments.antt`).
//!
//! `Recording`: a watcher that keeps what it takes, where reasons are asked for (`specs/Recording.antt`). `found` and
//! `last` answer as `found_answer` and `last_answer` do, and say why the answer stands: an explanation as
//! `trace_explain` makes it, of what the search takes of exactly the events that were taken (`IsWhySo` in
//! `specs/Reasons.antt`).
//!
//! Said by no clause: which reads fail, when memory runs out, and what a listener is told.
#![tactic(auto)]

mod answer;
mod detection;
mod fault;
mod judged;
mod listener;
mod moments;
mod reasons;
mod recording;
mod run_watcher;
mod tally;
mod told;
mod watcher;

pub use answer::{HostCount, HostRun, MomentMember, ReasonedAnswer, TraceAnswer};
pub use fault::DetectFault;
pub use listener::{Listener, WatchedHosts};
pub use moments::Moments;
pub use recording::Recording;
pub use run_watcher::RunWatcher;
