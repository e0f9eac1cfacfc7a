//! A pool of replicas that is watched while it works: could all its replicas be at work in one moment? With
//! the word `safe` the dispatcher waits for each answer before it gives out the next job, and with the word `lost` the
//! last replica vanishes.
//!
//! What is proved. A pool of replicas that is watched while it works, by public calls alone. A replica that did its
//! part emitted what the probe of a replica does: for each of its jobs, one in each round, a receive, a true
//! observation, a send. The dispatcher's log has behind each send and each receive an observation of whether a job is
//! unanswered; it has as many answers as rounds times replicas, and ends with no job unanswered; there never are more
//! unanswered than replicas, and in turn never more than one. The stamps in these logs have a component for each
//! process. `run_pool`, where it answers: there are four such logs of its pace and its rounds, the dispatcher's and
//! three replicas'; its report is the exact one by clocks, all drained, of what probes emit on them, whatever the
//! schedule; the shares count the jobs of these logs, the tallies their snapshots, emitted and taken, of which a
//! replica has one for each job, and the totals are the sums. A job's answer is the sum of its numbers, modulo 2^64.
//! That threads were started, which stamps and jobs came, that the stamps went with the real messages, what was read
//! beside the run, which fault comes, and what is told where a replica vanished, no clause says.
#![tactic(auto)]

mod dispatcher;
mod job;
mod member;
mod opening;
mod pool;
mod pool_fault;
mod pool_text;
mod program;
mod replica;

use crate::program::run_program;
use std::process::ExitCode;

fn main(rt: HostRuntime) -> ExitCode {
    ExitCode::from(run_program(&rt))
}
