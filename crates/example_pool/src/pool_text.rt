//! What a run of the pool prints.
use crate::dispatcher::REPLICAS;
use crate::pool::PoolReport;
use std::alloc::{AllocError, Global};
use wullaphi::{GlobalCut, Report, push_report};

/// Each replica's share of the work, the report, and the moment in words.
pub(crate) fn pool_text(alloc: Global, run: &PoolReport) -> Result<String, AllocError> {
    let mut text = String::new(alloc);
    push_shares(&mut text, run)?;
    let (emitted, taken) = (run.totals.emitted, run.totals.taken);
    writeln!(text, "the book has {emitted} emitted, {taken} taken")?;
    let (emitted, taken) = (run.seen.emitted, run.seen.taken);
    writeln!(
        text,
        "read beside the run: {emitted} emitted, {taken} taken"
    )?;
    push_report(&mut text, &run.outcome)?;
    push_known(&mut text, &run.outcome.report)?;
    Ok(text)
}

/// The process that was lost, and what is known of the moment.
pub(crate) fn lost_text(
    alloc: Global,
    process: u32,
    report: &Report,
) -> Result<String, AllocError> {
    let mut text = String::new(alloc);
    writeln!(text, "process {process} was lost")?;
    push_known(&mut text, report)?;
    Ok(text)
}

/// What is known of the moment at which all replicas were at work.
fn push_known(text: &mut String, report: &Report) -> Result<(), AllocError> {
    match report {
        Report::Found(cut) => push_moment(text, cut),
        Report::Nothing => text.push_str("the replicas were never all at work at once\n"),
        Report::Undecided => {
            text.push_str("it isn't known whether they were all at work at once\n")
        }
    }
}

fn push_shares(text: &mut String, run: &PoolReport) -> Result<(), AllocError> {
    for (process, share) in run.shares.iter().enumerate() {
        let (jobs, sum) = (share.jobs, share.sum);
        if process == 0 {
            writeln!(text, "the dispatcher has {jobs} answers, sum {sum}")?;
        } else {
            writeln!(text, "replica {process} did {jobs} jobs, sum {sum}")?;
        }
    }
    Ok(())
}

/// The moment at which all replicas were at work. A replica's sends and receives alternate, and before each is a job.
fn push_moment(text: &mut String, cut: &GlobalCut) -> Result<(), AllocError> {
    text.push_str("the replicas were all at work at once:")?;
    for replica in 1..cut.len() {
        if let Some(events) = cut.get(replica) {
            let job = u64::from(events / 2) * u64::from(REPLICAS) + u64::from(replica);
            write!(text, " replica {replica} on job {job},")?;
        }
    }
    match cut.get(0) {
        Some(events) => writeln!(text, " after {events} sends and receives of the dispatcher"),
        None => writeln!(text, " whatever the dispatcher did"),
    }
}
