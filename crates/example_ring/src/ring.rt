use crate::worker::{RingWorker, Token};
use anyhow::Result;
use crossbeam_channel::bounded;
use std::alloc::{AllocError, Global};
use std::sync::{Arc, Mutex, Wait};
use std::thread::Threads;
use std::time::Clock;
use wullaphi::{Book, Meeting, Report, Watched, plain_plan, watch_questions};
use wullaphi_record::Record;

const ROUNDS: u32 = 2;

/// Each two of the three workers.
pub(crate) const PAIRS: [(u32, u32); 3] = [(0, 1), (0, 2), (1, 2)];

/// Runs a ring of three with one token or two, and asks of each two workers whether they could have held one at once.
/// Where there is a meeting its members try to hold one there at once. It also gives the record of each worker.
pub(crate) fn run_ring<R: Threads + Wait + Clock + Send + Sync + Clone + Drop + 'static>(
    rt: &R,
    alloc: Global,
    two: bool,
    meeting: Option<&Arc<Meeting>>,
) -> Result<(Vec<Report>, Vec<Record>)> {
    let (to_1, at_1) = bounded(alloc, 2)?;
    let (to_2, at_2) = bounded(alloc, 2)?;
    let (to_0, at_0) = bounded(alloc, 2)?;
    let tokens = if two { 2 } else { 1 };
    let mut workers = Vec::with_capacity(alloc, 3)?;
    for (id, inbox, next, outbox) in [(0, at_0, 1, to_1), (1, at_1, 2, to_2), (2, at_2, 0, to_0)] {
        workers.push(RingWorker {
            alloc,
            lets_in: if id == 0 { tokens } else { 0 },
            token: Token(3 * ROUNDS),
            turns: tokens * ROUNDS,
            inbox,
            next,
            outbox,
            meeting: shared(meeting)?,
            handle: rt.clone()?,
        })?;
    }
    let plan = plain_plan(alloc, 3, 64, 64)?;
    let questions = PAIRS.map(|(a, b)| Watched::pair(a, b));
    let book = Mutex::new(Book::new(3));
    let watched = watch_questions(rt, alloc, &plan, 1, &questions, workers, &(), &book)?;
    let mut records = Vec::with_capacity(alloc, 3)?;
    for answer in watched.answers {
        records.push(answer?)?;
    }
    Ok((watched.reports, records))
}

/// The same meeting, for one process more.
fn shared(meeting: Option<&Arc<Meeting>>) -> Result<Option<Arc<Meeting>>, AllocError> {
    match meeting {
        Some(meeting) => Ok(Some(Arc::try_clone(meeting)?)),
        None => Ok(None),
    }
}
