//! Two threads that are watched: could both be busy in one moment?
#![tactic(auto)]

use anyhow::Result;
use crossbeam_channel::{Receiver, Sender, bounded};
use std::sync::{Mutex, Wait};
use wullaphi::{Book, LentProbe, Loan, Process, Stamped, plain_plan, watch_processes};

/// The author sends a letter to the printer and goes on with the next. The condition of each is that it is busy.
#[derive(Drop)]
enum Clerk {
    Author(Sender<Stamped<u32>>),
    Printer(Receiver<Stamped<u32>>),
}

impl Process for Clerk {
    type Shared = ();

    type Answer = Result<()>;

    fn run<L: Loan, R: Wait>(self, rt: &R, probe: &mut LentProbe<L>, _shared: &()) -> Result<()> {
        match self {
            Clerk::Author(letters) => probe.send(rt, &letters, 1, 7)?,
            Clerk::Printer(letters) => {
                probe.recv(rt, &letters)?;
            }
        }
        probe.observe(rt, true);
        Ok(())
    }
}

fn main(rt: HostRuntime) -> Result<()> {
    let (to_printer, letters) = bounded(rt.alloc(), 1)?;
    let clerks = vec![in rt.alloc(); Clerk::Author(to_printer), Clerk::Printer(letters)]?;
    let plan = plain_plan(rt.alloc(), 2, 64, 64)?;
    let book = Mutex::new(Book::new(2));
    let watched = watch_processes(&rt, rt.alloc(), &plan, 1, clerks, &(), &book)?;
    let mut report = String::new(rt.alloc());
    watched.push_report(&mut report)?;
    for answer in watched.answers {
        answer?;
    }
    rt.print(report.as_str())?;
    Ok(())
}
