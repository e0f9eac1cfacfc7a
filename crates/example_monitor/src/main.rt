//! Two threads that are watched, and a monitor beside the watch, which tells the moment as soon as it is found.
#![tactic(auto)]

use anyhow::Result;
use std::sync::{Mutex, Wait};
use std::thread::sleep;
use std::time::{Clock, Duration};
use wullaphi::{Book, CutAnswer, LentProbe, Loan, Process, plain_plan, wait_for_cut, watch_beside};

/// A process with a handle of its own: it sees a clock and says on standard error that its condition holds.
#[derive(Drop)]
struct Printing<H: Eprint + Clock + Send + Drop> {
    handle: H,
}

impl<H: Eprint + Clock + Send + Drop> Process for Printing<H> {
    type Shared = ();

    type Answer = Result<()>;

    fn run<L: Loan, R: Wait>(self, rt: &R, probe: &mut LentProbe<L>, _shared: &()) -> Result<()> {
        sleep(&self.handle, Duration::from_millis(10));
        probe.observe(rt, true);
        eprintln!(self.handle; "it holds")?;
        Ok(())
    }
}

/// Says what the watch tells of its cut, as soon as it does.
fn monitor<R: Wait + Print + AllocGlobal>(rt: &R, book: &Mutex<Book>) -> Result<()> {
    match wait_for_cut(rt, rt.alloc(), book)?.answer() {
        CutAnswer::Found(cut) => {
            print!(rt; "both could hold at once")?;
            for process in 0..cut.len() {
                if let Some(messages) = cut.get(process) {
                    print!(rt; ", process {process} after {messages} of its messages")?;
                }
            }
            println!(rt; "")?;
        }
        CutAnswer::Nothing => println!(rt; "never at once")?,
        CutAnswer::Undecided => println!(rt; "not known")?,
        CutAnswer::NotRun => println!(rt; "the watch has not run")?,
    }
    Ok(())
}

fn main(rt: HostRuntime) -> Result<()> {
    let plan = plain_plan(rt.alloc(), 2, 64, 64)?;
    let processes = vec![in rt.alloc();
        Printing {
            handle: rt.clone()?
        },
        Printing {
            handle: rt.clone()?
        },
    ]?;
    let (watched, told) = watch_beside(&rt, rt.alloc(), &plan, 1, processes, &(), monitor);
    told?;
    for answer in watched?.answers {
        answer?;
    }
    Ok(())
}
