ghost use Rattle.std.specs.Prelude.{IfOk};
ghost use Rattle.wcp_run.specs.PlayedEnds.{AreOfWorkers};

use crate::run_fault::RunFault;
use std::alloc::Global;
use wcp_tree::ProbeEnd;
use wcp_worker::{Mailbox, WorkerEnd};

/// What workers leave that all played to their end, by the numbers of their processes.
#[derive(Drop)]
pub struct PlayedEnds {
    pub(crate) probes: Vec<ProbeEnd>,
    pub(crate) mailboxes: Vec<Mailbox>,
}

/// Takes the ends of workers apart. `Err` where one of them gave up, or memory runs out.
pub(crate) fn take_apart(alloc: Global, workers: Vec<WorkerEnd>) -> Result<PlayedEnds, RunFault>
    ensures { IfOk result (AreOfWorkers workers.items) }
{
    let Ok(mut probes) = Vec::with_capacity(alloc, workers.len()) else {
        return Err(RunFault::Memory);
    };
    let Ok(mut mailboxes) = Vec::with_capacity(alloc, workers.len()) else {
        return Err(RunFault::Memory);
    };
    for worker in workers {
        let WorkerEnd::Whole { probe, mailbox } = worker else {
            return Err(RunFault::Unfinished);
        };
        let (Ok(()), Ok(())) = (probes.push(probe), mailboxes.push(mailbox)) else {
            return Err(RunFault::Memory);
        };
    }
    Ok(PlayedEnds { probes, mailboxes })
}
