use crate::refused_plan::RefusedPlan;
use std::alloc::{AllocError, AllocFailed};
use thiserror::Error;
use wcp_model::Report;
use wcp_watch::{SettleFault, StartFault};

/// Why a watch tells nothing. With `Plan`, `Count`, `NoQuestion`, `Question`, `BookInUse` and `Spawn` no process has
/// run.
#[derive(Clone, Copy, Debug, PartialEq, Eq, Error)]
pub enum WatchFault {
    /// The plan has a fault.
    #[error("plan: {0}")]
    Plan(RefusedPlan),
    /// There are more or fewer processes than the plan says.
    #[error("not as many processes as the plan says")]
    Count,
    /// There is no question.
    #[error("no question")]
    NoQuestion,
    /// This question, the first such one, watches nobody, or a process that the plan doesn't watch.
    #[error("question {0} watches nobody, or a process that the plan doesn't watch")]
    Question(usize),
    /// Another watch that runs has the book.
    #[error("another watch that runs has the book")]
    BookInUse,
    /// Memory ran out, before a process ran, as the checker took a snapshot, or as the answers were put together.
    #[error("memory")]
    Memory,
    /// A thread couldn't be made.
    #[error("spawn")]
    Spawn,
    /// A process was lost: its part wasn't done.
    #[error("process {process} was lost")]
    Lost {
        /// The lowest process that was lost.
        process: u32,
        /// What the snapshots that the checker took tell: their cut, or that it isn't known whether there is one.
        report: Report,
    },
    /// What the watch left doesn't prove its report.
    #[error("{0}")]
    Settle(SettleFault),
}

impl From<AllocError> for WatchFault {
    ghost use Rattle.std.specs.Prelude.{◌≡◌};
    ghost use Rattle.wullaphi.specs.declared.watch_fault.WatchFault.TheVariants.{Memory};

    ghost from_gives = { λ _ fault. fault ≡ Memory };

    fn from(_error: AllocError) -> WatchFault {
        WatchFault::Memory
    }
}

impl<T: Drop> From<AllocFailed<T>> for WatchFault {
    ghost use Rattle.std.specs.Prelude.{◌≡◌};
    ghost use Rattle.wullaphi.specs.declared.watch_fault.WatchFault.TheVariants.{Memory};

    ghost from_gives = { λ _ fault. fault ≡ Memory };

    fn from(_error: AllocFailed<T>) -> WatchFault {
        WatchFault::Memory
    }
}

impl From<StartFault> for WatchFault {
    ghost use Rattle.std.specs.Prelude.{◌≡◌};
    ghost use Rattle.wullaphi.specs.Refused.{of_start};

    ghost from_gives = { λ start fault. fault ≡ of_start start };

    fn from(fault: StartFault) -> WatchFault {
        match fault {
            StartFault::Memory => WatchFault::Memory,
            StartFault::Spawn => WatchFault::Spawn,
        }
    }
}

impl From<SettleFault> for WatchFault {
    ghost use Rattle.std.specs.Prelude.{◌≡◌};
    ghost use Rattle.wullaphi.specs.declared.watch_fault.WatchFault.TheVariants.{Settle};

    ghost from_gives = { λ refused fault. fault ≡ Settle refused };

    fn from(fault: SettleFault) -> WatchFault {
        WatchFault::Settle(fault)
    }
}
