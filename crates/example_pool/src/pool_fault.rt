use crate::member::Stop;
use std::alloc::{AllocError, AllocFailed};
use thiserror::Error;
use wullaphi::{Report, SettleFault, WatchFault};

/// Why a run of the pool tells nothing. It displays as its line on standard error, without the program's name.
#[derive(Clone, Copy, Debug, PartialEq, Eq, Error)]
pub enum PoolFault {
    /// The words after the program's name ask for nothing that it knows.
    #[error("usage: [safe | lost]")]
    Usage,
    /// Memory ran out before a thread was started, or as the answer was put together.
    #[error("memory")]
    Memory,
    /// The watch was refused: its plan has a fault or isn't for this pool, or another watch that runs has its book.
    #[error("plan")]
    Plan,
    /// A thread couldn't be made; all parts were let go.
    #[error("spawn")]
    Spawn,
    /// The member of this process, the lowest such one, stopped before its part was done.
    #[error("process {0}: {1}")]
    Stopped(u32, Stop),
    /// The member of this process, the lowest such one, vanished in the middle of its work.
    #[error("process {process} was lost")]
    Lost {
        process: u32,
        /// What is known of the moment.
        report: Report,
    },
    /// The ends of the watch don't prove its report.
    #[error(transparent)]
    Settle(SettleFault),
    /// Writing the output failed.
    #[error("write")]
    Write,
}

impl From<AllocError> for PoolFault {
    fn from(_error: AllocError) -> PoolFault {
        PoolFault::Memory
    }
}

impl<T: Drop> From<AllocFailed<T>> for PoolFault {
    fn from(_error: AllocFailed<T>) -> PoolFault {
        PoolFault::Memory
    }
}

impl From<WatchFault> for PoolFault {
    fn from(fault: WatchFault) -> PoolFault {
        match fault {
            WatchFault::Plan(_)
            | WatchFault::Count
            | WatchFault::NoQuestion
            | WatchFault::Question(_)
            | WatchFault::BookInUse => PoolFault::Plan,
            WatchFault::Memory => PoolFault::Memory,
            WatchFault::Spawn => PoolFault::Spawn,
            WatchFault::Lost { process, report } => PoolFault::Lost { process, report },
            WatchFault::Settle(fault) => PoolFault::Settle(fault),
        }
    }
}
