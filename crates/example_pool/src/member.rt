ghost use Rattle.std.specs.Prelude.{◌≡◌, ◌+◌, ◌<◌, ◌^◌, ◌%◌};

use crate::dispatcher::Dispatcher;
use crate::job::{JobNumbers, JobSum};
use crate::replica::Replica;
use std::sync::Wait;
use thiserror::Error;
use wullaphi::{LentProbe, Loan, LosableProcess, Refusal};

/// A process of the pool.
#[derive(Drop)]
pub enum PoolMember {
    Dispatcher(Dispatcher),
    Replica(Replica),
}

/// Why a member stopped before its part was done.
#[derive(Clone, Copy, Debug, PartialEq, Eq, Error)]
pub enum Stop {
    /// Its probe refused a send or a receive.
    #[error("its probe refused a message")]
    Refused(Refusal),
    /// A partner is gone.
    #[error("a partner is gone")]
    Gone,
    /// It vanished in the middle of its work.
    #[error("it vanished")]
    Vanished,
}

/// How many jobs were answered by a replica, or to the dispatcher, and the sum of the answers, which wraps at 2^64.
#[derive(Clone, Copy, Debug, PartialEq, Eq)]
pub struct Share {
    pub jobs: u32,
    pub sum: u64,
}

impl Share {
    /// The share with one more answer.
    pub(crate) fn with(self, answer: JobSum) -> Share
        requires room { self.jobs + 1 < 2 ^ 32 }
        ensures jobs { result.jobs ≡ self.jobs + 1 }
        ensures sum { result.sum ≡ (self.sum + answer.sum) % 2 ^ 64 }
    {
        Share {
            jobs: self.jobs + 1,
            sum: self.sum.wrapping_add(answer.sum),
        }
    }
}

/// A member that vanished is lost. One that stopped for another reason is watched to its end.
impl LosableProcess for PoolMember {
    ghost use Rattle.example_pool.specs.Members.{LeavesPart, is_done};

    type Shared = JobNumbers;

    type Answer = Result<Share, Stop>;

    ghost leaves = { LeavesPart };

    ghost done = { is_done };

    fn run<L: Loan, R: Wait>(
        self,
        rt: &R,
        probe: &mut LentProbe<L>,
        numbers: &JobNumbers,
    ) -> Result<Share, Stop> {
        match self {
            PoolMember::Dispatcher(dispatcher) => dispatcher.run(rt, probe),
            PoolMember::Replica(replica) => replica.run(rt, probe, numbers),
        }
    }

    fn is_done(answer: &Result<Share, Stop>) -> bool {
        match answer {
            Ok(_) => true,
            Err(Stop::Refused(_) | Stop::Gone) => true,
            Err(Stop::Vanished) => false,
        }
    }
}
