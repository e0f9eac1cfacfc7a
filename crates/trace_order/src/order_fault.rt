ghost use Rattle.std.specs.Prelude.{◌≡◌};

use crate::second_send::SecondSend;
use std::alloc::{AllocError, AllocFailed};
use thiserror::Error;

/// Why an event wasn't taken.
#[derive(Debug, Drop, Error)]
pub enum PutFault {
    /// The event sends an id that was sent, or one twice: the first of these.
    #[error("twice")]
    Twice(SecondSend),
    /// Memory ran out.
    #[error("memory")]
    Memory,
}

/// Why no event was given on.
#[derive(Clone, Copy, Debug, PartialEq, Eq, Error)]
pub enum GiveFault {
    /// The event of this line has a number that no clock can have.
    #[error("line {0}: many")]
    Many(u64),
    /// Memory ran out.
    #[error("memory")]
    Memory,
}

impl From<AllocError> for PutFault {
    ghost use Rattle.trace_order.specs.declared.order_fault.PutFault.TheVariants as put;

    ghost from_gives = { λ _ given. given ≡ put.Memory };

    fn from(_error: AllocError) -> PutFault {
        PutFault::Memory
    }
}

impl<T: Drop> From<AllocFailed<T>> for PutFault {
    ghost use Rattle.trace_order.specs.declared.order_fault.PutFault.TheVariants as put;

    ghost from_gives = { λ _ given. given ≡ put.Memory };

    fn from(_error: AllocFailed<T>) -> PutFault {
        PutFault::Memory
    }
}

impl From<AllocError> for GiveFault {
    ghost use Rattle.trace_order.specs.declared.order_fault.GiveFault.TheVariants as give;

    ghost from_gives = { λ _ given. given ≡ give.Memory };

    fn from(_error: AllocError) -> GiveFault {
        GiveFault::Memory
    }
}

impl<T: Drop> From<AllocFailed<T>> for GiveFault {
    ghost use Rattle.trace_order.specs.declared.order_fault.GiveFault.TheVariants as give;

    ghost from_gives = { λ _ given. given ≡ give.Memory };

    fn from(_error: AllocFailed<T>) -> GiveFault {
        GiveFault::Memory
    }
}
