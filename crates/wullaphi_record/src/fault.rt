//! Why an event wasn't recorded, or a log not made.
ghost use Rattle.wullaphi_record.specs.declared.fault.RecordFault.TheVariants.{Memory};

use std::alloc::AllocError;
use thiserror::Error;

/// Why an event wasn't recorded, or a log not made.
#[derive(Clone, Copy, Debug, PartialEq, Eq, Error)]
pub enum RecordFault {
    /// The probe is of another process, or its clock is behind that of the last event.
    #[error("the probe isn't the one of the last event")]
    OtherProbe,
    /// The text has more than 4,096 bytes, or with its names a line of the log has more than 65,536.
    #[error("the text is too long")]
    Long,
    /// 4,294,967,294 events were recorded.
    #[error("too many events")]
    Full,
    /// Two of the records are of one process, or have the same name.
    #[error("two records are of one process, or have one name")]
    Twice,
    /// Memory ran out.
    #[error("out of memory")]
    Memory,
}

impl From<AllocError> for RecordFault {
    ghost use Rattle.std.specs.Prelude.{◌≡◌};

    ghost from_gives = { λ _ fault. fault ≡ Memory };

    fn from(_error: AllocError) -> RecordFault {
        RecordFault::Memory
    }
}
