ghost use Rattle.std.specs.Prelude.{◌≡◌};
ghost use Rattle.trace_detect.specs.declared.fault.DetectFault.TheVariants.{Memory};
ghost use Rattle.trace_detect.specs.Faults.{fault_of_events};

use std::alloc::AllocError;
use thiserror::Error;
use trace_log::{EventFault, Forgotten, LogFault};

/// Why there is no answer.
#[derive(Debug, Drop, Error)]
pub enum DetectFault {
    /// The log has this fault.
    #[error(transparent)]
    Log(LogFault),
    /// This watched host logs no event in the whole log. Of several it's the first in the order of the conditions.
    #[error("nohost {0}")]
    NoHost(String),
    /// An event forgets, where that is a fault.
    #[error(transparent)]
    Forgets(Forgotten),
    /// A read failed.
    #[error("read")]
    Read,
    /// Memory ran out.
    #[error("memory")]
    Memory,
}

impl From<AllocError> for DetectFault {
    ghost from_gives = { λ _ given. given ≡ Memory };

    fn from(_error: AllocError) -> DetectFault {
        DetectFault::Memory
    }
}

impl From<EventFault> for DetectFault {
    ghost from_gives = { λ fault given. given ≡ fault_of_events fault };

    fn from(fault: EventFault) -> DetectFault {
        match fault {
            EventFault::Log(fault) => DetectFault::Log(fault),
            EventFault::Forgets(forgotten) => DetectFault::Forgets(forgotten),
            EventFault::Read => DetectFault::Read,
            EventFault::Memory => DetectFault::Memory,
        }
    }
}
