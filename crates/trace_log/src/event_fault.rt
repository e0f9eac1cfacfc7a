ghost use Rattle.std.specs.Prelude.{◌≡◌};
ghost use Rattle.trace_log.specs.declared.event_fault.EventFault.TheVariants as fault;
ghost use Rattle.trace_log.specs.EventFaults.{fault_of_input, fault_of_read};

use crate::fault::{LogFault, LogReadFault};
use crate::forgotten::Forgotten;
use std::alloc::AllocError;
use thiserror::Error;
use wcp_io::InputFault;

/// Why no event was read.
#[derive(Debug, Drop, Error)]
pub enum EventFault {
    /// The log has this fault.
    #[error(transparent)]
    Log(LogFault),
    /// An event forgets, where that is a fault.
    #[error(transparent)]
    Forgets(Forgotten),
    /// A read failed.
    #[error("read")]
    Read,
    /// Memory ran out.
    #[error("memory")]
    Memory,
}

impl From<AllocError> for EventFault {
    ghost from_gives = { λ _ given. given ≡ fault.Memory };

    fn from(_error: AllocError) -> EventFault {
        EventFault::Memory
    }
}

impl From<Forgotten> for EventFault {
    ghost from_gives = { λ what given. given ≡ fault.Forgets what };

    fn from(forgotten: Forgotten) -> EventFault {
        EventFault::Forgets(forgotten)
    }
}

impl From<LogFault> for EventFault {
    ghost from_gives = { λ what given. given ≡ fault.Log what };

    fn from(fault: LogFault) -> EventFault {
        EventFault::Log(fault)
    }
}

impl From<InputFault> for EventFault {
    ghost from_gives = { λ fault given. given ≡ fault_of_input fault };

    fn from(fault: InputFault) -> EventFault {
        match fault {
            InputFault::Read => EventFault::Read,
            InputFault::Memory => EventFault::Memory,
        }
    }
}

impl From<LogReadFault> for EventFault {
    ghost from_gives = { λ fault given. given ≡ fault_of_read fault };

    fn from(fault: LogReadFault) -> EventFault {
        match fault {
            LogReadFault::Log(fault) => EventFault::Log(fault),
            LogReadFault::Memory => EventFault::Memory,
        }
    }
}
