ghost use Rattle.std.specs.Prelude.{◌≡◌};
ghost use Rattle.wcp_io.specs.declared.io_fault.IoFault.TheVariants.{Memory};
ghost use Rattle.wcp_cli.specs.declared.fault.Fault.TheVariants.{Io, Run};
ghost use Rattle.wcp_cli.specs.Faults.{fault_of_read};

use std::alloc::AllocError;
use thiserror::Error;
use wcp_io::IoFault;
use wcp_run::RunFault;
use wcp_script::{ReadFault, ScriptFault};

/// Why the program gives no answer. It displays as its line on standard error, without the name of
/// the program.
#[derive(Clone, Copy, Debug, PartialEq, Eq, Error)]
pub enum Fault {
    /// The words after the program's name ask for nothing that it knows.
    #[error("usage")]
    Usage,
    /// The input wasn't read, the output wasn't written, or memory ran out, outside of a run in threads.
    #[error(transparent)]
    Io(IoFault),
    /// The text has a fault: it spells no workload, or no schedule.
    #[error(transparent)]
    Script(ScriptFault),
    /// A run in threads came to no outcome.
    #[error(transparent)]
    Run(RunFault),
}

impl From<AllocError> for Fault {
    ghost from_gives = { λ _ e. e ≡ Io Memory };

    fn from(_error: AllocError) -> Fault {
        Fault::Io(IoFault::Memory)
    }
}

impl From<IoFault> for Fault {
    ghost from_gives = { λ fault given. given ≡ Io fault };

    fn from(fault: IoFault) -> Fault {
        Fault::Io(fault)
    }
}

impl From<ReadFault> for Fault {
    ghost from_gives = { λ fault given. given ≡ fault_of_read fault };

    fn from(fault: ReadFault) -> Fault {
        match fault {
            ReadFault::Script(fault) => Fault::Script(fault),
            ReadFault::NoMemory => Fault::Io(IoFault::Memory),
        }
    }
}

impl From<RunFault> for Fault {
    ghost from_gives = { λ fault given. given ≡ Run fault };

    fn from(fault: RunFault) -> Fault {
        Fault::Run(fault)
    }
}
