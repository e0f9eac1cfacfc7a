//! Why there is no picture.
ghost use Rattle.std.specs.Prelude.{◌≡◌};
ghost use Rattle.draw_cli.specs.SketchFaults.{fault_of_read};
ghost use Rattle.draw_cli.specs.declared.sketch_fault.SketchFault.TheVariants.{Memory};

use std::alloc::AllocError;
use thiserror::Error;
use wcp_script::{ReadFault, ScriptFault};

/// Why there is no picture of a text.
#[derive(Clone, Copy, Debug, PartialEq, Eq, Error)]
pub enum SketchFault {
    /// The text has a fault: it spells no workload.
    #[error(transparent)]
    Script(ScriptFault),
    /// A name is empty, or there are not as many names as processes.
    #[error("names")]
    Names,
    /// Memory ran out.
    #[error("memory")]
    Memory,
}

impl From<AllocError> for SketchFault {
    ghost from_gives = { λ _ given. given ≡ Memory };

    fn from(_error: AllocError) -> SketchFault {
        SketchFault::Memory
    }
}

impl From<ReadFault> for SketchFault {
    ghost from_gives = { λ fault given. given ≡ fault_of_read fault };

    fn from(fault: ReadFault) -> SketchFault {
        match fault {
            ReadFault::Script(fault) => SketchFault::Script(fault),
            ReadFault::NoMemory => SketchFault::Memory,
        }
    }
}
