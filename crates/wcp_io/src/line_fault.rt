ghost use Rattle.std.specs.Prelude.{◌≡◌};
ghost use Rattle.wcp_io.specs.declared.line_fault.InputFault.TheVariants.{Memory};

use std::alloc::AllocError;
use thiserror::Error;

/// Why no line was read.
#[derive(Clone, Copy, Debug, PartialEq, Eq, Error)]
pub enum InputFault {
    /// A read failed.
    #[error("read")]
    Read,
    /// Memory ran out.
    #[error("memory")]
    Memory,
}

impl From<AllocError> for InputFault {
    ghost from_gives = { λ _ given. given ≡ Memory };

    fn from(_error: AllocError) -> InputFault {
        InputFault::Memory
    }
}
