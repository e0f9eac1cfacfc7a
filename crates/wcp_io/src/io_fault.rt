ghost use Rattle.std.specs.Prelude.{◌≡◌};
ghost use Rattle.wcp_io.specs.declared.io_fault.IoFault.TheVariants.{Memory};

use std::alloc::AllocError;
use thiserror::Error;

/// Why a text wasn't read, or wasn't written.
#[derive(Clone, Copy, Debug, PartialEq, Eq, Error)]
pub enum IoFault {
    /// A read failed, or the input doesn't end.
    #[error("read")]
    Read,
    /// The text is longer than a text may be.
    #[error("toolarge")]
    TooLarge,
    /// A write failed, or nothing more could be written.
    #[error("write")]
    Write,
    /// Nobody reads the output any more, as where the other end of a pipe is closed.
    #[error("write")]
    Closed,
    /// Memory ran out.
    #[error("memory")]
    Memory,
}

impl From<AllocError> for IoFault {
    ghost from_gives = { λ _ given. given ≡ Memory };

    fn from(_error: AllocError) -> IoFault {
        IoFault::Memory
    }
}
