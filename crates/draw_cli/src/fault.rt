ghost use Rattle.std.specs.Prelude.{◌≡◌};
ghost use Rattle.wcp_io.specs.declared.io_fault.IoFault.TheVariants.{Memory};
ghost use Rattle.draw_cli.specs.declared.fault.DrawFault.TheVariants.{File, Io, Sketch};

use crate::sketch_fault::SketchFault;
use std::alloc::AllocError;
use thiserror::Error;
use wcp_io::IoFault;
use wcp_words::FileFault;

/// Why the program gives no answer. It displays as its line on standard error, without the name of the program.
#[derive(Debug, Drop, Error)]
pub enum DrawFault {
    /// The words after the program's name ask for nothing that it knows, as this line says.
    #[error("usage: {why}")]
    Usage { why: String },
    /// The file that the words name isn't read.
    #[error(transparent)]
    File(FileFault),
    /// The input wasn't read, the output wasn't written, or memory ran out elsewhere.
    #[error(transparent)]
    Io(IoFault),
    /// The text or the names have a fault.
    #[error(transparent)]
    Sketch(SketchFault),
}

impl From<AllocError> for DrawFault {
    ghost from_gives = { λ _ given. given ≡ Io Memory };

    fn from(_error: AllocError) -> DrawFault {
        DrawFault::Io(IoFault::Memory)
    }
}

impl From<FileFault> for DrawFault {
    ghost from_gives = { λ fault given. given ≡ File fault };

    fn from(fault: FileFault) -> DrawFault {
        DrawFault::File(fault)
    }
}

impl From<IoFault> for DrawFault {
    ghost from_gives = { λ fault given. given ≡ Io fault };

    fn from(fault: IoFault) -> DrawFault {
        DrawFault::Io(fault)
    }
}

impl From<SketchFault> for DrawFault {
    ghost from_gives = { λ fault given. given ≡ Sketch fault };

    fn from(fault: SketchFault) -> DrawFault {
        DrawFault::Sketch(fault)
    }
}
