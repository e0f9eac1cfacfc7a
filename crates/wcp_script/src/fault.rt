ghost use Rattle.std.specs.Prelude.{◌≡◌};
ghost use Rattle.wcp_script.specs.Judgement.{ask};
ghost use Rattle.wcp_script.specs.declared.fault.ReadFault.TheVariants.{Script, NoMemory};

use std::alloc::{AllocError, AllocFailed};
use std::error::Error;
use std::fmt::{self, Display, Formatter, Write};
use thiserror::Error as ErrorText;

/// What is wrong with a line of a text. It displays as one word.
#[derive(Clone, Copy, Debug, PartialEq, Eq)]
pub enum FaultKind {
    /// The first two lines aren't those of this format and version.
    Header,
    /// The line has none of the forms that are allowed at its place.
    Line,
    /// A word in the place of a number isn't a number.
    Number,
    /// The plan isn't within its limits.
    Plan,
    /// There is no such process, or it is its own partner.
    Process,
    /// The step of the line can never be done.
    Stuck,
    /// The text has too many steps.
    TooLong,
}

impl Display for FaultKind {
    ghost use Rattle.std.specs.Prelude.{Some};
    ghost use Rattle.wcp_script.specs.FaultText.{fault_word};

    ghost output = { λ kind. Some (fault_word kind) };

    fn fmt<W: Write>(&self, f: &mut Formatter<W>) -> fmt::Result {
        match self {
            FaultKind::Header => f.write_str("header"),
            FaultKind::Line => f.write_str("line"),
            FaultKind::Number => f.write_str("number"),
            FaultKind::Plan => f.write_str("plan"),
            FaultKind::Process => f.write_str("process"),
            FaultKind::Stuck => f.write_str("stuck"),
            FaultKind::TooLong => f.write_str("toolong"),
        }
    }
}

/// The fault of a text, and its line, counted from 1. It displays as `line 7: number`.
#[derive(Clone, Copy, Debug, PartialEq, Eq)]
pub struct ScriptFault {
    pub line: u32,
    pub kind: FaultKind,
}

impl Display for ScriptFault {
    ghost use Rattle.std.specs.Prelude.{Some};
    ghost use Rattle.wcp_script.specs.FaultText.{fault_text};

    ghost output = { λ fault. Some (fault_text fault) };

    fn fmt<W: Write>(&self, f: &mut Formatter<W>) -> fmt::Result {
        write!(f, "line {}: {}", self.line, self.kind)
    }
}

impl Error for ScriptFault {}

/// Why a text wasn't read.
#[derive(Clone, Copy, Debug, PartialEq, Eq, ErrorText)]
pub enum ReadFault {
    /// The text has this fault.
    #[error(transparent)]
    Script(ScriptFault),
    /// Memory ran out before the text was read or a fault of it was met.
    #[error("memory")]
    NoMemory,
}

impl From<ScriptFault> for ReadFault {
    ghost from_gives = { λ fault given. given ≡ Script fault };

    fn from(fault: ScriptFault) -> ReadFault {
        ReadFault::Script(fault)
    }
}

impl From<AllocError> for ReadFault {
    ghost from_gives = { λ _ given. given ≡ NoMemory };

    fn from(_error: AllocError) -> ReadFault {
        ReadFault::NoMemory
    }
}

impl<T: Drop> From<AllocFailed<T>> for ReadFault {
    ghost from_gives = { λ _ given. given ≡ NoMemory };

    fn from(_error: AllocFailed<T>) -> ReadFault {
        ReadFault::NoMemory
    }
}

/// A question about a line, and the fault where its answer is no.
pub(crate) fn ask(holds: bool, kind: FaultKind) -> Result<(), FaultKind>
    ensures { result ≡ ask holds kind }
{
    if holds { Ok(()) } else { Err(kind) }
}
