ghost use Rattle.std.specs.Prelude.{◌≡◌};
ghost use Rattle.wcp_io.specs.declared.io_fault.IoFault.TheVariants.{Memory};
ghost use Rattle.trace_cli.specs.declared.fault.TraceFault.TheVariants.{Conditions, Detection, File, Io};

use crate::shown_names::ShownFault;
use std::alloc::AllocError;
use thiserror::Error;
use trace_condition::ConditionFault;
use trace_detect::DetectFault;
use trace_questions::QuestionsFault;
use trace_schedule::OrderedFault;
use trace_spelling::SpellingFault;
use wcp_io::IoFault;
use wcp_words::FileFault;

/// Why the program gives no answer. It displays as its line on standard error, without the name of the program.
#[derive(Debug, Drop, Error)]
pub enum TraceFault {
    /// The words after the program's name ask for nothing that it knows, as this line says.
    #[error("usage: {why}")]
    Usage { why: String },
    /// The file that the words name isn't read.
    #[error(transparent)]
    File(FileFault),
    /// The file that asks the questions can't be read, or is too large.
    #[error("{name}: {fault}")]
    Unread { name: String, fault: IoFault },
    /// The file that asks the questions asks none.
    #[error("{name}: {fault}")]
    Questions { name: String, fault: QuestionsFault },
    /// The expression of `--parser` isn't one, or lacks a group.
    #[error("--parser: {0}")]
    Spelling(SpellingFault),
    /// The expression in this place of the words isn't one.
    #[error("{place}: {why}")]
    Expression { place: String, why: regex::Error },
    /// The words say no conditions, or an expression isn't one.
    #[error(transparent)]
    Conditions(ConditionFault),
    /// The log has a fault, or a host logs nothing, or the log can't be read.
    #[error("{}", ShownFault(.0))]
    Detection(DetectFault),
    /// Clocks contradict each other, so there is no order of the events that led to the moment.
    #[error("line {line}: an event counts this one, and no more events than this one does")]
    Contradicts { line: u64 },
    /// The output wasn't written, or memory ran out elsewhere.
    #[error(transparent)]
    Io(IoFault),
}

impl From<AllocError> for TraceFault {
    ghost from_gives = { λ _ given. given ≡ Io Memory };

    fn from(_error: AllocError) -> TraceFault {
        TraceFault::Io(IoFault::Memory)
    }
}

impl From<ConditionFault> for TraceFault {
    ghost from_gives = { λ fault given. given ≡ Conditions fault };

    fn from(fault: ConditionFault) -> TraceFault {
        TraceFault::Conditions(fault)
    }
}

impl From<DetectFault> for TraceFault {
    ghost from_gives = { λ fault given. given ≡ Detection fault };

    fn from(fault: DetectFault) -> TraceFault {
        TraceFault::Detection(fault)
    }
}

impl From<FileFault> for TraceFault {
    ghost from_gives = { λ fault given. given ≡ File fault };

    fn from(fault: FileFault) -> TraceFault {
        TraceFault::File(fault)
    }
}

impl From<IoFault> for TraceFault {
    ghost from_gives = { λ fault given. given ≡ Io fault };

    fn from(fault: IoFault) -> TraceFault {
        TraceFault::Io(fault)
    }
}

impl From<OrderedFault> for TraceFault {
    ghost use Rattle.std.specs.Prelude.{◌≡◌};
    ghost use Rattle.trace_cli.specs.Scheduled.{fault_of};

    ghost from_gives = { λ fault given. given ≡ fault_of fault };

    fn from(fault: OrderedFault) -> TraceFault {
        match fault {
            OrderedFault::Detection(fault) => TraceFault::Detection(fault),
            OrderedFault::Contradicts { line } => TraceFault::Contradicts { line },
        }
    }
}

impl From<SpellingFault> for TraceFault {
    fn from(fault: SpellingFault) -> TraceFault {
        match fault {
            SpellingFault::Memory => TraceFault::Io(IoFault::Memory),
            fault => TraceFault::Spelling(fault),
        }
    }
}
