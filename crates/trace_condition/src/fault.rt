ghost use Rattle.std.specs.Prelude.{◌≡◌};
ghost use Rattle.trace_condition.specs.declared.fault.ConditionFault.TheVariants.{Memory};

use std::alloc::{AllocError, AllocFailed};
use thiserror::Error;

/// Why words were not read as conditions.
#[derive(Debug, Drop, Error)]
pub enum ConditionFault {
    /// The words say no conditions: there is no word, or one without a host or without `=`, or a host has two
    /// conditions, or a from has no until or an until no from.
    #[error("usage")]
    Usage,
    /// An expression of this host isn't a regular expression, in the words of the crate `regex`.
    #[error("expression {host}: {why}")]
    Expression { host: String, why: regex::Error },
    /// Memory ran out.
    #[error("memory")]
    Memory,
}

impl From<AllocError> for ConditionFault {
    ghost from_gives = { λ _ given. given ≡ Memory };

    fn from(_error: AllocError) -> ConditionFault {
        ConditionFault::Memory
    }
}

impl<T: Drop> From<AllocFailed<T>> for ConditionFault {
    ghost from_gives = { λ _ given. given ≡ Memory };

    fn from(_error: AllocFailed<T>) -> ConditionFault {
        ConditionFault::Memory
    }
}
