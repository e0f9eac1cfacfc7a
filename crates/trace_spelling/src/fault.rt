ghost use Rattle.std.specs.Prelude.{◌≡◌};
ghost use Rattle.trace_spelling.specs.declared.fault.SpellingFault.TheVariants.{Memory};

use std::alloc::AllocError;
use thiserror::Error;

/// Why a parser was not read.
#[derive(Debug, Drop, Error)]
pub enum SpellingFault {
    /// It isn't a regular expression, in the words of the crate `regex`.
    #[error("{0}")]
    Expression(regex::Error),
    /// It has no group with this name.
    #[error("no group (?<{0}>...)")]
    Group(&'static str),
    /// Memory ran out.
    #[error("memory")]
    Memory,
}

impl From<AllocError> for SpellingFault {
    ghost from_gives = { λ _ given. given ≡ Memory };

    fn from(_error: AllocError) -> SpellingFault {
        SpellingFault::Memory
    }
}
