ghost use Rattle.std.specs.Prelude.{◌≡◌};
ghost use Rattle.trace_questions.specs.declared.fault.QuestionsFault.TheVariants.{Memory};

use crate::explain::Shown;
use std::alloc::{AllocError, AllocFailed};
use thiserror::Error;

/// Why a text was not read as questions. It displays as one line, without the name of the file.
#[derive(Debug, Drop, Error)]
pub enum QuestionsFault {
    /// The text isn't UTF-8 from somewhere in this line on.
    #[error("line {line}: the text isn't UTF-8")]
    Text {
        line: usize,
    },
    /// The text isn't TOML here, in the words of the crate `toml`.
    #[error("line {line}, column {column}: {}", .why.message())]
    Toml {
        line: usize,
        column: usize,
        why: toml::de::Error,
    },
    /// The document says no questions, or a question's words say nothing, as this line tells.
    #[error("{0}")]
    Question(String),
    /// In the question at this place, counted from 1, an expression of this host, or of the hosts of this name, isn't a
    /// regular expression, in the words of the crate `regex`.
    #[error("question {place} ({name}): expression {}: {why}", Shown(.host.as_str()))]
    Expression {
        place: usize,
        name: String,
        host: String,
        why: regex::Error,
    },
    /// Memory ran out.
    #[error("memory")]
    Memory,
}

impl From<AllocError> for QuestionsFault {
    ghost from_gives = { λ _ given. given ≡ Memory };

    fn from(_error: AllocError) -> QuestionsFault {
        QuestionsFault::Memory
    }
}

impl<T: Drop> From<AllocFailed<T>> for QuestionsFault {
    ghost from_gives = { λ _ given. given ≡ Memory };

    fn from(_error: AllocFailed<T>) -> QuestionsFault {
        QuestionsFault::Memory
    }
}
