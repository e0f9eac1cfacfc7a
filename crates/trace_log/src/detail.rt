use std::fmt;
use std::marker::Model;

/// What is wrong with a line, in words; none where memory ran out for them. It displays behind the fault's kind. No
/// contract speaks of the words.
#[derive(Debug, Drop)]
pub struct FaultDetail {
    words: Option<String>,
}

impl Model for FaultDetail {
    ghost Value = { Unit {0} };

    ghost view = { λ _. tt };
}

impl FaultDetail {
    /// These words, or none.
    pub(crate) fn new(words: Option<String>) -> FaultDetail {
        FaultDetail { words }
    }

    /// The words; empty where there are none.
    pub fn words(&self) -> &str {
        match &self.words {
            Some(words) => words.as_str(),
            None => "",
        }
    }
}

impl fmt::Display for FaultDetail {
    fn fmt<W: fmt::Write>(&self, f: &mut fmt::Formatter<W>) -> fmt::Result {
        match &self.words {
            Some(words) if !words.is_empty() => write!(f, ": {words}"),
            _ => Ok(()),
        }
    }
}
