use json::Writer;
use std::alloc::{AllocError, Global};
use std::io::Write;

/// The expressions that end states and match no event, as the words say them.
#[derive(Debug, Drop)]
pub struct Unmatched {
    words: Vec<String>,
    /// How many events were read, if those weren't all.
    read: Option<u64>,
}

impl Unmatched {
    /// These words, of a log that was read whole, or so far.
    pub(crate) fn new(words: Vec<String>, read: Option<u64>) -> Unmatched {
        Unmatched { words, read }
    }

    /// No words.
    pub fn none(alloc: Global) -> Unmatched {
        Unmatched::new(Vec::new(alloc), None)
    }

    /// The member of a JSON object that has the words, if there are any.
    pub(crate) fn member(&self, alloc: Global) -> Result<Option<Vec<u8>>, AllocError> {
        if self.words.is_empty() {
            return Ok(None);
        }
        let mut member = Vec::new(alloc);
        member.extend_from_slice(match self.read {
            None => b"\"unmatched\":",
            Some(_) => b"\"unmatched_so_far\":",
        })?;
        let mut out = Writer::new(member);
        out.begin_array()?;
        for word in &self.words {
            out.string(word.as_str())?;
        }
        out.end_array()?;
        Ok(Some(out.into_inner()))
    }

    /// Says each of them in a line.
    pub fn tell<E: Write>(&self, program: &str, errors: &mut E) {
        for words in &self.words {
            let _ = match self.read {
                None => writeln!(errors, "{program}: {words} matches no event"),
                Some(read) => writeln!(
                    errors,
                    "{program}: {words} matches none of the first {read} events"
                ),
            };
        }
    }
}
