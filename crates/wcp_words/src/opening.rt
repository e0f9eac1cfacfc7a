use crate::source::InputSource;
use either::Either;
use std::alloc::AllocError;
use std::fs;
use std::io::{self, Empty, IsTerminal, Read, Write};
use std::rt::Files;
use thiserror::Error;

/// The name of the file that standard input is.
const STANDARD_INPUT: &str = "/dev/stdin";

/// Why the file that a call names isn't read.
#[derive(Debug, Drop, Error)]
pub enum FileFault {
    /// It can't be opened.
    #[error("{name}: {why}")]
    Open { name: String, why: io::Error },
    /// Memory ran out.
    #[error("memory")]
    Memory,
}

impl From<AllocError> for FileFault {
    fn from(_error: AllocError) -> FileFault {
        FileFault::Memory
    }
}

/// Opens what is read: the file, or else standard input.
pub fn open<R: Files + AllocGlobal, S: Read + Drop>(
    rt: &R,
    source: InputSource<'_>,
    standard_input: S,
) -> Result<Either<R::File, S>, FileFault> {
    let InputSource::File(name) = source else {
        return Ok(Either::Right(standard_input));
    };
    match fs::open(rt, name) {
        Ok(file) => Ok(Either::Left(file)),
        Err(why) => Err(FileFault::Open {
            name: String::from_str(rt.alloc(), name)?,
            why,
        }),
    }
}

/// Opens once more what was read, from its beginning. Nothing is opened where it's no regular file, which may give
/// something else now, or wait for ever.
pub fn open_again<R: Files>(rt: &R, source: InputSource<'_>) -> Option<Either<R::File, Empty>> {
    let name = match source {
        InputSource::Nowhere => return Some(Either::Right(io::empty())),
        InputSource::StandardInput => STANDARD_INPUT,
        InputSource::File(name) => name,
    };
    let file = fs::metadata(rt, name).ok()?;
    if !file.is_file() {
        return None;
    }
    Some(Either::Left(fs::open(rt, name).ok()?))
}

/// Says in a line that the program reads from a terminal, where it does.
pub fn tell_terminal<S: IsTerminal, E: Write>(
    program: &str,
    source: InputSource<'_>,
    standard_input: &S,
    errors: &mut E,
) {
    if source == InputSource::StandardInput && standard_input.is_terminal() {
        let _ = writeln!(
            errors,
            "{program}: reads from the terminal, until Ctrl-D at the start of a line"
        );
    }
}
