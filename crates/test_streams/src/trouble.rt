use std::io::{Error, ErrorKind, Result};

/// Which calls of a stream fail, and how. Calls are numbered from 0.
#[derive(Clone, Copy)]
pub enum Trouble {
    No,
    At(usize, ErrorKind),
    /// The first call, the third, and so on.
    EveryOther(ErrorKind),
    Always(ErrorKind),
}

impl Trouble {
    /// Whether this call succeeds.
    pub(crate) fn at(self, call: usize) -> Result<()> {
        match self {
            Trouble::At(failing, kind) if call == failing => Err(Error::from(kind)),
            Trouble::EveryOther(kind) if call % 2 == 0 => Err(Error::from(kind)),
            Trouble::Always(kind) => Err(Error::from(kind)),
            _ => Ok(()),
        }
    }
}
