//! Names of hosts in lines on standard error.

use std::fmt;
use trace_detect::DetectFault;

/// A name whose control characters are escaped, so that it can't break a line.
#[derive(Clone, Copy)]
pub(crate) struct ShownName<'n>(pub &'n str);

impl fmt::Display for ShownName<'_> {
    fn fmt<W: fmt::Write>(&self, f: &mut fmt::Formatter<W>) -> fmt::Result {
        for c in self.0.chars() {
            if !c.is_control() {
                f.write_char(c)?;
                continue;
            }
            for part in c.escape_default() {
                f.write_char(part)?;
            }
        }
        Ok(())
    }
}

/// A fault of which the name of a host is shown so.
#[derive(Clone, Copy)]
pub(crate) struct ShownFault<'f>(pub &'f DetectFault);

impl fmt::Display for ShownFault<'_> {
    fn fmt<W: fmt::Write>(&self, f: &mut fmt::Formatter<W>) -> fmt::Result {
        match self.0 {
            DetectFault::NoHost(name) => write!(f, "nohost {}", ShownName(name.as_str())),
            fault => write!(f, "{fault}"),
        }
    }
}
