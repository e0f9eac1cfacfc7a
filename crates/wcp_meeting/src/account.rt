//! What is told of a meeting.
use crate::attendance::Attendance;
use crate::present::Present;
use std::fmt;
use std::fmt::{Display, Formatter, Write};
use wcp_clock::MAX_PROCS;

/// That all met, with where each was; or who of the members is there, who came and gave up, and who never came.
impl Display for Attendance {
    fn fmt<W: Write>(&self, f: &mut Formatter<W>) -> fmt::Result {
        let met = self.met();
        f.write_str(if met.is_some() { "met" } else { "not met" })?;
        let mut between = ": ";
        for process in 0..MAX_PROCS {
            let number = process as u32;
            if !self.is_member(number) {
                continue;
            }
            write!(f, "{between}process {number}")?;
            between = ", ";
            match met {
                Some(there) => {
                    if let Some(Present { interval, label }) = there[process] {
                        write!(f, " in interval {interval} at label {label}")?;
                    }
                }
                None if self.is_here(number) => f.write_str(" is there")?,
                None if self.has_come(number) => f.write_str(" came and gave up")?,
                None => f.write_str(" never came to its place")?,
            }
        }
        Ok(())
    }
}
