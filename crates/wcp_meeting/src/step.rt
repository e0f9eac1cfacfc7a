use crate::present::Present;

/// What a process does at a meeting.
#[derive(Clone, Copy, Debug, PartialEq, Eq)]
pub enum MeetingStep {
    /// It is there, in this interval, with this label.
    Arrive { process: u32, present: Present },
    /// It is no longer there.
    Leave { process: u32 },
}
