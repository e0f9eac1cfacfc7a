ghost use Rattle.std.specs.Prelude.{◌≡◌};
ghost use Rattle.wcp_meeting.specs.Places.{waits_at};

use crate::present::Present;

/// Where a member of a meeting waits for the others.
#[derive(Clone, Copy, Debug, PartialEq, Eq)]
pub enum MeetingPlace {
    /// Wherever its condition holds.
    Anywhere,
    /// In the interval with this number. Where a run has another order than the one before, it has another number.
    Interval(u32),
    /// Where it gives this label.
    Label(u64),
}

impl MeetingPlace {
    /// Whether a member with this place waits there.
    pub fn waits_at(&self, present: Present) -> bool
        ensures { result ≡ waits_at self.now present }
    {
        match self {
            MeetingPlace::Anywhere => true,
            MeetingPlace::Interval(interval) => *interval == present.interval,
            MeetingPlace::Label(label) => *label == present.label,
        }
    }
}
