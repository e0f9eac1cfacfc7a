/// Why an answer stands, in the lines of the log. A place is that of a watched host.
#[derive(Debug, Drop)]
pub enum Explanation {
    /// There is a moment: what is said of its members, in the order of the hosts.
    Found(Vec<HeldState>),
    /// No state of the host at this place is left: why each of its states is in no moment, in their order.
    NoneLeft { place: usize, over: Vec<StateOver> },
}

/// A state that is in no moment, since it is over at an event that each moment comes after.
#[derive(Debug, Drop)]
pub struct StateOver {
    /// The line at which it begins.
    pub line: u64,
    /// The host of the event at which it is over.
    pub at_place: usize,
    /// The line of that event.
    pub at_line: u64,
    /// The last line of the state's host that this event knows.
    pub knows_up_to: u64,
}

/// A member of the moment, and when its host's condition holds.
#[derive(Debug, Drop)]
pub struct HeldState {
    /// The line of the member.
    pub line: u64,
    /// The line from which on the condition holds.
    pub begun: u64,
    /// The first line behind it at which it doesn't, if one was read.
    pub until: Option<u64>,
    /// The last line of each watched host that the member knows.
    pub knows: Vec<Option<u64>>,
}
