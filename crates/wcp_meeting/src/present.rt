/// Where a process is that is at a meeting.
#[derive(Clone, Copy, Debug, PartialEq, Eq)]
pub struct Present {
    /// The number of its interval: how many messages it has sent and received.
    pub interval: u32,
    /// The number by which it calls its place.
    pub label: u64,
}
