//! What each process of a watch did, by which a mistake in a program shows.

/// What a process of a watch did.
#[derive(Clone, Copy, Debug, PartialEq, Eq)]
pub struct ProcessCounts {
    /// Whether its condition is watched.
    pub watched: bool,
    /// How often it observed its condition.
    pub observed: u64,
    /// How often its condition held then.
    pub held: u64,
    /// How many messages it stamped for another process. Open messages, as a watched lock leaves them, don't count.
    pub stamped: u64,
    /// How many of these messages were received.
    pub received: u64,
}
