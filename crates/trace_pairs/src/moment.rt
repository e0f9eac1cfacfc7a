//! What is told of a moment of two hosts, and of the hosts.

/// The event of one of the two hosts of a moment: the host, the line of its text, counted from 1, and its text.
#[derive(Debug, Drop)]
pub struct PairMember {
    pub host: String,
    pub line: u64,
    pub text: String,
}

/// A moment of two hosts, the one that came first in the log before the other.
#[derive(Debug, Drop)]
pub struct PairMoment {
    pub first: PairMember,
    pub second: PairMember,
}

/// How many events a host has, and at how many of them the condition holds.
#[derive(Debug, Drop)]
pub struct MatchedCount {
    pub host: String,
    pub events: u64,
    pub matched: u64,
}
