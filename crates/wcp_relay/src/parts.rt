use crate::checker_inbox::CheckerInbox;
use crate::live_probe::LiveProbe;
use crate::relay::Relay;

/// The parts of a tree before anything runs: each is for a thread of its own.
#[derive(Drop)]
pub struct Watch {
    /// The probes, by the numbers of their processes.
    pub probes: Vec<LiveProbe>,
    /// The relays, by their numbers in the plan.
    pub relays: Vec<Relay>,
    pub inbox: CheckerInbox,
}
