//! What the probe of a process counts.
use wcp_clock::MAX_PROCS;

/// What a probe counts.
#[derive(Drop)]
pub(crate) struct ProbeCounts {
    pub(crate) observed: u64,
    pub(crate) held: u64,
    pub(crate) stamped: u64,
    /// How many messages it received, by the process that sent them.
    pub(crate) received: [u64; MAX_PROCS],
}

impl ProbeCounts {
    pub(crate) fn new() -> ProbeCounts {
        ProbeCounts {
            observed: 0,
            held: 0,
            stamped: 0,
            received: [0; MAX_PROCS],
        }
    }

    /// An observation of the condition.
    pub(crate) fn count_observation(&mut self, holds: bool) {
        self.observed = self.observed.saturating_add(1);
        self.held = self.held.saturating_add(u64::from(holds));
    }

    /// A message for another process, if it was stamped.
    pub(crate) fn count_stamp(&mut self, is_stamped: bool) {
        self.stamped = self.stamped.saturating_add(u64::from(is_stamped));
    }

    /// A message from this process, if it was received.
    pub(crate) fn count_receipt(&mut self, from: u32, is_received: bool) {
        let from = from as usize;
        if from < MAX_PROCS {
            self.received[from] = self.received[from].saturating_add(u64::from(is_received));
        }
    }
}
