use crate::flag::Flag;

/// What a probe is made with, as far as its log tells.
#[derive(Clone, Copy, Debug, PartialEq, Eq)]
pub struct ProbeSetup {
    /// How many processes there are.
    pub processes: u32,
    /// The number of its own.
    pub process: u32,
    /// Whether it has a condition.
    pub watched: bool,
    /// What resets its flag.
    pub flag: Flag,
}
