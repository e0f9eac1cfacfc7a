//! The stamp of a message, in a caller's memory.
ghost use Rattle.std.specs.Prelude.{◌≡◌, ◌<◌, ◌↔◌, IsSome, IfSome, IsTrue, take};
ghost use Rattle.wcp_c.specs.Stamps.{HoldsStamp, seal_of};

use wcp_clock::{Clock, MAX_PROCS};

/// The first word of a stamp.
pub const STAMP_MAGIC: u32 = 0x5743_5331;

/// What goes along with a message: the watch, the sender and the receiver, and the sender's clock after
/// the send.
#[repr(C)]
#[derive(Clone, Copy)]
pub struct WcpStamp {
    pub magic: u32,
    pub processes: u32,
    pub from: u32,
    pub to: u32,
    pub watch: u64,
    pub clock: [u32; MAX_PROCS],
}

impl WcpStamp {
    /// The clock of the stamp, if the memory holds one.
    pub fn clock(&self) -> Option<Clock>
        ensures held { IsSome result ↔ HoldsStamp self.now }
        ensures clock { IfSome result (λ clock. clock ≡ (seal_of self.now).clock) }
    {
        let n = self.processes as usize;
        if self.magic != STAMP_MAGIC || n > MAX_PROCS || self.from >= self.processes {
            return None;
        }
        if self.clock[n..].iter().any(|count| *count != 0) {
            return None;
        }
        Some(Clock::from_padded(&self.clock, self.processes))
    }
}
