use thiserror::Error;

/// Why a run gives no outcome. Where several apply, the first in this order is given.
#[derive(Clone, Copy, Debug, PartialEq, Eq, Error)]
pub enum RunFault {
    /// Memory ran out.
    #[error("run memory")]
    Memory,
    /// A thread couldn't be made.
    #[error("run spawn")]
    Spawn,
    /// The gate held back the worker of this process, the lowest such one,
    /// [`GATE_TURNS`](wcp_clock::GATE_TURNS) times in a row.
    #[error("run held {0}")]
    Held(u32),
    /// This process, the lowest such one, was lost: its worker left no end of its probe, or the checker's fault tells
    /// that its probe was dropped before it closed. No worker lets its probe go so: it closes it also where it gives
    /// up.
    #[error("run lost {0}")]
    Lost(u32),
    /// A worker, a relay or the checker met a cut.
    #[error("run cut")]
    Cut,
    /// Not all that was put was taken.
    #[error("run unfinished")]
    Unfinished,
}
