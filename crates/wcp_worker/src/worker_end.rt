use crate::mailbox::Mailbox;
use thiserror::Error;
use wcp_lane::Cut;
use wcp_probe::Refusal;
use wcp_relay::ProbeEnd;

/// Why a worker gave up.
#[derive(Clone, Copy, Debug, PartialEq, Eq, Error)]
pub enum WorkerFault {
    /// Its gate held it back [`GATE_TURNS`](wcp_clock::GATE_TURNS) times in a row.
    #[error("held back by its gate")]
    Held,
    /// A lane to or from another worker was cut.
    #[error(transparent)]
    Cut(Cut),
    /// Its probe refused a send or a receive.
    #[error("refused by its probe")]
    Refused(Refusal),
    /// A task sends or receives a message for which there is no lane, or more messages than its lane was made for.
    #[error("no lane for a message")]
    Unpaired,
}

/// What is left of a worker that ran.
#[derive(Drop)]
pub enum WorkerEnd {
    /// It did all its tasks, closed its probe and took all that was sent to it.
    Whole {
        probe: ProbeEnd,
        mailbox: Mailbox,
    },
    /// It gave up. It holds no end of a lane any more, so that no other worker waits for it.
    GaveUp {
        fault: WorkerFault,
        probe: Option<ProbeEnd>,
    },
}
